// Performs an action: what it changes of its operation, of the resources and of the match lists.
ghost use Rattle.std.specs.Prelude.{◌≡◌, ◌≢◌, ◌≤◌, ◌+◌, ◌<◌, ◌^◌, ◌∷◌, All, map, None};
ghost use Rattle.goal_graph.specs.declared.action.Class.TheVariants.{Arrive, Begin};
ghost use Rattle.goal_graph.specs.Schedule.{operations, needed};
ghost use Rattle.goal_graph.specs.Concerned.{waiting_on};
ghost use Rattle.goal_graph.specs.Fault.{IsOp};
ghost use Rattle.sim_params.specs.Run.{IsNext, IsRun};
ghost use Rattle.sim_params.specs.Budget.{budget};
ghost use Rattle.sim_state.specs.Tables.{with_times};
ghost use Rattle.sim_state.specs.Represents.{AreFreeTimes, KnowsPostsAndArrivals, times_known, entry_known, entry_then};
ghost use Rattle.sim_state.specs.Awaited.{given_by};
ghost use Rattle.sim_state.specs.Tasks.{work_of};
ghost use Rattle.sim_state.specs.Changes.{IsChange};

use super::RunState;
use super::give::give;
use crate::entry::{Change, OpState, Times, read, write_change};
use crate::history::History;
use crate::task::Task;
use crate::work::Work;
use goal_graph::{Class, Need, Sched, Timed};
use sim_eager::{eager_begin_message, serve_message};
use sim_match::Matcher;
use sim_order::Steps;
use sim_params::Costs;
use sim_rendezvous::{data_message, request_to};
use sim_resources::Resources;
use std::sync::ledger::Ledger;

impl<'a, C: Costs, H: History> RunState<'a, C, H> {
    /// Performs the next action, and gives the start or end of its operation to the operations in `waiting`, which wait
    /// for it. An Arrive gives neither, so `waiting` may be anything then.
    ///
    /// - `looked`: `looks` counts at most eight probes of match lists for the action. The probes that skip entries were
    ///   counted when these came (`Matcher::post_counted`).
    /// - `given`: `reads` counts exactly the needs that the action may satisfy.
    pub fn perform<M: Ledger, N: Ledger>(
        &mut self,
        action: Timed,
        waiting: &[Need],
        looks: &mut Steps<M>,
        reads: &mut Steps<N>,
    )
        requires next { IsNext self.old.plans (C.model self.old.costs) self.old.history action }
        requires whom { action.class ≢ Arrive → waiting.now ≡ waiting_on self.old.plans action.op }
        requires exist { action.class ≢ Arrive → All (λ need. IsOp self.old.plans (needed action.op need)) waiting.now }
        ensures performed { self.new ≡ record self.old { history = action ∷ self.old.history } }
        ensures looked { looks.new ≤ looks.old + 8 }
        ensures given { reads.new ≡ reads.old + given_by self.old.plans action }
    {
        let sched = self.sched;
        let change = change_of(
            sched,
            &self.costs,
            &self.history,
            &self.entries,
            &mut self.resources,
            &mut self.matcher,
            action,
            looks,
        );
        let times = change.times;
        write_change(sched, &mut self.entries, action.op, change, action.time);
        give(
            sched,
            &self.costs,
            &self.history,
            &mut self.entries,
            action,
            times,
            waiting,
            reads,
        );
        self.history.push(action);
    }
}

// Returns what the next action changes of its operation. It holds the resources that the action uses, and passes a post
// or an arrival to the matcher. Only the contract uses the history.
#[inline(always)]
fn change_of<C: Costs, H: History, M: Ledger>(
    sched: &Sched,
    costs: &C,
    history: &H,
    entries: &[OpState],
    resources: &mut Resources,
    matcher: &mut Matcher,
    action: Timed,
    looks: &mut Steps<M>,
) -> Change
    requires run { IsRun sched.now (C.model costs.now) (H.actions history.now) }
    requires within { budget sched.now (C.model costs.now) < 2 ^ 63 }
    requires known { entries.now ≡ map (entry_known sched.now (C.model costs.now) (H.actions history.now)) (operations sched.now) }
    requires told { KnowsPostsAndArrivals sched.now (C.model costs.now) (H.actions history.now) matcher.old }
    requires free { AreFreeTimes sched.now (C.model costs.now) (H.actions history.now) resources.old }
    requires next { IsNext sched.now (C.model costs.now) (H.actions history.now) action }
    ensures change { IsChange sched.now (C.model costs.now) (H.actions history.now) action result }
    ensures free { AreFreeTimes sched.now (C.model costs.now) (action ∷ H.actions history.now) resources.new }
    ensures told { KnowsPostsAndArrivals sched.now (C.model costs.now) (action ∷ H.actions history.now) matcher.new }
    ensures looked { looks.new ≤ looks.old + 8 }
{
    let (id, at) = (action.op, action.time);
    let OpState { work, times, link } = *read(sched, entries, id);
    match action.class {
        Class::Begin => {
            Change::of_times(begin(sched, costs, history, resources, action, work, times))
        }
        Class::Post => Change {
            times: times.with_start(at).with_nothing_awaited(),
            partner: matcher.post_counted(id, looks),
        },
        Class::Arrive => Change {
            times: times.with_nothing_awaited(),
            partner: matcher.arrive_counted(id, looks),
        },
        Class::Data => {
            let sent = data_message(sched, costs, resources, id, work.to, work.amount, at);
            Change::of_times(times.with_end(sent.end).with_awaited(sent.available))
        }
        Class::Serve => {
            let Some(send) = link.partner() else {
                unreachable!()
            };
            let Work { to, amount, .. } = read(sched, entries, send).work;
            let end = serve_message(sched, costs, resources, id, send, to, amount, at);
            Change::of_times(times.with_end(end))
        }
    }
}

// Returns the times of a calc or a send after its Begin, and holds the resources that it uses.
#[inline(always)]
fn begin<C: Costs, H: History>(
    sched: &Sched,
    costs: &C,
    history: &H,
    resources: &mut Resources,
    action: Timed,
    work: Work,
    times: Times,
) -> Times
    requires run { IsRun sched.now (C.model costs.now) (H.actions history.now) }
    requires within { budget sched.now (C.model costs.now) < 2 ^ 63 }
    requires free { AreFreeTimes sched.now (C.model costs.now) (H.actions history.now) resources.old }
    requires next { IsNext sched.now (C.model costs.now) (H.actions history.now) action }
    requires class { action.class ≡ Begin }
    requires work { work ≡ work_of sched.now (C.model costs.now) action.op }
    requires times { times ≡ times_known sched.now (C.model costs.now) (H.actions history.now) action.op }
    ensures known { map (with_times action.op result (entry_known sched.now (C.model costs.now) (H.actions history.now))) (operations sched.now)
        ≡ map (entry_then sched.now (C.model costs.now) (H.actions history.now) action) (operations sched.now) }
    ensures free { AreFreeTimes sched.now (C.model costs.now) (action ∷ H.actions history.now) resources.new }
{
    let (id, at) = (action.op, action.time);
    let times = times.with_start(at);
    match work.task {
        Task::Calc => {
            let end = at + work.amount;
            resources.hold_cpu(id, end);
            times.with_end(end).with_nothing_awaited()
        }
        Task::Eager => {
            let begun = eager_begin_message(sched, costs, resources, id, work.to, work.amount, at);
            times.with_end(begun.end).with_awaited(begun.arrive)
        }
        Task::Rendezvous => {
            let arrive = request_to(sched, costs, resources, id, work.to, at);
            times.with_awaited(arrive)
        }
        Task::Receive => unreachable!(),
    }
}
