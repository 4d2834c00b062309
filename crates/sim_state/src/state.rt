//! The actions so far, and what is known of each operation.
ghost use Rattle.std.specs.Prelude.{◌≡◌, ℕ, ◌+◌, ◌<◌, ◌≤◌, ◌^◌, ◌↔◌, List, [], ◌∷◌, IsTrue, IfSome, IfNone, IfOk, IfErr, OnOk, All, count_by, length, reverse};
ghost use Rattle.goal_graph.specs.declared.action.OpId.{OpId};
ghost use Rattle.goal_graph.specs.declared.action.Timed.{Timed};
ghost use Rattle.goal_graph.specs.Schedule.{needs, needed};
ghost use Rattle.goal_graph.specs.Concerned.{waiting_on};
ghost use Rattle.goal_graph.specs.Fault.{IsOp, IsAccepted};
ghost use Rattle.goal_graph.specs.Action.{plain, same_op};
ghost use Rattle.goal_graph.specs.Interleaving.{IsCompleteInterleaving};
ghost use Rattle.sim_params.specs.Costs.{is_eager};
ghost use Rattle.sim_params.specs.Budget.{budget};
ghost use Rattle.sim_params.specs.Times.{mate};
ghost use Rattle.sim_params.specs.Run.{IsNext, IsRun, IsFinished, IsCompleteRun};
ghost use Rattle.sim_params.specs.Laws.{IsWithin};
ghost use Rattle.sim_resources.specs.Numbering.{AreNumbered, AreStationed};
ghost use Rattle.sim_resources.specs.declared.pair.Pair.{Pair};
ghost use Rattle.sim_state.specs.Engine.{IsEngineFault, start_known, end_known};
ghost use Rattle.sim_state.specs.Represents.{entry_known};
ghost use Rattle.sim_state.specs.Tasks.{task_of, work_of};
ghost use Rattle.sim_state.specs.Free.{AreFreeByNumber};

use crate::entry::{OpState, first_entries, read};
use crate::fault::EngineFault;
use crate::history::{History, Kept};
use crate::record::Record;
use crate::task::Task;
use crate::work::Work;
use goal_graph::{Need, OpId, Sched, Timed};
use goal_limits::MAX_BUDGET;
use sim_match::Matcher;
use sim_params::{Costs, budget};
use sim_resources::{Resources, StationNumbers};
use std::alloc::Global;
use std::marker::Model;

mod enabled;
mod give;
mod perform;

/// A schedule during its run. Its value in contracts is the plans of the schedule, the costs, and the actions so far,
/// the newest first. Its type says whether the actions are kept.
pub struct RunState<'a, C: Costs, H: History = Kept> {
    sched: &'a Sched,
    costs: C,
    // the actions so far
    history: H,
    // what is known of each operation, in the order of all
    entries: Vec<OpState>,
    // the matcher
    matcher: Matcher<'a>,
    // when cpus and NICs are free
    resources: Resources<'a>,
}

// It is dropped by a call, and not field by field, so that callers that drop one are shorter to prove.
impl<C: Costs + Drop, H: History> Drop for RunState<'_, C, H> {
    fn drop(self) {
        let RunState {
            sched: _,
            costs: _costs,
            history: _history,
            entries: _entries,
            matcher: _matcher,
            resources: _resources,
        } = self;
    }
}

impl<'a, C: Costs, H: History> Model for RunState<'a, C, H> {
    ghost use Rattle.sim_state.specs.Engine.{RunSoFar};
    ghost use Rattle.sim_state.specs.Represents.{Represents};

    ghost Value = { RunSoFar C };

    ghost view = { λ e. record { plans = e.sched.now; costs = e.costs; history = H.actions e.history } };

    ghost invariant = { λ e. Represents e.sched.now (C.model e.costs) (H.actions e.history) e.entries.items e.matcher e.resources (H.has_room e.history) };
}

impl<'a, C: Costs + Drop, H: History> RunState<'a, C, H> {
    /// Creates the state of a schedule before its first action. It allocates all memory of the run; no later call
    /// allocates any.
    ///
    /// # Errors
    ///
    /// `Budget` with the time budget in nanoseconds, if it is over 2^63-1, even if memory is short too. Otherwise
    /// `NoMemory`, if memory runs out.
    pub fn new(alloc: Global, sched: &'a Sched, costs: C) -> Result<RunState<'a, C, H>, EngineFault>
        ensures plans { IfOk result (λ e. e.plans ≡ sched.now) }
        ensures costs { IfOk result (λ e. e.costs ≡ costs) }
        ensures empty { IfOk result (λ e. e.history ≡ []) }
        ensures fits { OnOk result (budget sched.now (C.model costs) < 2 ^ 63) }
        ensures fault { IfErr result (IsEngineFault (budget sched.now (C.model costs))) }
    {
        let sum = budget(sched, &costs);
        let most = u128::from(MAX_BUDGET);
        if sum > most {
            return Err(EngineFault::Budget { sum });
        }
        let _plans = sched.plans();
        let count = sched.count() as usize;
        let history = H::with_room(alloc, 3 * count)?;
        let entries = first_entries(alloc, sched, &costs)?;
        let matcher = Matcher::new(alloc, sched)?;
        let resources = Resources::new(alloc, sched)?;
        Ok(RunState {
            sched,
            costs,
            history,
            entries,
            matcher,
            resources,
        })
    }
}

impl<'a, C: Costs> RunState<'a, C> {
    /// Returns the actions so far, the oldest first.
    pub fn trace(&self) -> &[Timed]
        ensures { result.now ≡ reverse self.now.history }
    {
        self.history.timed.as_slice()
    }
}

impl<'a, C: Costs, H: History> RunState<'a, C, H> {
    /// Returns what is known of an operation.
    pub fn record(&self, id: OpId) -> Record
        requires { IsOp self.now.plans id }
        ensures start { result.start ≡ start_known self.now.plans (C.model self.now.costs) self.now.history id }
        ensures end { result.end ≡ end_known self.now.plans (C.model self.now.costs) self.now.history id }
        ensures partner { result.partner ≡ mate self.now.plans (C.model self.now.costs) self.now.history id }
    {
        let entry = self.entry(id);
        Record {
            start: entry.times.start.get(),
            end: entry.times.end.get(),
            partner: self.partner(id),
        }
    }

    /// Returns the operation with which another is paired, once it is.
    pub fn partner(&self, id: OpId) -> Option<OpId>
        requires { IsOp self.now.plans id }
        ensures { result ≡ mate self.now.plans (C.model self.now.costs) self.now.history id }
    {
        self.entry(id).link.partner()
    }

    /// Returns when each cpu and each side of a NIC is free, in nanoseconds, by the numbers that `stations` gives.
    pub fn free_times(&self) -> &[u64]
        ensures { (numbers : List ℕ) (pairs : List Pair) → AreStationed self.now.plans numbers pairs → AreFreeByNumber self.now.plans (C.model self.now.costs) self.now.history numbers pairs result.now }
    {
        self.resources.free_times()
    }

    /// Returns the numbers of the operations' stations and of their resources.
    pub fn stations(&self) -> &StationNumbers
        ensures { AreNumbered self.now.plans result.now }
    {
        self.resources.stations()
    }

    /// Returns the operations that need the operation `id`, in the order of the rank's dependencies. If none does, the
    /// schedule is not read.
    pub fn waiting_on(&self, id: OpId) -> &'a [Need]
        requires { IsOp self.now.plans id }
        ensures waiting_on { result.now ≡ waiting_on self.now.plans id }
        ensures exist { All (λ need. IsOp self.now.plans (needed id need)) result.now }
    {
        if !self.work(id).is_needed {
            return &[];
        }
        self.sched.waiting_on(id)
    }

    /// Returns the schedule.
    pub fn sched(&self) -> &'a Sched
        ensures { result.now ≡ self.now.plans }
    {
        self.sched
    }

    /// Returns the costs of its messages.
    pub fn costs(&self) -> &C
        ensures { result.now ≡ self.now.costs }
    {
        &self.costs
    }

    /// What holds of every state: its schedule is accepted, its time budget is at most 2^63-1, the actions so far are a
    /// run, and no time of it is later than the budget.
    pub fn known(&self)
        ensures accepted { IsAccepted self.now.plans }
        ensures fits { budget self.now.plans (C.model self.now.costs) < 2 ^ 63 }
        ensures run { IsRun self.now.plans (C.model self.now.costs) self.now.history }
        ensures times { IsWithin self.now.plans (C.model self.now.costs) self.now.history (budget self.now.plans (C.model self.now.costs)) }
    {
        let _sched = &self.sched;
    }

    // What is known of an operation.
    fn entry(&self, id: OpId) -> &OpState
        requires { IsOp self.now.plans id }
        ensures { result.now ≡ entry_known self.now.plans (C.model self.now.costs) self.now.history id }
    {
        read(self.sched, &self.entries, id)
    }

    // The task of an operation.
    fn task(&self, id: OpId) -> Task
        requires { IsOp self.now.plans id }
        ensures { result ≡ task_of self.now.plans (C.model self.now.costs) id }
    {
        self.work(id).task
    }

    // What an operation does.
    fn work(&self, id: OpId) -> Work
        requires { IsOp self.now.plans id }
        ensures { result ≡ work_of self.now.plans (C.model self.now.costs) id }
    {
        self.entry(id).work
    }
}
