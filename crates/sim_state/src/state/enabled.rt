//! What may happen next of one operation, and when.
ghost use Rattle.std.specs.Prelude.{◌≡◌, true, false, Some, None, is_some};
ghost use Rattle.goal_graph.specs.declared.action.Class.TheVariants.{Arrive, Serve, Data, Post, Begin};
ghost use Rattle.goal_graph.specs.Action.{plain};
ghost use Rattle.goal_graph.specs.Allowed.{has_started};
ghost use Rattle.goal_graph.specs.Fault.{IsOp};
ghost use Rattle.goal_graph.specs.Laws.{IsCalc};
ghost use Rattle.goal_graph.specs.Schedule.{IsSend, IsReceive};
ghost use Rattle.sim_params.specs.Costs.{is_eager};
ghost use Rattle.sim_params.specs.Times.{mate};
ghost use Rattle.sim_state.specs.Represents.{message_known};
ghost use Rattle.sim_state.specs.Tasks.{IsLast};
ghost use Rattle.sim_state.specs.Enabled.{ready_known, enabled_action, IsEnabledActionOf};

use super::RunState;
use crate::entry::OpState;
use crate::history::History;
use crate::task::Task;
use goal_graph::{Class, OpId, Timed};
use sim_eager::{begin_at, serve_at};
use sim_params::Costs;
use sim_rendezvous::{clear_to, data_at};

impl<'a, C: Costs, H: History> RunState<'a, C, H> {
    /// Returns the possible action of an operation, if it has one.
    pub fn choice(&self, id: OpId) -> Option<Timed>
        requires { IsOp self.now.plans id }
        ensures { IsEnabledActionOf self.now.plans (C.model self.now.costs) self.now.history id result }
    {
        match self.task(id) {
            Task::Calc => self.begin_of_calc(id),
            Task::Eager | Task::Rendezvous => self.choice_of_send(id),
            Task::Receive => self.choice_of_receive(id),
        }
    }

    // The possible action of a send, if it has one.
    fn choice_of_send(&self, send: OpId) -> Option<Timed>
        requires { IsSend self.now.plans send }
        ensures { IsEnabledActionOf self.now.plans (C.model self.now.costs) self.now.history send result }
    {
        self.known();
        if !self.has_started(send) {
            return self.begin_of_send(send);
        }
        if self.partner(send).is_none() {
            return self.arrival(send);
        }
        self.hand_over_of(send)
    }

    // The possible action of a receive, if it has one.
    fn choice_of_receive(&self, recv: OpId) -> Option<Timed>
        requires { IsReceive self.now.plans recv }
        ensures { IsEnabledActionOf self.now.plans (C.model self.now.costs) self.now.history recv result }
    {
        let post = self.post_of(recv);
        if post.is_some() {
            return post;
        }
        self.serve_of(recv)
    }

    // The Begin of a calc: once it is ready and its cpu is free.
    fn begin_of_calc(&self, calc: OpId) -> Option<Timed>
        requires { IsCalc self.now.plans calc }
        ensures { result ≡ enabled_action self.now.plans (C.model self.now.costs) self.now.history Begin calc }
    {
        if self.has_started(calc) {
            return None;
        }
        let ready = self.ready(calc)?;
        Some(Timed {
            time: ready.max(self.resources.cpu(calc)),
            class: Class::Begin,
            op: calc,
        })
    }

    // The Begin of a send that has not started: once it is ready, and its cpu and its NIC are free.
    fn begin_of_send(&self, send: OpId) -> Option<Timed>
        requires op { IsSend self.now.plans send }
        requires fresh { has_started self.now.plans send (plain self.now.history) ≡ false }
        ensures { result ≡ enabled_action self.now.plans (C.model self.now.costs) self.now.history Begin send }
    {
        let ready = self.ready(send)?;
        Some(Timed {
            time: begin_at(&self.resources, send, ready),
            class: Class::Begin,
            op: send,
        })
    }

    // The Arrive of a send that has started and is not paired, while it has not arrived.
    fn arrival(&self, send: OpId) -> Option<Timed>
        requires exists { IsOp self.now.plans send }
        requires started { has_started self.now.plans send (plain self.now.history) ≡ true }
        requires unpaired { mate self.now.plans (C.model self.now.costs) self.now.history send ≡ None }
        ensures { result ≡ enabled_action self.now.plans (C.model self.now.costs) self.now.history Arrive send }
    {
        self.known();
        let time = self.entry(send).times.awaited.get()?;
        Some(Timed {
            time,
            class: Class::Arrive,
            op: send,
        })
    }

    // The Data of a paired send, if it is a rendezvous send: once its clear to send is back, and its cpu and its NIC
    // are free.
    fn hand_over_of(&self, send: OpId) -> Option<Timed>
        requires op { IsSend self.now.plans send }
        requires paired { is_some (mate self.now.plans (C.model self.now.costs) self.now.history send) ≡ true }
        ensures { result ≡ enabled_action self.now.plans (C.model self.now.costs) self.now.history Data send }
    {
        self.known();
        let OpState { work, times, .. } = *self.entry(send);
        // an eager send has an end since it began, a rendezvous send once it has transferred its data
        if times.end.get().is_some() {
            return None;
        }
        let paired = times.awaited.get()?;
        let cleared = clear_to(self.sched, &self.costs, send, work.to, paired);
        Some(Timed {
            time: data_at(&self.resources, send, cleared),
            class: Class::Data,
            op: send,
        })
    }

    // The Post of a receive: once it is ready.
    fn post_of(&self, recv: OpId) -> Option<Timed>
        requires { IsReceive self.now.plans recv }
        ensures { result ≡ enabled_action self.now.plans (C.model self.now.costs) self.now.history Post recv }
    {
        if self.has_started(recv) {
            return None;
        }
        let time = self.ready(recv)?;
        Some(Timed {
            time,
            class: Class::Post,
            op: recv,
        })
    }

    // The Serve of a receive: once its message is available, and its cpu and its NIC are free.
    fn serve_of(&self, recv: OpId) -> Option<Timed>
        requires { IsReceive self.now.plans recv }
        ensures { result ≡ enabled_action self.now.plans (C.model self.now.costs) self.now.history Serve recv }
    {
        self.known();
        let entry = self.entry(recv);
        if entry.times.end.get().is_some() {
            return None;
        }
        let send = entry.link.partner()?;
        let paired = entry.times.awaited.get()?;
        let there = self.message_there(send, paired)?;
        Some(Timed {
            time: serve_at(&self.resources, recv, there),
            class: Class::Serve,
            op: recv,
        })
    }

    // When the message of a send is available to the receive that has been paired with it since a time, once it is.
    fn message_there(&self, send: OpId, paired: u64) -> Option<u64>
        requires { IsSend self.now.plans send }
        ensures { result ≡ message_known self.now.plans (C.model self.now.costs) self.now.history (record { with = send; at = paired }) }
    {
        self.known();
        let OpState { work, times, .. } = *self.entry(send);
        if work.task == Task::Eager {
            return Some(paired);
        }
        times.end.get()?;
        times.awaited.get()
    }

    /// Returns whether an action is known to be the last of its operation. `false` says nothing: the Data of a
    /// rendezvous send is its last action too.
    pub fn is_last(&self, action: Timed) -> bool
        requires { IsOp self.now.plans action.op }
        ensures { result ≡ true → IsLast self.now.plans (C.model self.now.costs) action }
    {
        match action.class {
            Class::Serve => true,
            Class::Begin => matches!(self.task(action.op), Task::Calc),
            Class::Arrive => matches!(self.task(action.op), Task::Eager),
            Class::Post | Class::Data => false,
        }
    }

    // Whether an operation has started.
    fn has_started(&self, id: OpId) -> bool
        requires { IsOp self.now.plans id }
        ensures { result ≡ has_started self.now.plans id (plain self.now.history) }
    {
        self.entry(id).times.start.get().is_some()
    }

    // When all that an operation needs has happened, once it has, while it has not started.
    #[inline(always)]
    fn ready(&self, id: OpId) -> Option<u64>
        requires exists { IsOp self.now.plans id }
        requires fresh { has_started self.now.plans id (plain self.now.history) ≡ false }
        ensures { result ≡ ready_known self.now.plans (C.model self.now.costs) self.now.history id }
    {
        let entry = self.entry(id);
        if entry.link.unmet() > 0 {
            return None;
        }
        entry.times.awaited.get()
    }
}
