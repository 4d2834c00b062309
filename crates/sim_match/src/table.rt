//! The posts and arrivals of a matcher: in queues if each pattern names a source and a tag, and otherwise in match
//! lists.
ghost use Rattle.std.specs.Prelude.{◌≡◌, ◌≤◌, ◌+◌, ◌∷◌, [], ◌++◌, false, IfOk};
ghost use Rattle.goal_graph.specs.Schedule.{IsSend, IsReceive};
ghost use Rattle.goal_graph.specs.declared.action.Class.TheVariants.{Post, Arrive};
ghost use Rattle.goal_graph.specs.Action.{happened};
ghost use Rattle.sim_match.specs.PostsAndArrivals.{send_for, receive_for};
ghost use Rattle.sim_match.specs.Matcher.{actions_of};
ghost use Rattle.sim_match.specs.Tables.{events_of, IsTable};

use crate::list_numbers::ListNumbers;
use crate::match_table::MatchTable;
use crate::queues::Queues;
use goal_graph::{OpId, Sched};
use goal_limits::NoMemory;
use sim_order::Steps;
use std::alloc::Global;
use std::sync::ledger::Ledger;

/// The table of a matcher.
#[derive(Drop)]
pub enum Table {
    /// Queues: each send has at most one list.
    Queued(Queues),
    /// Match lists: a send may have four.
    Listed(MatchTable),
}

impl Table {
    /// Creates a table without posts and arrivals, with room for each send and each receive once. `Err` means out of
    /// memory.
    pub fn new(alloc: Global, sched: &Sched) -> Result<Table, NoMemory>
        ensures kept { IfOk result (λ table. IsTable sched.now table) }
        ensures events { IfOk result (λ table. events_of table ≡ []) }
    {
        let numbers = ListNumbers::of(alloc, sched)?;
        if numbers.others.is_none() {
            Ok(Table::Queued(Queues::new(alloc, sched, numbers)?))
        } else {
            Ok(Table::Listed(MatchTable::new(alloc, sched, numbers)?))
        }
    }

    /// Posts a receive. Returns the send that it takes. Two probes are counted.
    pub fn post<L: Ledger>(
        &mut self,
        sched: &Sched,
        recv: OpId,
        steps: &mut Steps<L>,
    ) -> Option<OpId>
        requires kept { IsTable sched.now self.old }
        requires receive { IsReceive sched.now recv }
        requires fresh { happened Post recv (actions_of sched.now (events_of self.old)) ≡ false }
        ensures kept { IsTable sched.now self.new }
        ensures events { events_of self.new ≡ events_of self.old ++ recv ∷ [] }
        ensures taken { result ≡ send_for sched.now (actions_of sched.now (events_of self.old)) recv }
        ensures counted { steps.new ≡ steps.old + 2 }
    {
        match self {
            Table::Queued(queues) => queues.post(sched, recv, steps),
            Table::Listed(lists) => lists.post(sched, recv, steps),
        }
    }

    /// Lets a send arrive. Returns the receive that takes it. At most two probes are counted for each of its lists, of
    /// which there are at most four.
    pub fn arrive<L: Ledger>(
        &mut self,
        sched: &Sched,
        send: OpId,
        steps: &mut Steps<L>,
    ) -> Option<OpId>
        requires kept { IsTable sched.now self.old }
        requires send { IsSend sched.now send }
        requires fresh { happened Arrive send (actions_of sched.now (events_of self.old)) ≡ false }
        ensures kept { IsTable sched.now self.new }
        ensures events { events_of self.new ≡ events_of self.old ++ send ∷ [] }
        ensures taken { result ≡ receive_for sched.now (actions_of sched.now (events_of self.old)) send }
        ensures counted { steps.new ≤ steps.old + 8 }
    {
        match self {
            Table::Queued(queues) => queues.arrive(sched, send, steps),
            Table::Listed(lists) => lists.arrive(sched, send, steps),
        }
    }
}
