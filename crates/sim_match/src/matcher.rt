//! The matcher: it pairs sends with receives as receives are posted and messages arrive.
ghost use Rattle.std.specs.Prelude.{◌≡◌, ◌≤◌, ◌<◌, ◌+◌, ◌↔◌, [], false, true, IfOk, IsNone};
ghost use Rattle.goal_graph.specs.declared.action.Class.TheVariants.{Post, Arrive};
ghost use Rattle.goal_graph.specs.Action.{happened};
ghost use Rattle.goal_graph.specs.Schedule.{IsSend, IsReceive};
ghost use Rattle.goal_graph.specs.Matching.{pairs, partner};
ghost use Rattle.sim_match.specs.PostsAndArrivals.{with_post, with_arrival, send_for, receive_for, NoSendFits, NoReceiveFits};

use crate::table::Table;
use goal_graph::{OpId, Sched};
use goal_limits::NoMemory;
use sim_order::Steps;
use std::alloc::Global;
use std::marker::{Brand, Model};
use std::sync::ledger::{Blank, Ledger};

/// Pairs sends with receives, as receives are posted and messages arrive. Contracts see the plans of the schedule, and
/// the posts and arrivals so far, newest first.
///
/// A receive fits a send if the send goes to its rank, and its source and tag are the send's rank and tag, or any. An
/// arriving message is paired with the first posted receive that fits and is unpaired. A posted receive is paired with
/// the first arrived message that it fits and that is unpaired.
#[derive(Drop)]
pub struct Matcher<'a> {
    sched: &'a Sched,
    table: Table,
}

impl<'a> Model for Matcher<'a> {
    ghost use Rattle.sim_match.specs.PostsAndArrivals.{PostsAndArrivals};

    ghost Value = { PostsAndArrivals };

    ghost use Rattle.sim_match.specs.Matcher.{actions_of};
    ghost use Rattle.sim_match.specs.Tables.{events_of, IsTable};

    ghost view = { λ m. record { plans = m.sched.now; actions = actions_of m.sched.now (events_of m.table) } };

    ghost invariant = { λ m. IsTable m.sched.now m.table };
}

impl<'a> Matcher<'a> {
    /// Creates a matcher before all posts and arrivals. It allocates all its memory here, with room for each send and
    /// each receive once. `Err` means out of memory.
    pub fn new(alloc: Global, sched: &'a Sched) -> Result<Matcher<'a>, NoMemory>
        ensures { IfOk result (λ m. m ≡ record { plans = sched.now; actions = [] }) }
    {
        let table = Table::new(alloc, sched)?;
        Ok(Matcher { sched, table })
    }

    /// Posts a receive, which was not posted before. Returns the send that it takes, or `None` exactly if every arrived
    /// send that it fits is paired.
    pub fn post(&mut self, recv: OpId) -> Option<OpId>
        requires receive { IsReceive self.old.plans recv }
        requires fresh { happened Post recv self.old.actions ≡ false }
        ensures actions { self.new ≡ with_post self.old recv }
        ensures taken { result ≡ send_for self.old.plans self.old.actions recv }
        ensures partner { result ≡ partner (pairs self.new.plans self.new.actions) recv }
        ensures none { IsNone result ↔ NoSendFits self.old.plans self.old.actions recv }
    {
        self.post_once::<Brand>(recv, Blank::new(1))
    }

    /// Lets an eager message, or the request to send (RTS) of a rendezvous message, arrive. It must not have arrived
    /// before. Returns the receive that takes it, or `None` exactly if every posted receive that fits it is paired.
    pub fn arrive(&mut self, send: OpId) -> Option<OpId>
        requires send { IsSend self.old.plans send }
        requires fresh { happened Arrive send self.old.actions ≡ false }
        ensures actions { self.new ≡ with_arrival self.old send }
        ensures taken { result ≡ receive_for self.old.plans self.old.actions send }
        ensures partner { result ≡ partner (pairs self.new.plans self.new.actions) send }
        ensures none { IsNone result ↔ NoReceiveFits self.old.plans self.old.actions send }
    {
        self.arrive_once::<Brand>(send, Blank::new(1))
    }

    /// Does the same as `post`, and counts its probes of posts and arrivals. It counts two: one for the send that it
    /// takes, and one for the probe that will pass the receive. The probes that skip other sends were counted when
    /// these arrived, and a skipped send is never probed again.
    pub fn post_counted<L: Ledger>(&mut self, recv: OpId, steps: &mut Steps<L>) -> Option<OpId>
        requires receive { IsReceive self.old.plans recv }
        requires fresh { happened Post recv self.old.actions ≡ false }
        ensures actions { self.new ≡ with_post self.old recv }
        ensures taken { result ≡ send_for self.old.plans self.old.actions recv }
        ensures partner { result ≡ partner (pairs self.new.plans self.new.actions) recv }
        ensures none { IsNone result ↔ NoSendFits self.old.plans self.old.actions recv }
        ensures counted { steps.new ≡ steps.old + 2 }
    {
        self.table.post(self.sched, recv, steps)
    }

    /// Does the same as `arrive`, and counts its probes of posts and arrivals. It counts at most two for each of the
    /// send's lists, of which there are at most four: one for the receive at the head of the list, and one for the
    /// probe that will pass the send.
    pub fn arrive_counted<L: Ledger>(&mut self, send: OpId, steps: &mut Steps<L>) -> Option<OpId>
        requires send { IsSend self.old.plans send }
        requires fresh { happened Arrive send self.old.actions ≡ false }
        ensures actions { self.new ≡ with_arrival self.old send }
        ensures taken { result ≡ receive_for self.old.plans self.old.actions send }
        ensures partner { result ≡ partner (pairs self.new.plans self.new.actions) send }
        ensures none { IsNone result ↔ NoReceiveFits self.old.plans self.old.actions send }
        ensures counted { steps.new ≤ steps.old + 8 }
    {
        self.table.arrive(self.sched, send, steps)
    }

    // Posts a receive, with its own counter of probes.
    fn post_once<L: Ledger>(&mut self, recv: OpId, blank: Blank) -> Option<OpId>
        requires name { blank.name ≡ L.name }
        requires parts { blank.parts ≡ L.parts }
        requires some { 0 < blank.parts }
        requires receive { IsReceive self.old.plans recv }
        requires fresh { happened Post recv self.old.actions ≡ false }
        ensures actions { self.new ≡ with_post self.old recv }
        ensures taken { result ≡ send_for self.old.plans self.old.actions recv }
        ensures partner { result ≡ partner (pairs self.new.plans self.new.actions) recv }
        ensures none { IsNone result ↔ NoSendFits self.old.plans self.old.actions recv }
    {
        let mut steps = Steps::<L>::new(blank);
        self.post_counted(recv, &mut steps)
    }

    // Lets a message arrive, with its own counter of probes.
    fn arrive_once<L: Ledger>(&mut self, send: OpId, blank: Blank) -> Option<OpId>
        requires name { blank.name ≡ L.name }
        requires parts { blank.parts ≡ L.parts }
        requires some { 0 < blank.parts }
        requires send { IsSend self.old.plans send }
        requires fresh { happened Arrive send self.old.actions ≡ false }
        ensures actions { self.new ≡ with_arrival self.old send }
        ensures taken { result ≡ receive_for self.old.plans self.old.actions send }
        ensures partner { result ≡ partner (pairs self.new.plans self.new.actions) send }
        ensures none { IsNone result ↔ NoReceiveFits self.old.plans self.old.actions send }
    {
        let mut steps = Steps::<L>::new(blank);
        self.arrive_counted(send, &mut steps)
    }
}
