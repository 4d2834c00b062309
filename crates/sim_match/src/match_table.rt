//! The table of a matcher: the posts and arrivals so far, by pattern.
ghost use Rattle.std.specs.Prelude.{ℕ, ◌≡◌, ◌<◌, ◌≤◌, ◌+◌, ◌∷◌, [], ◌++◌, false, length, Some, slice_get, slice_set, IfOk};
ghost use Rattle.std.specs.Option.{option_map, IfSome};
ghost use Rattle.goal_graph.specs.Schedule.{operations, IsSend, IsReceive};
ghost use Rattle.goal_graph.specs.Fault.{IsOp};
ghost use Rattle.goal_graph.specs.declared.action.Class.TheVariants.{Post, Arrive};
ghost use Rattle.goal_graph.specs.Action.{happened};
ghost use Rattle.sim_match.specs.PostsAndArrivals.{send_for, receive_for};
ghost use Rattle.sim_match.specs.Patterns.{lists_for};
ghost use Rattle.sim_match.specs.ListNumbers.{AreNumbered};
ghost use Rattle.sim_match.specs.MatchLists.{MatchList, is_marked, IsReady, IsFirst, skipped_to};
ghost use Rattle.sim_match.specs.Looks.{unseen};
ghost use Rattle.sim_match.specs.Matcher.{actions_of, side_by_side, stands_in, stood, ArePaired, IsJoined, IsKept};

use crate::capacities::{Side, capacities};
use crate::credit::Credit;
use crate::list_numbers::ListNumbers;
use crate::match_list::{MatchEntry, earlier, mark};
use crate::match_lists::MatchLists;
use goal_graph::{OpId, Sched};
use goal_limits::NoMemory;
use sim_order::{Past, Steps};
use std::alloc::Global;
use std::sync::ledger::Ledger;

/// The lists of each pattern of the schedule: the receives of the pattern, and the sends that they fit and that met no
/// receive when they arrived. A probe is already counted for each entry that no probe has passed.
#[derive(Drop)]
pub struct MatchTable {
    /// The numbers of each operation's lists.
    pub numbers: ListNumbers,
    /// The receives of each list.
    pub receives: MatchLists,
    /// The sends for each list that met no receive when they arrived.
    pub sends: MatchLists,
    /// Whether each operation is paired.
    pub marks: Vec<bool>,
    /// The operations of the posts and arrivals so far, for proofs only.
    pub events: Past<OpId>,
    /// The number of posts and arrivals so far.
    pub count: u32,
    /// The number of sends that joined lists.
    pub standing: u32,
    /// The probes that are counted and not yet made.
    pub credit: Credit,
}

// Marks an operation and the one that it met. Returns the latter.
fn pair(sched: &Sched, marks: &mut [bool], id: OpId, met: Option<MatchEntry>) -> Option<OpId>
    requires op { IsOp sched.now id }
    requires other { IfSome met (λ e. IsOp sched.now e.op) }
    requires long { length (operations sched.now) ≤ length marks.old }
    ensures answer { result ≡ option_map (λ e. e.op) met }
    ensures paired { ArePaired (operations sched.now) id met marks.old marks.new }
    ensures long { length marks.new ≡ length marks.old }
{
    match met {
        Some(other) => {
            mark(sched, marks, id);
            mark(sched, marks, other.op);
            Some(other.op)
        }
        None => None,
    }
}

// Returns the first waiting entry of a list of sends. If no send has joined any list, the list is not probed.
#[inline(always)]
fn first_standing(
    sends: &mut MatchLists,
    standing: u32,
    list: usize,
    sched: &Sched,
    marks: &[bool],
    credit: &mut Credit,
) -> Option<MatchEntry>
    requires within { list < length sends.old }
    requires ready { (w : MatchList) → slice_get sends.old list ≡ Some w → IsReady sched.now marks.now w }
    requires counted { (w : MatchList) → slice_get sends.old list ≡ Some w → length w.entries ≤ w.head + credit.old }
    requires none { (w : MatchList) → slice_get sends.old list ≡ Some w → standing ≡ 0 → w.entries ≡ [] }
    ensures first { (w : MatchList) → slice_get sends.old list ≡ Some w
        → (n : ℕ) × (sends.new ≡ slice_set sends.old list (skipped_to w n))
        × IsFirst (is_marked (operations sched.now) marks.now) w (skipped_to w n) result
        × (credit.old + w.head ≤ credit.new + n + 1) }
    ensures less { credit.new ≤ credit.old }
{
    if standing == 0 {
        return None;
    }
    sends.first(list, sched, marks, credit)
}

impl MatchTable {
    /// Creates a table without posts and arrivals, with room for each send and each receive once. `Err` means out of
    /// memory.
    pub fn new(alloc: Global, sched: &Sched, numbers: ListNumbers) -> Result<MatchTable, NoMemory>
        requires { AreNumbered sched.now numbers }
        ensures kept { IfOk result (λ table. IsKept sched.now table) }
        ensures events { IfOk result (λ table. table.events.items ≡ []) }
    {
        sched.known();
        let count = sched.count() as usize;
        let capacities = capacities(alloc, sched, &numbers)?;
        let receives = MatchLists::new(alloc, &capacities, Side::Receives)?;
        let sends = MatchLists::new(alloc, &capacities, Side::Sends)?;
        let marks = vec![in alloc; false; count]?;
        Ok(MatchTable {
            numbers,
            receives,
            sends,
            marks,
            events: Past::new(),
            count: 0,
            standing: 0,
            credit: Credit::none(),
        })
    }

    /// Posts a receive. Returns the send that it takes, if any. Two probes are counted: one of the send that it finds,
    /// and one that will pass the receive.
    pub fn post<L: Ledger>(
        &mut self,
        sched: &Sched,
        recv: OpId,
        steps: &mut Steps<L>,
    ) -> Option<OpId>
        requires kept { IsKept sched.now self.old }
        requires receive { IsReceive sched.now recv }
        requires fresh { happened Post recv (actions_of sched.now self.old.events.items) ≡ false }
        ensures kept { IsKept sched.now self.new }
        ensures events { self.new.events.items ≡ self.old.events.items ++ recv ∷ [] }
        ensures taken { result ≡ send_for sched.now (actions_of sched.now self.old.events.items) recv }
        ensures counted { steps.new ≡ steps.old + 2 }
    {
        let entry = MatchEntry {
            op: recv,
            at: self.count,
        };
        let list = self.numbers.list_of_receive(sched, recv);
        self.credit.count(steps);
        self.credit.count(steps);
        self.receives.push(list, entry);
        let met = first_standing(
            &mut self.sends,
            self.standing,
            list,
            sched,
            &self.marks,
            &mut self.credit,
        );
        self.events.push(&recv);
        self.count += 1;
        pair(sched, &mut self.marks, recv, met)
    }

    // Returns the receive that a send meets: the first posted of those in its lists that wait. If there is none, the
    // send joins the lists. At most two probes are counted for each list.
    fn join<L: Ledger>(
        &mut self,
        sched: &Sched,
        send: OpId,
        steps: &mut Steps<L>,
    ) -> Option<MatchEntry>
        requires kept { IsKept sched.now self.old }
        requires send { IsSend sched.now send }
        requires fresh { happened Arrive send (actions_of sched.now self.old.events.items) ≡ false }
        ensures joined { (kept : IsKept sched.now self.old) → IsJoined sched.now kept.numbered.keys (actions_of sched.now self.old.events.items) send (stands_in result (lists_for sched.now kept.numbered.keys send)) (lists_for sched.now kept.numbered.keys send) (side_by_side self.new.receives self.new.sends) result }
        ensures numbers { self.new.numbers ≡ self.old.numbers }
        ensures as_many { length self.new.receives ≡ length self.new.sends }
        ensures marks { self.new.marks ≡ self.old.marks }
        ensures events { self.new.events ≡ self.old.events }
        ensures count { self.new.count ≡ self.old.count }
        ensures standing { self.new.standing ≡ self.old.standing + stood result }
        ensures covered { unseen self.new.receives + unseen self.new.sends ≤ self.new.credit }
        ensures bounded { self.new.credit ≤ self.old.credit + 8 }
        ensures counted { steps.new ≤ steps.old + 8 }
    {
        let numbers = self.numbers.lists_of_send(sched, send);
        let mut met = None;
        'seek: for number in numbers {
            match number {
                Some(list) => {
                    self.credit.count(steps);
                    let first = self
                        .receives
                        .first(list, sched, &self.marks, &mut self.credit);
                    met = earlier(met, first);
                }
                None => {}
            }
        }
        if met.is_some() {
            return met;
        }
        self.standing += 1;
        let entry = MatchEntry {
            op: send,
            at: self.count,
        };
        'stand: for number in numbers {
            match number {
                Some(list) => {
                    self.credit.count(steps);
                    self.sends.push(list, entry);
                }
                None => {}
            }
        }
        None
    }

    /// Lets a send arrive. Returns the receive that takes it. At most two probes are counted for each of its lists, of
    /// which there are at most four.
    pub fn arrive<L: Ledger>(
        &mut self,
        sched: &Sched,
        send: OpId,
        steps: &mut Steps<L>,
    ) -> Option<OpId>
        requires kept { IsKept sched.now self.old }
        requires send { IsSend sched.now send }
        requires fresh { happened Arrive send (actions_of sched.now self.old.events.items) ≡ false }
        ensures kept { IsKept sched.now self.new }
        ensures events { self.new.events.items ≡ self.old.events.items ++ send ∷ [] }
        ensures taken { result ≡ receive_for sched.now (actions_of sched.now self.old.events.items) send }
        ensures counted { steps.new ≤ steps.old + 8 }
    {
        let met = self.join(sched, send, steps);
        self.events.push(&send);
        self.count += 1;
        pair(sched, &mut self.marks, send, met)
    }
}
