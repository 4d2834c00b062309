//! Match lists: operations in the order of their posts or arrivals, of which the first that waits is taken.
ghost use Rattle.std.specs.Prelude.{ℕ, ◌≡◌, ◌≤◌, ◌<◌, ◌+◌, length};
ghost use Rattle.goal_graph.specs.Schedule.{operations};
ghost use Rattle.goal_graph.specs.Fault.{IsOp};
ghost use Rattle.sim_match.specs.MatchLists.{is_marked, earlier, IsMarked, IsReady, IsFirst};

use crate::credit::Credit;
use goal_graph::{OpId, Sched};

/// An operation that was posted or has arrived.
#[derive(Clone, Copy, Debug, PartialEq, Eq)]
pub struct MatchEntry {
    /// The operation.
    pub op: OpId,
    /// The number of posts and arrivals before it.
    pub at: u32,
}

/// Returns the earlier of two entries.
pub fn earlier(first: Option<MatchEntry>, other: Option<MatchEntry>) -> Option<MatchEntry>
    ensures { result ≡ earlier first other }
{
    match (first, other) {
        (Some(one), Some(two)) => {
            if two.at < one.at {
                Some(two)
            } else {
                Some(one)
            }
        }
        (Some(one), None) => Some(one),
        (None, other) => other,
    }
}

/// Returns whether an operation is marked. This is a probe, which was counted before.
pub fn is_marked(sched: &Sched, marks: &[bool], id: OpId, credit: &mut Credit) -> bool
    requires op { IsOp sched.now id }
    requires long { length (operations sched.now) ≤ length marks.now }
    requires counted { 0 < credit.old }
    ensures tells { result ≡ is_marked (operations sched.now) marks.now id }
    ensures looks { credit.new + 1 ≡ credit.old }
{
    credit.look();
    marks[sched.index(id) as usize]
}

/// Marks an operation.
pub fn mark(sched: &Sched, marks: &mut [bool], id: OpId)
    requires op { IsOp sched.now id }
    requires long { length (operations sched.now) ≤ length marks.old }
    ensures marked { IsMarked (operations sched.now) id marks.old marks.new }
    ensures long { length marks.new ≡ length marks.old }
{
    marks[sched.index(id) as usize] = true;
}

/// Returns the first entry of a list that waits, and the new head: the place of that entry, or the end. A marked entry
/// no longer waits; it stays in place, and is skipped once it is at the head. Each skipped entry costs a probe, and so
/// does the one that waits.
pub fn first_that_waits(
    entries: &[MatchEntry],
    head: usize,
    sched: &Sched,
    marks: &[bool],
    credit: &mut Credit,
) -> (usize, Option<MatchEntry>)
    requires ready { (room : ℕ) → IsReady sched.now marks.now (record { entries = entries.now; head = head; room = room }) }
    requires counted { length entries.now ≤ head + credit.old }
    ensures first { (room : ℕ) → IsFirst (is_marked (operations sched.now) marks.now)
        (record { entries = entries.now; head = head; room = room })
        (record { entries = entries.now; head = result.0; room = room }) result.1 }
    ensures looks { credit.old + head ≤ credit.new + result.0 + 1 }
    ensures less { credit.new ≤ credit.old }
{
    for at in head..entries.len() {
        let entry = entries[at];
        if !is_marked(sched, marks, entry.op, credit) {
            return (at, Some(entry));
        }
    }
    (entries.len(), None)
}
