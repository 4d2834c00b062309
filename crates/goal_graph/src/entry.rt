//! A table with an entry for each operation, in the order of all.
ghost use Rattle.std.specs.Prelude.{◌≡◌, length, map};
ghost use Rattle.std.specs.Borrow.{sem};
ghost use Rattle.goal_graph.specs.declared.action.OpId.{OpId};
ghost use Rattle.goal_graph.specs.Schedule.{operations};
ghost use Rattle.goal_graph.specs.Fault.{IsOp};
ghost use Rattle.goal_graph.specs.Entries.{IsEntryOf, LendsEntry};

use crate::action::OpId;
use crate::sched::Sched;

/// Returns the entry of an operation.
pub fn entry_of<'e, T>(entries: &'e [T], sched: &Sched, id: OpId) -> &'e T
    requires exists { IsOp sched.now id }
    requires each { length entries.now ≡ length (operations sched.now) }
    ensures place { IsEntryOf sched.now entries.now id result.now }
    ensures entry { (f : OpId → T) → entries.now ≡ map f (operations sched.now) → result.now ≡ f id }
{
    &entries[sched.index(id) as usize]
}

/// Borrows the entry of an operation, to be written.
pub fn entry_of_mut<'e, T>(entries: &'e mut [T], sched: &Sched, id: OpId) -> &'e mut T
    requires exists { IsOp sched.now id }
    requires each { length entries.old ≡ length (operations sched.now) }
    ensures* writes_back { sem 𝓛 (LendsEntry T.row sched.now entries.entry id result) }
    ensures place { IsEntryOf sched.now entries.old id result.now }
    ensures entry { (f : OpId → T) → entries.old ≡ map f (operations sched.now) → result.now ≡ f id }
{
    let place = sched.index(id) as usize;
    &mut entries[place]
}
