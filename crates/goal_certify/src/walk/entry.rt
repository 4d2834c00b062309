//! What a walker keeps of each operation, in a table in the order of all operations.
ghost use Rattle.std.specs.Prelude.{◌≡◌, length, map, IfSome};
ghost use Rattle.goal_graph.specs.declared.action.OpId.{OpId};
ghost use Rattle.goal_graph.specs.Schedule.{operations};
ghost use Rattle.goal_graph.specs.Fault.{IsOp};
ghost use Rattle.goal_certify.specs.declared.walk.entry.OpProgress.{OpProgress};
ghost use Rattle.goal_certify.specs.WalkSoFar.{is_done, with_class, with_entry, with_pairing, with_partner};

use goal_graph::{Class, OpId, Sched, entry_of_mut};

/// Which actions of an operation have happened, and its partner.
#[derive(Clone, Copy)]
pub struct OpProgress {
    /// Whether the send has arrived.
    pub arrived: bool,
    /// Whether the receive has taken its message.
    pub served: bool,
    /// Whether the send has transferred its data.
    pub sent: bool,
    /// Whether the receive has been posted.
    pub posted: bool,
    /// Whether the calc or the send has begun.
    pub begun: bool,
    /// The operation with which it is paired, once it is.
    pub paired: Option<OpId>,
}

/// The entry of an operation that has done nothing.
pub const BLANK: OpProgress = OpProgress {
    arrived: false,
    served: false,
    sent: false,
    posted: false,
    begun: false,
    paired: None,
};

/// Returns whether the action of this class has happened.
pub fn is_done(entry: OpProgress, class: Class) -> bool
    ensures { result ≡ is_done entry class }
{
    match class {
        Class::Arrive => entry.arrived,
        Class::Serve => entry.served,
        Class::Data => entry.sent,
        Class::Post => entry.posted,
        Class::Begin => entry.begun,
    }
}

/// Returns the entry after the action of this class.
pub fn with_class(entry: OpProgress, class: Class) -> OpProgress
    ensures { result ≡ with_class class entry }
{
    let mut entry = entry;
    match class {
        Class::Arrive => entry.arrived = true,
        Class::Serve => entry.served = true,
        Class::Data => entry.sent = true,
        Class::Post => entry.posted = true,
        Class::Begin => entry.begun = true,
    }
    entry
}

// Writes that two operations are paired.
fn pair(sched: &Sched, entries: &mut [OpProgress], id: OpId, with: OpId)
    requires exists { IsOp sched.now id }
    requires other { IsOp sched.now with }
    requires each { length entries.old ≡ length (operations sched.now) }
    ensures { (f : OpId → OpProgress) → entries.old ≡ map f (operations sched.now) → entries.new ≡ map (with_pairing with id (with_pairing id with f)) (operations sched.now) }
{
    entry_of_mut(entries, sched, id).paired = Some(with);
    entry_of_mut(entries, sched, with).paired = Some(id);
}

/// Sets the entry of an operation. If a partner is given, also sets each of the two as paired with the other.
pub fn write_met(
    sched: &Sched,
    entries: &mut [OpProgress],
    id: OpId,
    entry: OpProgress,
    partner: Option<OpId>,
)
    requires exists { IsOp sched.now id }
    requires other { IfSome partner (IsOp sched.now) }
    requires each { length entries.old ≡ length (operations sched.now) }
    ensures { (f : OpId → OpProgress) → entries.old ≡ map f (operations sched.now) → entries.new ≡ map (with_partner id partner (with_entry id entry f)) (operations sched.now) }
{
    *entry_of_mut(entries, sched, id) = entry;
    let Some(with) = partner else {
        return;
    };
    pair(sched, entries, id, with);
}
