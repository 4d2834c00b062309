//! How many needs of an operation have been found to be met, and a table of this for all operations.
ghost use Rattle.std.specs.Prelude.{◌≡◌, Bool, List, IfOk};
ghost use Rattle.goal_graph.specs.declared.action.OpId.{OpId};
ghost use Rattle.goal_graph.specs.Action.{Act};
ghost use Rattle.goal_certify.specs.Cursors.{AreCursors};

use goal_graph::Sched;
use std::alloc::{AllocError, Global};

/// A place among the needs of an operation: all needs before the index `at` are met. It is small, because a run mostly
/// waits for its tables to come from memory.
#[derive(Clone, Copy, Debug, PartialEq, Eq)]
pub struct Cursor {
    /// The number of needs that have been found to be met.
    pub at: u32,
}

impl Cursor {
    /// No need has been tested.
    pub const START: Cursor = Cursor { at: 0 };
}

/// Returns the cursors of all operations, each before the first need. `Err` means out of memory.
pub fn at_first(alloc: Global, sched: &Sched) -> Result<Vec<Cursor>, AllocError>
    ensures { IfOk result (λ cursors. (eager : OpId → Bool) → (h : List Act) → AreCursors sched.now eager h cursors.items) }
{
    let cursors = vec![in alloc; Cursor::START; sched.count() as usize]?;
    Ok(cursors)
}
