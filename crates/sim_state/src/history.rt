//! The actions so far, and which of them are kept.
ghost use Rattle.std.specs.Prelude.{◌≡◌, ◌+◌, ◌<◌, ℕ, List, [], ◌∷◌, IfOk, length};
ghost use Rattle.goal_graph.specs.declared.action.Timed.{Timed};

use goal_graph::Timed;
use std::alloc::{AllocError, Global};

/// The actions so far, as a state keeps them. Contracts see them all, whether they are kept or not.
pub trait History: Drop {
    /// The actions, the newest first.
    ghost actions: { Self → List Timed };

    /// Whether it has room for `count` actions in all.
    ghost has_room: { Self → ℕ → Type 0 };

    /// Returns an empty history with room for `count` actions. `Err` means out of memory.
    fn with_room(alloc: Global, count: usize) -> Result<Self, AllocError>
        ensures empty { IfOk result (λ h. actions h ≡ []) }
        ensures roomy { IfOk result (λ h. has_room h count) };

    /// Adds the next action.
    fn push(&mut self, action: Timed)
        requires room { (count : ℕ) × has_room self.old count × (length (actions self.old) < count) }
        ensures pushed { actions self.new ≡ action ∷ actions self.old }
        ensures roomy { (count : ℕ) → has_room self.old count → has_room self.new count };
}

/// Keeps each action.
#[derive(Drop)]
pub struct Kept {
    // the oldest first
    pub(crate) timed: Vec<Timed>,
}

impl History for Kept {
    ghost use Rattle.std.specs.Prelude.{◌≤◌, reverse, vec_capacity};

    ghost actions = { λ h. reverse h.timed.items };

    ghost has_room = { λ h count. count ≤ vec_capacity h.timed };

    fn with_room(alloc: Global, count: usize) -> Result<Kept, AllocError> {
        let timed = Vec::with_capacity(alloc, count)?;
        Ok(Kept { timed })
    }

    fn push(&mut self, action: Timed) {
        self.timed.push_reserved(action);
    }
}
