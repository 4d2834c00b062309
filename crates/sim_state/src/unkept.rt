//! A history that only contracts see.
ghost use Rattle.std.specs.Prelude.{◌≡◌, List, [], ◌∷◌};
ghost use base.Fml.{ftrue};
ghost use Rattle.goal_graph.specs.declared.action.Timed.{Timed};
ghost use Rattle.sim_state.specs.Unkept.{actions_code};

use crate::history::History;
use goal_graph::Timed;
use std::alloc::{AllocError, Global};
use std::marker::Model;

/// No action is kept. It has no bytes, and its calls do nothing.
#[derive(Drop)]
pub struct Unkept {
    ghost past: { List Timed } by { actions_code },
}

impl Model for Unkept {
    ghost also_owns = { λ _. ftrue };
}

impl Unkept {
    // The history before the first action.
    #[inline(always)]
    fn empty() -> Unkept
        ensures { result.past ≡ [] }
    {
        Unkept {}
    }

    // The history after this action.
    #[inline(always)]
    fn after(&self, _action: &Timed) -> Unkept
        ensures { result.past ≡ _action.now ∷ self.now.past }
    {
        Unkept {}
    }
}

impl History for Unkept {
    ghost use Rattle.std.specs.Prelude.{⊤};

    ghost actions = { λ h. h.past };

    ghost has_room = { λ _ _. ⊤ };

    fn with_room(_alloc: Global, _count: usize) -> Result<Unkept, AllocError> {
        Ok(Unkept::empty())
    }

    #[inline(always)]
    fn push(&mut self, action: Timed) {
        *self = self.after(&action);
    }
}
