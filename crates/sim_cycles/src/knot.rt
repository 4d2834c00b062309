//! A knot of stuck operations.
ghost use Rattle.std.specs.Prelude.{◌≡◌};

use goal_graph::OpId;
use std::marker::Model;

/// A list of operations. Contracts see it as the list of them.
#[derive(Debug, Drop)]
pub struct OpList {
    items: Vec<OpId>,
}

impl Model for OpList {
    ghost use Rattle.std.specs.Prelude.{List};
    ghost use Rattle.goal_graph.specs.declared.action.OpId.{OpId};

    ghost Value = { List OpId };

    ghost view = { λ l. l.items.items };
}

impl From<Vec<OpId>> for OpList {
    ghost from_gives = { λ ids list. list ≡ ids.items };

    fn from(items: Vec<OpId>) -> OpList {
        OpList { items }
    }
}

impl OpList {
    /// Returns the operations.
    pub fn as_slice(&self) -> &[OpId]
        ensures { result.now ≡ self.now }
    {
        &self.items
    }
}

/// Where following the reasons of some stuck operations ends: at an operation that is alone, or in a cycle.
#[derive(Debug, Drop)]
pub struct Knot {
    /// Whether the knot is one operation that is alone. Otherwise its members wait for one another in a cycle.
    pub lone: bool,
    /// The members, from the least by rank and number on, each before the one that its reason names.
    pub members: OpList,
    /// The number of stuck operations that lead here, the members included.
    pub behind: u32,
}
