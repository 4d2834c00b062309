//! How many starts and ends an operation waits for, and its partner once it has one.
ghost use Rattle.std.specs.Prelude.{◌≡◌, ◌<◌, ◌-◌, Some, None};
ghost use Rattle.sim_state.specs.Links.{no_rank};

use goal_graph::OpId;
use std::marker::Model;

// The rank that no operation has.
const NO_RANK: u32 = u32::MAX;

/// How many starts and ends of others an operation waits for, and its partner, in eight bytes: an operation with a
/// partner waits for none. Contracts see both.
#[derive(Clone, Copy)]
pub struct Link {
    // the rank of the partner, or the rank that no operation has
    rank: u32,
    // the number of the partner, or how many starts and ends are not known
    op: u32,
}

impl Model for Link {
    ghost use Rattle.sim_state.specs.Links.{Linked, linked, rank_of, op_of, rank_of_linked, op_of_linked};

    ghost Value = { Linked };

    ghost view = { λ l. linked l.rank l.op };

    ghost inverse = { λ l. record { rank = rank_of l; op = op_of l } };

    ghost inverse_ok = { λ l h i. record { rank = rank_of_linked l.rank l.op i; op = op_of_linked l.rank l.op i } };
}

impl Link {
    /// The link of an operation without a partner that waits for `unmet` starts and ends.
    pub fn waiting(unmet: u32) -> Link
        ensures { result ≡ record { unmet = unmet; partner = None } }
    {
        Link {
            rank: NO_RANK,
            op: unmet,
        }
    }

    /// The link of an operation that is paired with another.
    pub fn paired(with: OpId) -> Link
        requires { with.rank < no_rank }
        ensures { result ≡ record { unmet = 0; partner = Some with } }
    {
        Link {
            rank: with.rank,
            op: with.op,
        }
    }

    /// The same, waiting for one fewer.
    pub fn with_one_met(self) -> Link
        requires { 0 < self.unmet }
        ensures { result ≡ record self { unmet = self.unmet - 1 } }
    {
        Link {
            rank: self.rank,
            op: self.op - 1,
        }
    }

    /// Returns for how many starts and ends the operation waits.
    pub fn unmet(self) -> u32
        ensures { result ≡ self.unmet }
    {
        if self.rank == NO_RANK { self.op } else { 0 }
    }

    /// Returns the partner, if there is one.
    pub fn partner(self) -> Option<OpId>
        ensures { result ≡ self.partner }
    {
        if self.rank == NO_RANK {
            return None;
        }
        Some(OpId {
            rank: self.rank,
            op: self.op,
        })
    }
}
