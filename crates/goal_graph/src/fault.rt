//! Why a list of plans is no schedule.
ghost use Rattle.std.specs.Prelude.{◌≡◌};
ghost use Rattle.goal_graph.specs.declared.fault.PlanFault.TheVariants.{NoMemory};

use std::alloc::{AllocError, AllocFailed};

/// The first rule that a list of plans breaks.
#[derive(Clone, Copy, Debug, PartialEq, Eq)]
pub enum PlanFault {
    /// There are `found` ranks, or `found` operations, dependencies or notes in all ranks together, but at most `limit`
    /// are allowed. Or there is no rank: then `found` is 0.
    Count { found: u128, limit: u64 },
    /// The size or duration of operation `op` is over its limit, or it is a calc with a nic other than 0.
    Value { rank: u32, op: u32 },
    /// The target of a send, or the source of a receive, does not exist.
    Peer { rank: u32, op: u32 },
    /// Dependency number `dep` of the rank names an operation that the rank does not have.
    DepRange { rank: u32, dep: u32 },
    /// Note number `note` of the rank names an operation that the rank does not have or that cannot do this, or its
    /// slots are in the wrong order.
    NoteMisfit { rank: u32, note: u32 },
    /// The operation is on a cycle of dependencies, or waits, directly or through others, for one that is. It is the
    /// first such operation by rank and number.
    Cycle { rank: u32, op: u32 },
    /// Out of memory.
    NoMemory,
}

impl From<AllocError> for PlanFault {
    ghost from_gives = { λ _ fault. fault ≡ NoMemory };

    fn from(_error: AllocError) -> PlanFault {
        PlanFault::NoMemory
    }
}

impl<T: Drop> From<AllocFailed<T>> for PlanFault {
    ghost from_gives = { λ _ fault. fault ≡ NoMemory };

    fn from(_error: AllocFailed<T>) -> PlanFault {
        PlanFault::NoMemory
    }
}
