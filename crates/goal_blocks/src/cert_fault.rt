//! Why a schedule is not certified.
ghost use Rattle.std.specs.Prelude.{◌≡◌};
ghost use Rattle.goal_blocks.specs.declared.cert_fault.CertFault.TheVariants.{NoMemory};

use goal_graph::OpId;
use std::alloc::{AllocError, AllocFailed};

/// Why a schedule is not certified for a collective. The kinds of faults are checked in the order of these variants. Of
/// the first kind that occurs, the least fault is returned: by the rank and number of the operation, or by the fields
/// in their order.
#[derive(Clone, Copy, Debug, PartialEq, Eq)]
pub enum CertFault {
    /// The rank has more than 2,048 operations, or a note names a slot above 65,535, or the moves of this and all
    /// lesser ranks name more than 2^24 slots.
    TooLarge {
        rank: u32,
    },
    /// The receive has a wildcard: any source or any tag.
    Wildcard {
        op: OpId,
    },
    /// Both are sends, or both are receives, of the same source, target and tag.
    DoubleChannel {
        first: OpId,
        second: OpId,
    },
    /// No receive has the channel of this send, or no send has the channel of this receive.
    Unpaired {
        op: OpId,
    },
    /// The send reads a different number of slots than the receive of its channel sets.
    Lengths {
        send: OpId,
        recv: OpId,
    },
    /// Both operations touch the slot, one of them sets it, and neither ends before the other starts by dependencies.
    Race {
        rank: u32,
        first: u32,
        second: u32,
        slot: u32,
    },
    /// The operation has not ended after the walk.
    Stalls {
        op: OpId,
    },
    /// The walk holds more than 2^24 contributions at some point. `held` is their number at the first such point.
    Weight {
        held: u64,
    },
    /// At the end the slot does not hold what is wanted.
    Wrong {
        rank: u32,
        slot: u32,
    },
    /// Out of memory: nothing is known of the schedule.
    NoMemory,
}

impl From<AllocError> for CertFault {
    ghost from_gives = { λ _ fault. fault ≡ NoMemory };

    fn from(_error: AllocError) -> CertFault {
        CertFault::NoMemory
    }
}

impl<T: Drop> From<AllocFailed<T>> for CertFault {
    ghost from_gives = { λ _ fault. fault ≡ NoMemory };

    fn from(_error: AllocFailed<T>) -> CertFault {
        CertFault::NoMemory
    }
}
