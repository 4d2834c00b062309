//! Why a collective has no schedule.
ghost use Rattle.std.specs.Prelude.{◌≡◌};
ghost use Rattle.goal_blocks.specs.declared.gen_fault.GenFault.TheVariants.{NoMemory};

use std::alloc::{AllocError, AllocFailed};

/// Why a collective has no schedule for a number of ranks.
#[derive(Clone, Copy, Debug, PartialEq, Eq)]
pub enum GenFault {
    /// There is no rank, or there are more than `limit`, the greatest number of ranks for this collective.
    Ranks { limit: u32 },
    /// The root is not one of the ranks.
    Root,
    /// The number of ranks of an allreduce is not a power of two.
    NotPowerOfTwo,
    /// Out of memory.
    NoMemory,
}

impl From<AllocError> for GenFault {
    ghost from_gives = { λ _ fault. fault ≡ NoMemory };

    fn from(_error: AllocError) -> GenFault {
        GenFault::NoMemory
    }
}

impl<T: Drop> From<AllocFailed<T>> for GenFault {
    ghost from_gives = { λ _ fault. fault ≡ NoMemory };

    fn from(_error: AllocFailed<T>) -> GenFault {
        GenFault::NoMemory
    }
}
