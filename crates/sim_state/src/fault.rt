//! Why a schedule cannot be run.
ghost use Rattle.std.specs.Prelude.{◌≡◌};

use goal_limits::NoMemory;
use std::alloc::AllocError;

/// Why an engine cannot be created.
#[derive(Clone, Copy, Debug, PartialEq, Eq)]
pub enum EngineFault {
    /// The time budget, `sum` in nanoseconds, is over 2^63-1.
    Budget { sum: u128 },
    /// Memory ran out.
    NoMemory,
}

impl From<AllocError> for EngineFault {
    ghost use Rattle.sim_state.specs.declared.fault.EngineFault.TheVariants.{NoMemory};

    ghost from_gives = { λ _ fault. fault ≡ NoMemory };

    fn from(_error: AllocError) -> EngineFault {
        EngineFault::NoMemory
    }
}

impl From<NoMemory> for EngineFault {
    ghost use Rattle.sim_state.specs.declared.fault.EngineFault.TheVariants.{NoMemory};

    ghost from_gives = { λ _ fault. fault ≡ NoMemory };

    fn from(_error: NoMemory) -> EngineFault {
        EngineFault::NoMemory
    }
}
