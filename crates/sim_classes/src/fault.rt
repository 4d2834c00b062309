//! Why a text describes no machine.
ghost use Rattle.std.specs.Prelude.{◌≡◌};
ghost use Rattle.sim_classes.specs.declared.fault.MachineFault.TheVariants.{NoMemory};

use std::alloc::{AllocError, AllocFailed};

/// Why a text describes no machine. `at` is the number of the first word that fails, from 0; the end counts as a word.
#[derive(Clone, Copy, Debug, PartialEq, Eq)]
pub enum MachineFault {
    /// The word is not the fixed word or the number that must be here, or it follows the last word.
    Syntax { at: u64 },
    /// A number is outside its limits.
    Number { at: u64 },
    /// The class between these two nodes was already given.
    Repeat { at: u64 },
    /// Out of memory.
    NoMemory,
}

impl From<AllocError> for MachineFault {
    ghost from_gives = { λ _ fault. fault ≡ NoMemory };

    fn from(_error: AllocError) -> MachineFault {
        MachineFault::NoMemory
    }
}

impl<T: Drop> From<AllocFailed<T>> for MachineFault {
    ghost from_gives = { λ _ fault. fault ≡ NoMemory };

    fn from(_error: AllocFailed<T>) -> MachineFault {
        MachineFault::NoMemory
    }
}
