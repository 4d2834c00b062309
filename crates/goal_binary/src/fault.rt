//! Why bytes are not the compiled file of a schedule.
ghost use Rattle.std.specs.Prelude.{◌≡◌, Some};
ghost use Rattle.goal_binary.specs.declared.fault.FileFault.TheVariants.{NoMemory};
ghost use Rattle.goal_binary.specs.FaultWords.{fault_words};

use goal_graph::PlanFault;
use std::alloc::{AllocError, AllocFailed};
use std::error::Error;
use std::fmt;

/// The first fault of bytes that should be a compiled file. Places are in bytes, from 0.
#[derive(Clone, Copy, Debug, PartialEq, Eq)]
pub enum FileFault {
    /// The input ends after `at` bytes, inside a field.
    Short { at: u64 },
    /// The file does not begin with the magic number.
    Magic,
    /// The file is of version `found`, which is neither 1 nor 2.
    Version { found: u32 },
    /// The field that begins at `at` has a value that no file can have there.
    Field { at: u64 },
    /// Bytes follow the record of the last rank; the first of them is at `at`.
    Extra { at: u64 },
    /// The file has plans, but they are no schedule.
    Plan(PlanFault),
    /// Out of memory.
    NoMemory,
}

impl From<AllocError> for FileFault {
    ghost from_gives = { λ _ fault. fault ≡ NoMemory };

    fn from(_error: AllocError) -> FileFault {
        FileFault::NoMemory
    }
}

impl<T: Drop> From<AllocFailed<T>> for FileFault {
    ghost from_gives = { λ _ fault. fault ≡ NoMemory };

    fn from(_error: AllocFailed<T>) -> FileFault {
        FileFault::NoMemory
    }
}

impl fmt::Display for FileFault {
    ghost output = { λ fault. Some (fault_words fault) };

    fn fmt<W: fmt::Write>(&self, f: &mut fmt::Formatter<W>) -> fmt::Result {
        match self {
            FileFault::Short { at } => write!(f, "the file ends inside a field after {at} bytes"),
            FileFault::Magic => write!(
                f,
                "the bytes do not begin with the magic of a compiled file"
            ),
            FileFault::Version { found } => write!(f, "the file is of version {found}"),
            FileFault::Field { at } => write!(f, "no file has what stands at byte {at}"),
            FileFault::Extra { at } => write!(f, "bytes follow the last rank at byte {at}"),
            FileFault::Plan(_) => write!(f, "the plans of the file are no schedule"),
            FileFault::NoMemory => write!(f, "out of memory"),
        }
    }
}

impl Error for FileFault {}
