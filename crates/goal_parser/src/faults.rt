//! Why a text has no schedule.
ghost use Rattle.std.specs.Prelude.{◌≡◌, Some};
ghost use Rattle.goal_parser.specs.declared.faults.TextFault.TheVariants.{NoMemory};
ghost use Rattle.goal_parser.specs.FaultWords.{fault_words};

use goal_graph::PlanFault;
use std::alloc::{AllocError, AllocFailed};
use std::error::Error;
use std::fmt;

/// The first fault of a text. `at` is the place of a byte of the text, from 0.
#[derive(Clone, Copy, Debug, PartialEq, Eq)]
pub enum TextFault {
    /// No token, blank or comment begins at this place.
    Lex { at: u64 },
    /// The token at this place may not follow those before it, or the text may not end at this place.
    Syntax { at: u64 },
    /// The number at this place is outside its limits.
    Number { at: u64 },
    /// The number at this place is not below the number of ranks.
    Rank { at: u64 },
    /// The rank at this place already had a block, or the action already has the option at this place, or the block has
    /// already defined the label at this place.
    Repeat { at: u64 },
    /// The word at this place begins an operation, a dependency or a note beyond the limit of a schedule.
    TooMany { at: u64 },
    /// The block uses the label at this place without defining it.
    UnknownLabel { at: u64 },
    /// The text has plans, but they are no schedule.
    Plan(PlanFault),
    /// Out of memory.
    NoMemory,
}

impl From<AllocError> for TextFault {
    ghost from_gives = { λ _ fault. fault ≡ NoMemory };

    fn from(_error: AllocError) -> TextFault {
        TextFault::NoMemory
    }
}

impl<T: Drop> From<AllocFailed<T>> for TextFault {
    ghost from_gives = { λ _ fault. fault ≡ NoMemory };

    fn from(_error: AllocFailed<T>) -> TextFault {
        TextFault::NoMemory
    }
}

impl fmt::Display for TextFault {
    ghost output = { λ fault. Some (fault_words fault) };

    fn fmt<W: fmt::Write>(&self, f: &mut fmt::Formatter<W>) -> fmt::Result {
        match self {
            TextFault::Lex { at } => write!(f, "no token begins at byte {at}"),
            TextFault::Syntax { at } => write!(f, "the text may not go on so at byte {at}"),
            TextFault::Number { at } => write!(f, "the number at byte {at} is outside its limits"),
            TextFault::Rank { at } => write!(f, "the number at byte {at} is no rank"),
            TextFault::Repeat { at } => write!(f, "what stands at byte {at} was given before"),
            TextFault::TooMany { at } => write!(
                f,
                "the word at byte {at} begins one item too many"
            ),
            TextFault::UnknownLabel { at } => write!(f, "the label at byte {at} is not defined"),
            TextFault::Plan(_) => write!(f, "the plans of the text are no schedule"),
            TextFault::NoMemory => write!(f, "out of memory"),
        }
    }
}

impl Error for TextFault {}
