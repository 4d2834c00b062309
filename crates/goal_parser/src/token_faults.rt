//! Why a token is refused.
ghost use Rattle.std.specs.Prelude.{◌≡◌};
ghost use Rattle.goal_parser.specs.declared.token_faults.TokenFault.TheVariants.{NoMemory};
ghost use Rattle.goal_parser.specs.FaultInText.{fault_in_text};

use crate::faults::TextFault;
use std::alloc::{AllocError, AllocFailed};

/// Why a token is refused, or no token begins at a place, or the text may not end. It is a [`TextFault`] in a quarter
/// of its size, since every token has such a result.
#[derive(Clone, Copy)]
pub enum TokenFault {
    /// [`TextFault::Lex`]
    Lex { at: u64 },
    /// [`TextFault::Syntax`]
    Syntax { at: u64 },
    /// [`TextFault::Number`]
    Number { at: u64 },
    /// [`TextFault::Rank`]
    Rank { at: u64 },
    /// [`TextFault::Repeat`]
    Repeat { at: u64 },
    /// [`TextFault::TooMany`]
    TooMany { at: u64 },
    /// [`TextFault::UnknownLabel`]
    UnknownLabel { at: u64 },
    /// [`TextFault::NoMemory`]
    NoMemory,
}

/// Returns the fault of a token as a fault of the text.
pub fn fault_in_text(fault: TokenFault) -> TextFault
    ensures { result ≡ fault_in_text fault }
{
    match fault {
        TokenFault::Lex { at } => TextFault::Lex { at },
        TokenFault::Syntax { at } => TextFault::Syntax { at },
        TokenFault::Number { at } => TextFault::Number { at },
        TokenFault::Rank { at } => TextFault::Rank { at },
        TokenFault::Repeat { at } => TextFault::Repeat { at },
        TokenFault::TooMany { at } => TextFault::TooMany { at },
        TokenFault::UnknownLabel { at } => TextFault::UnknownLabel { at },
        TokenFault::NoMemory => TextFault::NoMemory,
    }
}

impl From<AllocError> for TokenFault {
    ghost from_gives = { λ _ fault. fault ≡ NoMemory };

    fn from(_error: AllocError) -> TokenFault {
        TokenFault::NoMemory
    }
}

impl<T: Drop> From<AllocFailed<T>> for TokenFault {
    ghost from_gives = { λ _ fault. fault ≡ NoMemory };

    fn from(_error: AllocFailed<T>) -> TokenFault {
        TokenFault::NoMemory
    }
}
