//! Tokens, the results of the lexer, and its fault.
ghost use Rattle.std.specs.Prelude.{◌≡◌, ◌++◌, Some, codes, decimal};

use crate::labels::Label;
use std::error::Error;
use std::fmt;

/// The kind of a token.
#[derive(Clone, Copy, Debug, PartialEq, Eq)]
pub enum TokenKind {
    /// The reserved word `num_ranks`.
    NumRanks,
    /// The reserved word `rank`.
    Rank,
    /// The reserved word `calc`.
    Calc,
    /// The reserved word `send`.
    Send,
    /// The reserved word `recv`.
    Recv,
    /// The reserved word `to`.
    To,
    /// The reserved word `from`.
    From,
    /// The reserved word `tag`.
    Tag,
    /// The reserved word `cpu`.
    Cpu,
    /// The reserved word `nic`.
    Nic,
    /// The reserved word `any`.
    Any,
    /// The reserved word `requires`.
    Requires,
    /// The reserved word `irequires`.
    Irequires,
    /// The reserved word `moves`.
    Moves,
    /// The reserved word `adds`.
    Adds,
    /// A word that is not reserved.
    Label(Label),
    /// Digits, with their decimal value.
    Number {
        /// The value, or 2^64-1 if that is less.
        value: u64,
    },
    /// Digits followed by a `b`, with the value of the digits.
    Size {
        /// The value, or 2^64-1 if that is less.
        value: u64,
    },
    /// The sign `{`.
    Open,
    /// The sign `}`.
    Close,
    /// The sign `:`.
    Colon,
}

/// A token with its place in the text.
#[derive(Clone, Copy, Debug, PartialEq, Eq)]
pub struct Token {
    /// What it is.
    pub kind: TokenKind,
    /// The place of its first byte, from 0.
    pub start: u64,
    /// The place after its last byte.
    pub end: u64,
}

impl Token {
    /// Returns a token without meaning, as a place for [`crate::Lexer::next_token_into`] to write to.
    pub fn nowhere() -> Token
        ensures { result.end ≡ 0 }
    {
        Token {
            kind: TokenKind::Close,
            start: 0,
            end: 0,
        }
    }
}

/// What a call of [`crate::Lexer::next_token`] took and found.
#[derive(Clone, Copy, Debug, PartialEq, Eq)]
pub struct Lexed {
    /// The number of bytes taken from the front of the piece.
    pub taken: usize,
    /// The token that was completed. `None`: the whole piece was taken and no token was completed.
    pub token: Option<Token>,
}

/// What a call of [`crate::Lexer::next_token_into`] took, and whether it found a token.
#[derive(Clone, Copy, Debug, PartialEq, Eq)]
pub struct Taken {
    /// The number of bytes taken from the front of the piece.
    pub taken: usize,
    /// Whether a token was completed. If not, the whole piece was taken.
    pub found: bool,
}

/// No token, blank or comment begins at this place.
#[derive(Clone, Copy, Debug, PartialEq, Eq)]
pub struct LexFault {
    /// The place of the byte, from 0.
    pub at: u64,
}

impl fmt::Display for LexFault {
    ghost output = { λ e. Some (codes "no token, blank or comment begins at byte " ++ decimal e.at) };

    fn fmt<W: fmt::Write>(&self, f: &mut fmt::Formatter<W>) -> fmt::Result {
        let at = self.at;
        write!(f, "no token, blank or comment begins at byte {at}")
    }
}

impl Error for LexFault {}
