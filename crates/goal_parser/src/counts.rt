//! The numbers of operations, dependencies and notes that a text has begun.
ghost use Rattle.std.specs.Prelude.{◌≡◌, false};
ghost use Rattle.goal_parser.specs.Counts.{counts_with, is_too_many};

use goal_lexer::TokenKind;
use goal_limits::{MAX_DEPS, MAX_NOTES, MAX_OPS};

/// The numbers of operations, dependencies and notes that the text has begun so far, all blocks together.
#[derive(Clone, Copy)]
pub struct Counts {
    /// The operations.
    pub ops: u32,
    /// The dependencies.
    pub deps: u32,
    /// The notes.
    pub notes: u32,
}

impl Counts {
    /// Creates counts of 0.
    pub fn new() -> Counts
        ensures { result ≡ record { ops = 0; deps = 0; notes = 0 } }
    {
        Counts {
            ops: 0,
            deps: 0,
            notes: 0,
        }
    }

    /// Returns whether the word begins an operation, a dependency or a note beyond the limit of a schedule.
    #[inline(always)]
    #[tactic(auto, unfolding(crate::specs::Counts::is_too_many))]
    pub fn is_too_many(&self, kind: &TokenKind) -> bool
        ensures { result ≡ is_too_many kind.now self.now }
    {
        match kind {
            TokenKind::Calc | TokenKind::Send | TokenKind::Recv => self.ops >= MAX_OPS,
            TokenKind::Requires | TokenKind::Irequires => self.deps >= MAX_DEPS,
            TokenKind::Moves | TokenKind::Adds => self.notes >= MAX_NOTES,
            _ => false,
        }
    }

    /// Counts what the token begins.
    #[inline(always)]
    #[tactic(auto, unfolding(crate::specs::Counts::is_too_many, crate::specs::Counts::counts_with))]
    pub fn take(&mut self, kind: &TokenKind)
        requires fits { is_too_many kind.now self.old ≡ false }
        ensures counted { self.new ≡ counts_with kind.now self.old }
    {
        match kind {
            TokenKind::Calc | TokenKind::Send | TokenKind::Recv => self.ops += 1,
            TokenKind::Requires | TokenKind::Irequires => self.deps += 1,
            TokenKind::Moves | TokenKind::Adds => self.notes += 1,
            _ => {}
        }
    }
}
