//! The number of ranks, and the ranks of the blocks.
ghost use Rattle.std.specs.Prelude.{◌≡◌, ◌++◌, [], ◌∷◌, None, OnOk, nat_eq, false};
ghost use Rattle.std.specs.List.{list_any};
ghost use Rattle.std.specs.Option.{option_map};
ghost use Rattle.goal_parser.specs.FaultInText.{fault_in_text};
ghost use Rattle.goal_parser.specs.Faults.{numbered_rank_fault, rank_fault};

use crate::sentence::State;
use crate::token_faults::TokenFault;
use goal_lexer::{Token, TokenKind};
use indexmap::IndexSet;
use std::alloc::{AllocError, Global};

/// The number of ranks, and the ranks of the blocks.
#[derive(Drop)]
pub struct Ranks {
    /// The number of ranks, or 0 before it is read.
    pub count: u64,
    /// The rank of the newest block.
    pub present: u64,
    /// The ranks that had a block, in the order of the text.
    pub blocks: IndexSet<u64>,
}

impl Ranks {
    /// The state before any token.
    pub fn new(alloc: Global) -> Ranks
        ensures count { result.count ≡ 0 }
        ensures present { result.present ≡ 0 }
        ensures blocks { result.blocks.keys ≡ [] }
    {
        Ranks {
            count: 0,
            present: 0,
            blocks: IndexSet::new(alloc),
        }
    }

    /// Returns why the number after `rank` is refused, if it is.
    fn numbered_fault(&self, state: State, value: u64, at: u64) -> Option<TokenFault>
        ensures { option_map fault_in_text result ≡ numbered_rank_fault state self.now.count self.now.blocks.keys value at }
    {
        match state {
            State::Block => {
                if value >= self.count {
                    Some(TokenFault::Rank { at })
                } else if self.blocks.contains(&value) {
                    Some(TokenFault::Repeat { at })
                } else {
                    None
                }
            }
            _ => None,
        }
    }

    /// Returns why the token is refused as a rank, if it is.
    #[tactic(auto, unfolding(crate::specs::Faults::rank_fault))]
    pub fn fault(&self, state: State, token: &Token) -> Option<TokenFault>
        ensures { option_map fault_in_text result ≡ rank_fault state self.now.count self.now.blocks.keys token.now }
    {
        match &token.kind {
            TokenKind::Number { value } => self.numbered_fault(state, *value, token.start),
            _ => None,
        }
    }

    /// Takes the rank of a new block. No earlier block has this rank. `Err` means out of memory.
    pub fn take(&mut self, value: u64) -> Result<(), AllocError>
        requires new { list_any (nat_eq value) self.old.blocks.keys ≡ false }
        ensures count { OnOk result (self.new.count ≡ self.old.count) }
        ensures present { OnOk result (self.new.present ≡ value) }
        ensures blocks { OnOk result (self.new.blocks.keys ≡ self.old.blocks.keys ++ value ∷ []) }
    {
        self.present = value;
        self.blocks.insert(value)?;
        Ok(())
    }
}
