//! The parser: from tokens to plans.
//!
//! `take` takes any token. Most tokens come from `take_ahead` (ahead.rt), which finds them where they are in a piece;
//! each of its calls is inlined for the kind that it found.
ghost use Rattle.std.specs.Prelude.{◌≡◌, ◌≢◌, ℕ, ◌<◌, ◌≤◌, true, List, [], ◌∷◌, length, None, Some, OnOk, IfOk, IfErr};
ghost use Rattle.goal_limits.specs.Limits.{run_limit};
ghost use Rattle.goal_parser.specs.Numbers.{number_within};
ghost use Rattle.goal_lexer.specs.declared.tokens.Token.{Token};
ghost use Rattle.goal_parser.specs.Sentence.{entry};
ghost use Rattle.goal_parser.specs.Faults.{token_fault};
ghost use Rattle.goal_parser.specs.FaultInText.{fault_in_text};
ghost use Rattle.goal_parser.specs.Taken.{HasTaken, IsAction, IsOption, IsVerb, IsPlain, Takes, Refuses};

use crate::block::{Block, end_action};
use crate::counts::Counts;
use crate::draft::Draft;
use crate::head::ItemHead;
use crate::numbers::number_within;
use crate::plans;
use crate::ranks::Ranks;
use crate::sentence::{State, entry, label_entry};
use crate::token_faults::TokenFault;
use goal_graph::RankPlan;
use goal_lexer::{Token, TokenKind};
use std::alloc::{AllocError, Global};

/// Takes the tokens of a text, one by one, up to the first that fails a test.
#[derive(Drop)]
pub struct Parser {
    /// The allocator.
    pub alloc: Global,
    /// The state of the grammar.
    pub state: State,
    /// The number of ranks, and the ranks of the blocks.
    pub ranks: Ranks,
    /// The numbers of operations, dependencies and notes begun so far.
    pub counts: Counts,
    /// The newest action.
    pub draft: Draft,
    /// The newest item that begins with a label.
    pub head: ItemHead,
    /// The present block.
    pub block: Block,
    /// The plans of the blocks that have ended.
    pub plans: Vec<RankPlan>,
}

impl Parser {
    /// Creates a parser that has taken no token.
    pub fn new(alloc: Global) -> Parser
        ensures { HasTaken result [] }
    {
        Parser {
            alloc,
            state: State::Start,
            ranks: Ranks::new(alloc),
            counts: Counts::new(),
            draft: Draft::new(),
            head: ItemHead::new(),
            block: Block::new(alloc),
            plans: Vec::new(alloc),
        }
    }

    /// Returns the state after a token.
    #[inline(always)]
    fn next_state(&self, token: &Token) -> Result<State, TokenFault>
        ensures ok { IfOk result (λ next. entry self.now.state token.now.kind ≡ Some next) }
        ensures fault { IfErr result (λ f. Refuses self.now token.now f) }
    {
        match entry(self.state, &token.kind) {
            Some(next) => Ok(next),
            None => Err(TokenFault::Syntax { at: token.start }),
        }
    }

    /// Takes the number of ranks.
    #[cold]
    fn take_rank_count(&mut self, next: State, token: Token, value: u64) -> Result<(), AllocError>
        requires next { entry self.old.state token.kind ≡ Some next }
        requires number { token.kind ≡ TokenKind.Number value }
        requires within { number_within self.old.state self.old.draft.option value ≡ true }
        requires here { self.old.state ≡ State.Ranks }
        ensures { OnOk result (Takes self.old token self.new) }
    {
        self.state = next;
        self.plans = plans::empty_plans(self.alloc, value)?;
        self.ranks.count = value;
        Ok(())
    }

    /// Takes the rank of a block.
    #[cold]
    fn take_rank(&mut self, next: State, token: Token, value: u64) -> Result<(), TokenFault>
        requires next { entry self.old.state token.kind ≡ Some next }
        requires number { token.kind ≡ TokenKind.Number value }
        requires within { number_within self.old.state self.old.draft.option value ≡ true }
        requires here { self.old.state ≡ State.Block }
        ensures ok { OnOk result (Takes self.old token self.new) }
        ensures fault { IfErr result (λ f. f ≢ TokenFault.NoMemory → Refuses self.old token f) }
    {
        if let Some(fault) = self.ranks.fault(self.state, &token) {
            return Err(fault);
        }
        self.state = next;
        self.ranks.take(value)?;
        Ok(())
    }

    /// Takes a number.
    #[inline(always)]
    pub fn take_number(&mut self, token: &Token, value: u64) -> Result<(), TokenFault>
        requires number { token.now.kind ≡ TokenKind.Number value }
        ensures ok { OnOk result (Takes self.old token.now self.new) }
        ensures fault { IfErr result (λ f. f ≢ TokenFault.NoMemory → Refuses self.old token.now f) }
    {
        let next = self.next_state(token)?;
        let state = self.state;
        if !number_within(state, self.draft.option, value) {
            return Err(TokenFault::Number { at: token.start });
        }
        match state {
            State::Ranks => {
                self.take_rank_count(next, *token, value)?;
                Ok(())
            }
            State::Block => self.take_rank(next, *token, value),
            State::Note1 => {
                self.state = next;
                self.head.take_number(state, value);
                Ok(())
            }
            State::Note3 => {
                self.state = next;
                self.block.names.end_note(state, &self.head, value)?;
                Ok(())
            }
            _ => {
                self.state = next;
                self.draft.take(state, &token.kind);
                Ok(())
            }
        }
    }

    /// Takes a size.
    #[inline(always)]
    pub fn take_size(&mut self, token: &Token, value: u64) -> Result<(), TokenFault>
        requires size { token.now.kind ≡ TokenKind.Size value }
        ensures ok { OnOk result (Takes self.old token.now self.new) }
        ensures fault { IfErr result (λ f. f ≢ TokenFault.NoMemory → Refuses self.old token.now f) }
    {
        let next = self.next_state(token)?;
        if !number_within(self.state, self.draft.option, value) {
            return Err(TokenFault::Number { at: token.start });
        }
        self.draft.take(self.state, &token.kind);
        self.state = next;
        Ok(())
    }

    /// Takes the word of an option.
    #[inline(always)]
    pub fn take_option(&mut self, token: &Token) -> Result<(), TokenFault>
        requires option { IsOption token.now.kind }
        ensures ok { OnOk result (Takes self.old token.now self.new) }
        ensures fault { IfErr result (λ f. f ≢ TokenFault.NoMemory → Refuses self.old token.now f) }
    {
        let next = self.next_state(token)?;
        if self.draft.has_option(&token.kind) {
            return Err(TokenFault::Repeat { at: token.start });
        }
        self.draft.take(self.state, &token.kind);
        self.state = next;
        Ok(())
    }

    /// Takes a label, whose first byte is at this place.
    #[inline(always)]
    pub fn take_label(&mut self, label: &[u8], at: u64) -> Result<(), TokenFault>
        requires some { 0 < length label.now }
        requires short { length label.now ≤ run_limit }
        ensures ok { (end : ℕ) → OnOk result (Takes self.old (record { kind = TokenKind.Label label.now; start = at; end = end }) self.new) }
        ensures fault { (end : ℕ) → IfErr result (λ f. f ≢ TokenFault.NoMemory → Refuses self.old (record { kind = TokenKind.Label label.now; start = at; end = end }) f) }
    {
        let state = self.state;
        let Some(next) = label_entry(state) else {
            return Err(TokenFault::Syntax { at });
        };
        self.state = next;
        match state {
            State::Label => {
                self.block.names.end_dep(&self.head, label, at)?;
                Ok(())
            }
            _ => {
                end_action(&mut self.block.ops, state, &self.draft)?;
                self.head.begin(label, at);
                Ok(())
            }
        }
    }

    /// Takes a colon, which defines the label before it.
    #[inline(always)]
    pub fn take_colon(&mut self, token: &Token) -> Result<(), TokenFault>
        requires colon { token.now.kind ≡ TokenKind.Colon }
        ensures ok { OnOk result (Takes self.old token.now self.new) }
        ensures fault { IfErr result (λ f. f ≢ TokenFault.NoMemory → Refuses self.old token.now f) }
    {
        let next = self.next_state(token)?;
        // More operations than 32 bits can number count as out of memory.
        let Ok(op) = u32::try_from(self.block.ops.len()) else {
            return Err(TokenFault::NoMemory);
        };
        self.state = next;
        self.block.names.define(&self.head.subject, op)
    }

    /// Takes the word that an action begins with.
    #[inline(always)]
    pub fn take_action(&mut self, token: &Token) -> Result<(), TokenFault>
        requires action { IsAction token.now.kind }
        ensures ok { OnOk result (Takes self.old token.now self.new) }
        ensures fault { IfErr result (λ f. f ≢ TokenFault.NoMemory → Refuses self.old token.now f) }
    {
        let next = self.next_state(token)?;
        if self.counts.is_too_many(&token.kind) {
            return Err(TokenFault::TooMany { at: token.start });
        }
        end_action(&mut self.block.ops, self.state, &self.draft)?;
        self.counts.take(&token.kind);
        self.draft.take(self.state, &token.kind);
        self.state = next;
        Ok(())
    }

    /// Takes the word after the label of a dependency or a note.
    #[inline(always)]
    pub fn take_verb(&mut self, token: &Token) -> Result<(), TokenFault>
        requires verb { IsVerb token.now.kind }
        ensures ok { OnOk result (Takes self.old token.now self.new) }
        ensures fault { IfErr result (λ f. f ≢ TokenFault.NoMemory → Refuses self.old token.now f) }
    {
        let next = self.next_state(token)?;
        if self.counts.is_too_many(&token.kind) {
            return Err(TokenFault::TooMany { at: token.start });
        }
        self.counts.take(&token.kind);
        self.head.take_verb(&token.kind);
        self.state = next;
        Ok(())
    }

    /// Takes the sign that ends a block.
    fn take_close(&mut self, token: &Token) -> Result<(), TokenFault>
        requires close { token.now.kind ≡ TokenKind.Close }
        ensures ok { OnOk result (Takes self.old token.now self.new) }
        ensures fault { IfErr result (λ f. f ≢ TokenFault.NoMemory → Refuses self.old token.now f) }
    {
        let next = self.next_state(token)?;
        if let Some(at) = self.block.names.labels.first_unknown() {
            return Err(TokenFault::UnknownLabel { at });
        }
        let plan = self.block.close(self.alloc, self.state, &self.draft)?;
        plans::put(&mut self.plans, self.ranks.present, plan);
        self.state = next;
        Ok(())
    }

    /// Takes a word or a sign that only changes the grammar's state.
    #[inline(always)]
    pub fn take_plain(&mut self, token: &Token) -> Result<(), TokenFault>
        requires plain { IsPlain token.now.kind }
        ensures ok { OnOk result (Takes self.old token.now self.new) }
        ensures fault { IfErr result (λ f. f ≢ TokenFault.NoMemory → Refuses self.old token.now f) }
    {
        let next = self.next_state(token)?;
        self.state = next;
        Ok(())
    }

    /// Takes the word `any`.
    #[inline(always)]
    fn take_any(&mut self, token: &Token) -> Result<(), TokenFault>
        requires any { token.now.kind ≡ TokenKind.Any }
        ensures ok { OnOk result (Takes self.old token.now self.new) }
        ensures fault { IfErr result (λ f. f ≢ TokenFault.NoMemory → Refuses self.old token.now f) }
    {
        let next = self.next_state(token)?;
        self.draft.take(self.state, &token.kind);
        self.state = next;
        Ok(())
    }

    /// Takes the next token. It makes only the tests that a token of this kind can fail, in their order.
    #[inline(always)]
    pub fn take(&mut self, token: &Token) -> Result<(), TokenFault>
        ensures ok { OnOk result ((before : List Token) → HasTaken self.old before → (token_fault before token.now ≡ None) × HasTaken self.new (token.now ∷ before)) }
        ensures fault { IfErr result (λ f. f ≢ TokenFault.NoMemory → (before : List Token) → HasTaken self.old before → token_fault before token.now ≡ Some (fault_in_text f)) }
    {
        match &token.kind {
            TokenKind::Number { value } => self.take_number(token, *value),
            TokenKind::Size { value } => self.take_size(token, *value),
            TokenKind::Label(label) => self.take_label(label.as_bytes(), token.start),
            TokenKind::Colon => self.take_colon(token),
            TokenKind::Close => self.take_close(token),
            TokenKind::Tag | TokenKind::Cpu | TokenKind::Nic => self.take_option(token),
            TokenKind::Calc | TokenKind::Send | TokenKind::Recv => self.take_action(token),
            TokenKind::Requires | TokenKind::Irequires | TokenKind::Moves | TokenKind::Adds =>
                self.take_verb(token),
            TokenKind::Any => self.take_any(token),
            TokenKind::NumRanks
            | TokenKind::Rank
            | TokenKind::To
            | TokenKind::From
            | TokenKind::Open => self.take_plain(token),
        }
    }

    /// Returns the plans that were read.
    pub fn into_plans(self) -> Vec<RankPlan>
        ensures { result.items ≡ self.plans.items }
    {
        let Parser { plans, .. } = self;
        plans
    }
}
