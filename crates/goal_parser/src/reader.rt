//! The reader, from the bytes of a text to its plans.
ghost use Rattle.std.specs.Prelude.{◌≡◌, ◌≢◌, ℕ, ◌+◌, ◌<◌, ◌≤◌, ◌⊎◌, ◌^◌, true, false, List, [], ◌∷◌, ◌++◌, length, take, drop, None, Some, OnOk, IfOk, IfErr, reverse, option_to_list};
ghost use Rattle.goal_lexer.specs.Stands.{begins_run};
ghost use Rattle.goal_lexer.specs.declared.tokens.Token.{Token};
ghost use Rattle.std.specs.Option.{option_map};
ghost use Rattle.goal_parser.specs.FaultInText.{fault_in_text};
ghost use Rattle.goal_parser.specs.Reads.{text_fault, text_plans, end_fault, first_fault};
ghost use Rattle.goal_parser.specs.Taken.{HasTaken};

use crate::parser::Parser;
use crate::sentence::State;
use crate::token_faults::TokenFault;
use goal_graph::RankPlan;
use goal_lexer::{Lexer, Token};
use std::alloc::Global;

/// Reads a text, piece by piece.
#[derive(Drop)]
pub struct Reader {
    /// Takes the bytes, and returns the tokens.
    pub lexer: Lexer,
    /// Takes the tokens.
    pub parser: Parser,
    /// The number of bytes taken.
    pub place: u64,
}

/// Returns why the text may not end here in this state, if it may not.
fn end_fault(state: State, place: u64) -> Option<TokenFault>
    ensures { option_map fault_in_text result ≡ end_fault state place }
{
    match state {
        State::Top => None,
        _ => Some(TokenFault::Syntax { at: place }),
    }
}

impl Reader {
    ghost use Rattle.goal_parser.specs.Reader.{StandsFor};

    /// Creates a reader that has taken no byte.
    pub fn new(alloc: Global) -> Reader
        ensures stands { StandsFor result [] }
        ensures place { result.place ≡ 0 }
        ensures same { result.lexer.place ≡ result.place }
        ensures apart { result.lexer.ends_run ≡ false }
    {
        Reader {
            lexer: Lexer::new(),
            parser: Parser::new(alloc),
            place: 0,
        }
    }

    /// Takes bytes from the front of `rest` up to the end of a token, and that token, which is written to `token`.
    /// Returns the number of bytes.
    #[inline(always)]
    fn step(&mut self, rest: &[u8], token: &mut Token) -> Result<usize, TokenFault>
        requires some { 0 < length rest.now }
        requires place { self.old.place + length rest.now < 2 ^ 64 }
        requires same { self.old.lexer.place ≡ self.old.place }
        requires apart { self.old.lexer.ends_run ≡ true → begins_run rest.now ≡ false }
        ensures taken { IfOk result (λ n. n ≤ length rest.now) }
        ensures place { IfOk result (λ n. self.new.place ≡ self.old.place + n) }
        ensures same { OnOk result (self.new.lexer.place ≡ self.new.place) }
        ensures apart { IfOk result (λ n. self.new.lexer.ends_run ≡ true → begins_run (drop n rest.now) ≡ false) }
        ensures left { IfOk result (λ n. self.new.lexer.ends_run ≡ true → n < length rest.now) }
        ensures moves { IfOk result (λ n. (0 < n) ⊎ ((self.old.lexer.ends_run ≡ false) × (self.new.lexer.ends_run ≡ true))) }
        ensures stands { IfOk result (λ n. (text : List ℕ) → StandsFor self.old text → StandsFor self.new (text ++ take n rest.now)) }
        ensures fault { IfErr result (λ f. f ≢ TokenFault.NoMemory → (text more : List ℕ) → StandsFor self.old text → text_fault (text ++ rest.now ++ more) ≡ Some (fault_in_text f)) }
    {
        match self.lexer.next_token_into(rest, token) {
            Err(fault) => Err(TokenFault::Lex { at: fault.at }),
            Ok(lexed) => {
                self.place += lexed.taken as u64;
                if lexed.found {
                    match self.parser.take(token) {
                        Ok(()) => Ok(lexed.taken),
                        Err(fault) => Err(fault),
                    }
                } else {
                    Ok(lexed.taken)
                }
            }
        }
    }

    /// Takes a piece of the text. The next piece continues after it.
    pub fn feed(&mut self, piece: &[u8]) -> Result<(), TokenFault>
        requires place { self.old.place + length piece.now < 2 ^ 64 }
        requires same { self.old.lexer.place ≡ self.old.place }
        requires apart { self.old.lexer.ends_run ≡ false }
        ensures place { OnOk result (self.new.place ≡ self.old.place + length piece.now) }
        ensures same { OnOk result (self.new.lexer.place ≡ self.new.place) }
        ensures apart { OnOk result (self.new.lexer.ends_run ≡ false) }
        ensures stands { OnOk result ((text : List ℕ) → StandsFor self.old text → StandsFor self.new (text ++ piece.now)) }
        ensures fault { IfErr result (λ f. f ≢ TokenFault.NoMemory → (text more : List ℕ) → StandsFor self.old text → text_fault (text ++ piece.now ++ more) ≡ Some (fault_in_text f)) }
    {
        let mut token = Token::nowhere();
        let mut at = 0;
        while at < piece.len() {
            match self.take_ahead(&piece[at..]) {
                Ok(0) => match self.step(&piece[at..], &mut token) {
                    Ok(taken) => at += taken,
                    Err(fault) => return Err(fault),
                },
                Ok(taken) => at += taken,
                Err(fault) => return Err(fault),
            }
        }
        Ok(())
    }

    /// Takes the last token of the text, if one is open.
    fn close(parser: &mut Parser, last: &Option<Token>) -> Result<(), TokenFault>
        ensures ok { OnOk result ((tokens : List Token) → first_fault [] tokens ≡ None → HasTaken parser.old (reverse tokens) →
            (first_fault [] (tokens ++ option_to_list last.now) ≡ None) × HasTaken parser.new (reverse (tokens ++ option_to_list last.now))) }
        ensures fault { IfErr result (λ f. f ≢ TokenFault.NoMemory → (tokens : List Token) → first_fault [] tokens ≡ None → HasTaken parser.old (reverse tokens) →
            first_fault [] (tokens ++ option_to_list last.now) ≡ Some (fault_in_text f)) }
    {
        match last {
            Some(token) => match parser.take(token) {
                Ok(()) => Ok(()),
                Err(fault) => Err(fault),
            },
            None => Ok(()),
        }
    }

    /// Ends the text, and returns its plans.
    pub fn finish(self) -> Result<Vec<RankPlan>, TokenFault>
        requires { self.lexer.place ≡ self.place }
        ensures ok { IfOk result (λ plans. (text : List ℕ) → StandsFor self text → (text_fault text ≡ None) × (plans.items ≡ text_plans text)) }
        ensures fault { IfErr result (λ f. f ≢ TokenFault.NoMemory → (text : List ℕ) → StandsFor self text → text_fault text ≡ Some (fault_in_text f)) }
    {
        let Reader {
            lexer,
            mut parser,
            place,
        } = self;
        let last = match lexer.finish() {
            Ok(last) => last,
            Err(fault) => return Err(TokenFault::Lex { at: fault.at }),
        };
        match Reader::close(&mut parser, &last) {
            Ok(()) => {}
            Err(fault) => return Err(fault),
        }
        match end_fault(parser.state, place) {
            Some(fault) => Err(fault),
            None => Ok(parser.into_plans()),
        }
    }
}
