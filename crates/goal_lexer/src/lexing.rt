//! The lexer.
ghost use Rattle.std.specs.Prelude.{◌≡◌, ℕ, ◌+◌, ◌<◌, ◌≤◌, ◌⊎◌, ◌^◌, Bool, true, false, List, [], ◌∷◌, ◌++◌, length, take, drop, Some, None, IfOk, IfErr, IfSome, IsSome, Ok, Err, option_to_list};
ghost use Rattle.goal_lexer.specs.Sound.{IsSound};
ghost use Rattle.goal_lexer.specs.Scan.{scanned, lexed};
ghost use Rattle.goal_lexer.specs.Stands.{Stands, handed, begins_run};
ghost use Rattle.goal_lexer.specs.Found.{found_token};
ghost use Rattle.goal_lexer.specs.Ahead.{IsAhead};
ghost use Rattle.goal_lexer.specs.declared.tokens.Token.{Token};
ghost use Rattle.goal_lexer.specs.State.{LexState};

use crate::mode::Mode;
use crate::scanning::{PieceEnd, take_piece};
use crate::tokens::{LexFault, Lexed, Taken, Token};
use crate::words::run_kind;
use std::marker::Model;

/// Takes a text in pieces, and returns its tokens.
///
/// A lexer keeps what is open, the number of bytes taken, and whether a run that it just returned ends there. It does
/// not keep the bytes, so its contracts speak of each text that it *represents* (`Stands`). [`Lexer::new`] represents
/// the empty text. A call that takes bytes appends them to the text that the lexer represents. After a fault the lexer
/// represents no text, and returns the same fault from then on.
#[derive(Drop)]
pub struct Lexer {
    mode: Mode,
    place: u64,
    ends_run: bool,
}

impl Model for Lexer {
    ghost use Rattle.std.specs.Prelude.{◌≡◌, true};
    ghost use Rattle.goal_lexer.specs.State.{LexState};
    ghost use Rattle.goal_lexer.specs.declared.mode.Mode.TheVariants.{Between};

    ghost Value = { LexState };

    ghost view = { λ l. record { mode = l.mode; place = l.place; ends_run = l.ends_run } };

    // After a run that was returned, nothing is open.
    ghost invariant = { λ l. l.ends_run ≡ true → l.mode ≡ Between };
}

impl Lexer {
    /// Creates a lexer that has taken no byte.
    pub fn new() -> Lexer
        ensures stands { Stands result [] }
        ensures handed { handed result [] ≡ [] }
        ensures place { result.place ≡ 0 }
        ensures apart { result.ends_run ≡ false }
    {
        Lexer {
            mode: Mode::Between,
            place: 0,
            ends_run: false,
        }
    }

    /// Returns whether nothing is open. By contract, `true` means that nothing is; `false` says nothing.
    #[inline(always)]
    pub fn is_between(&self) -> bool
        ensures { result ≡ true → self.now.mode ≡ Mode.Between }
    {
        match self.mode {
            Mode::Between => true,
            _ => false,
        }
    }

    /// Takes `count` bytes from the front of `rest` that a function such as [`crate::word_ahead`] found to be tokens;
    /// `ends_run` says whether they end with a run.
    #[inline(always)]
    pub fn go_on(&mut self, rest: &[u8], count: usize, ends_run: bool)
        // The places are numbers of 64 bits.
        requires place { self.old.place + length rest.now < 2 ^ 64 }

        // Nothing is open, and `rest` does not continue a run that was returned.
        requires between { self.old.mode ≡ Mode.Between }
        requires apart { self.old.ends_run ≡ true → begins_run rest.now ≡ false }

        // The bytes are tokens.
        requires some { 0 < count }
        requires ahead { (tokens : List Token) × IsAhead self.old.place rest.now count ends_run tokens }

        ensures place { self.new.place ≡ self.old.place + count }
        ensures between { self.new.mode ≡ Mode.Between }
        ensures apart_next { self.new.ends_run ≡ true → begins_run (drop count rest.now) ≡ false }
        ensures left { self.new.ends_run ≡ true → count < length rest.now }

        // These bytes are appended to the text, and their tokens to the tokens returned.
        ensures stands { (text : List ℕ) → Stands self.old text → Stands self.new (text ++ take count rest.now) }
        ensures handed { (tokens : List Token) → IsAhead self.old.place rest.now count ends_run tokens → (text : List ℕ) → Stands self.old text → handed self.new (text ++ take count rest.now) ≡ handed self.old text ++ tokens }
    {
        let _rest = rest;
        self.place += count as u64;
        self.ends_run = ends_run;
    }

    /// Takes bytes from the front of `rest`, up to the end of the next token, and returns that token. If no token was
    /// completed, all of `rest` is taken and the token is `None`.
    ///
    /// The token of a run is completed by the byte after the run, which is not taken. `{`, `}` and `:` are completed by
    /// their own byte.
    ///
    /// # Errors
    ///
    /// `LexFault` at the first place, after the tokens, blanks and comments so far, where no token, blank or comment
    /// begins, whatever follows `rest`. After a fault, the same fault again.
    pub fn next_token(&mut self, rest: &[u8]) -> Result<Lexed, LexFault>
        // The places are numbers of 64 bits.
        requires place { self.old.place + length rest.now < 2 ^ 64 }

        // `rest` does not continue a run that was returned.
        requires apart { self.old.ends_run ≡ true → begins_run rest.now ≡ false }

        ensures taken { IfOk result (λ l. l.taken ≤ length rest.now) }
        ensures all { IfOk result (λ l. l.token ≡ None → l.taken ≡ length rest.now) }
        ensures some { IfOk result (λ l. IsSome l.token → 0 < length rest.now) }
        ensures place { IfOk result (λ l. self.new.place ≡ self.old.place + l.taken) }
        ensures end { IfOk result (λ l. IfSome l.token (λ token. token.end ≡ self.new.place)) }
        ensures apart_next { IfOk result (λ l. self.new.ends_run ≡ true → begins_run (drop l.taken rest.now) ≡ false) }
        ensures left { IfOk result (λ l. 0 < length rest.now → self.new.ends_run ≡ true → l.taken < length rest.now) }

        // A call with bytes takes one, or returns the run that ended before them.
        ensures moves { IfOk result (λ l. 0 < length rest.now → (0 < l.taken) ⊎ ((self.old.ends_run ≡ false) × (self.new.ends_run ≡ true))) }

        // The text is continued by the bytes taken, and the tokens returned by the token.
        ensures stands { IfOk result (λ l. (text : List ℕ) → Stands self.old text → Stands self.new (text ++ take l.taken rest.now)) }
        ensures handed { IfOk result (λ l. (text : List ℕ) → Stands self.old text → handed self.new (text ++ take l.taken rest.now) ≡ handed self.old text ++ option_to_list l.token) }

        // Every text that begins with the bytes given so far has this fault, and the tokens returned are its tokens.
        ensures fault { IfErr result (λ e. (text : List ℕ) → Stands self.old text → scanned (text ++ rest.now) ≡ (Mode.Failed e.at, handed self.old text)) }
        ensures every { IfErr result (λ e. (text more : List ℕ) → Stands self.old text → lexed (text ++ rest.now ++ more) ≡ (handed self.old text, Some e.at)) }
        ensures failed { IfErr result (λ e. self.new.mode ≡ Mode.Failed e.at) }
        ensures again { (at : ℕ) → self.old.mode ≡ Mode.Failed at → (result ≡ Err (record { at = at })) × (self.new ≡ self.old) }
    {
        let mut token = Token::nowhere();
        match self.next_token_into(rest, &mut token) {
            Ok(Taken { taken, found: true }) => Ok(Lexed {
                taken,
                token: Some(token),
            }),
            Ok(
                Taken {
                    taken,
                    found: false,
                },
            ) => Ok(Lexed { taken, token: None }),
            Err(fault) => Err(fault),
        }
    }

    /// Does the same as [`Lexer::next_token`], but writes the token to `token`, so that none is moved. If no token was
    /// completed, `token` has no meaning.
    ///
    /// # Errors
    ///
    /// Those of [`Lexer::next_token`].
    pub fn next_token_into(&mut self, rest: &[u8], token: &mut Token) -> Result<Taken, LexFault>
        // The places are numbers of 64 bits.
        requires place { self.old.place + length rest.now < 2 ^ 64 }

        // `rest` does not continue a run that was returned.
        requires apart { self.old.ends_run ≡ true → begins_run rest.now ≡ false }

        ensures taken { IfOk result (λ l. l.taken ≤ length rest.now) }
        ensures all { IfOk result (λ l. found_token l.found token.new ≡ None → l.taken ≡ length rest.now) }
        ensures some { IfOk result (λ l. IsSome (found_token l.found token.new) → 0 < length rest.now) }
        ensures place { IfOk result (λ l. self.new.place ≡ self.old.place + l.taken) }
        ensures end { IfOk result (λ l. IfSome (found_token l.found token.new) (λ t. t.end ≡ self.new.place)) }
        ensures apart_next { IfOk result (λ l. self.new.ends_run ≡ true → begins_run (drop l.taken rest.now) ≡ false) }
        ensures left { IfOk result (λ l. 0 < length rest.now → self.new.ends_run ≡ true → l.taken < length rest.now) }

        // A call with bytes takes one, or returns the run that ended before them.
        ensures moves { IfOk result (λ l. 0 < length rest.now → (0 < l.taken) ⊎ ((self.old.ends_run ≡ false) × (self.new.ends_run ≡ true))) }

        // The text is continued by the bytes taken, and the tokens returned by the token.
        ensures stands { IfOk result (λ l. (text : List ℕ) → Stands self.old text → Stands self.new (text ++ take l.taken rest.now)) }
        ensures handed { IfOk result (λ l. (text : List ℕ) → Stands self.old text → handed self.new (text ++ take l.taken rest.now) ≡ handed self.old text ++ option_to_list (found_token l.found token.new)) }

        // Every text that begins with the bytes given so far has this fault, and the tokens returned are its tokens.
        ensures fault { IfErr result (λ e. (text : List ℕ) → Stands self.old text → scanned (text ++ rest.now) ≡ (Mode.Failed e.at, handed self.old text)) }
        ensures every { IfErr result (λ e. (text more : List ℕ) → Stands self.old text → lexed (text ++ rest.now ++ more) ≡ (handed self.old text, Some e.at)) }
        ensures failed { IfErr result (λ e. self.new.mode ≡ Mode.Failed e.at) }
        ensures again { (at : ℕ) → self.old.mode ≡ Mode.Failed at → (result ≡ Err (record { at = at })) × (self.new ≡ self.old) }
    {
        if let Mode::Failed { at } = self.mode {
            return Err(LexFault { at });
        }
        if rest.is_empty() {
            return Ok(Taken {
                taken: 0,
                found: false,
            });
        }
        match take_piece(&mut self.mode, self.place, rest, token) {
            PieceEnd::Piece => {
                self.place += rest.len() as u64;
                self.ends_run = false;
                Ok(Taken {
                    taken: rest.len(),
                    found: false,
                })
            }
            PieceEnd::Run(taken) => {
                self.place += taken as u64;
                self.ends_run = true;
                Ok(Taken { taken, found: true })
            }
            PieceEnd::Sign(taken) => {
                self.place += taken as u64;
                self.ends_run = false;
                Ok(Taken { taken, found: true })
            }
            PieceEnd::Fault(at) => {
                self.ends_run = false;
                Err(LexFault { at })
            }
        }
    }

    /// Ends the text, and returns its last token if a run is open, or otherwise `None`.
    ///
    /// # Errors
    ///
    /// `LexFault` at a `/` that begins no comment, or at a block comment that is not closed. After a fault, the same
    /// fault again.
    pub fn finish(self) -> Result<Option<Token>, LexFault>
        ensures ok { IfOk result (λ last. (text : List ℕ) → Stands self text → lexed text ≡ (handed self text ++ option_to_list last, None)) }
        ensures fault { IfErr result (λ e. (text : List ℕ) → Stands self text → lexed text ≡ (handed self text, Some e.at)) }
        ensures again { (at : ℕ) → self.mode ≡ Mode.Failed at → result ≡ Err (record { at = at }) }
    {
        let Lexer { mode, place, .. } = self;
        match mode {
            Mode::Between | Mode::LineComment { .. } => Ok(None),
            Mode::Run { start, bytes, form } => {
                let mut token = Token::nowhere();
                run_kind(bytes.as_bytes(), form, &mut token.kind);
                token.start = start;
                token.end = place;
                Ok(Some(token))
            }
            Mode::Slash { start } | Mode::BlockComment { start, .. } => Err(LexFault { at: start }),
            Mode::Failed { at } => Err(LexFault { at }),
        }
    }
}
