//! Tokens that end inside a piece, taken where they are.
//!
//! [`Reader::take_ahead`] looks at the first byte after the blanks, takes the token that begins there, and the tokens
//! that usually follow it. It takes no token that may continue after the piece, no comment, and no rare token: those
//! are left to `step` (reader.rt). Which token is looked for is only a hint: the parser tests each. The functions
//! return the number of bytes taken from the front, blanks included.
ghost use Rattle.std.specs.Prelude.{◌≡◌, ◌≢◌, ◌+◌, ◌<◌, ◌≤◌, ◌^◌, true, false, [], ◌∷◌, length, take, drop, OnOk, IfOk, IfErr};
ghost use Rattle.goal_limits.specs.Limits.{run_limit};
ghost use Rattle.goal_lexer.specs.declared.tokens.Token.{Token};
ghost use Rattle.goal_lexer.specs.Ahead.{AreBlanks, is_word, IsAhead};
ghost use Rattle.goal_lexer.specs.Stands.{begins_run};
ghost use Rattle.goal_lexer.specs.Words.{word_kind};
ghost use Rattle.goal_parser.specs.declared.parser.Parser.{Parser};
ghost use Rattle.goal_parser.specs.Ahead.{MayGoOn, GoesAhead, IsFaultAhead};
ghost use Rattle.goal_parser.specs.Taken.{IsAction, IsOption, IsVerb, IsPlain, Takes, Refuses};

use crate::reader::Reader;
use crate::sentence::State;
use crate::token_faults::TokenFault;
use goal_lexer::{
    Token, TokenKind, begins_with_colon, blanks_ahead, label_ahead, long_number_ahead,
    long_size_ahead, number_ahead, size_ahead, spaced_word_ahead, word_ahead,
};

/// The number of bytes taken, and whether they hold all that was looked for. `whole` is a hint: either value is right.
#[derive(Clone, Copy)]
struct Took {
    count: usize,
    whole: bool,
}

/// The states in which the tokens of a message usually follow each other. They are hints, as [`Took::whole`] is.
#[derive(Clone, Copy)]
struct Path {
    size: State,
    word: State,
    peer: State,
    option: State,
    tag: State,
    place: State,
}

const SEND: Path = Path {
    size: State::Send1,
    word: State::Send2,
    peer: State::Send3,
    option: State::Send4,
    tag: State::Send5,
    place: State::Send5,
};

const RECV: Path = Path {
    size: State::Recv1,
    word: State::Recv2,
    peer: State::Recv3,
    option: State::Recv4,
    tag: State::Recv5,
    place: State::Recv6,
};

impl Reader {
    /// Goes on after the first `count` bytes, if the parser took their token; `ends_run` says whether it is a run.
    #[inline(always)]
    fn go_on(
        &mut self,
        taken: Result<(), TokenFault>,
        rest: &[u8],
        count: usize,
        ends_run: bool,
    ) -> Result<usize, TokenFault>
        requires ready { MayGoOn self.old.lexer self.old.place rest.now }
        requires some { 0 < count }
        requires ahead { (token : Token) × IsAhead self.old.place rest.now count ends_run (token ∷ []) }
        ensures ahead { (before : Parser) (token : Token) → IsAhead self.old.place rest.now count ends_run (token ∷ [])
            → OnOk taken (Takes before token self.old.parser)
            → IfOk result (λ n. GoesAhead (record self.old { parser = before }) rest.now self.new n) }
        ensures fault { (before : Parser) (token : Token) → IsAhead self.old.place rest.now count ends_run (token ∷ [])
            → IfErr taken (λ f. f ≢ TokenFault.NoMemory → Refuses before token f)
            → IfErr result (λ f. IsFaultAhead (record self.old { parser = before }) rest.now f) }
    {
        match taken {
            Ok(()) => {
                self.lexer.go_on(rest, count, ends_run);
                self.place += count as u64;
                Ok(count)
            }
            Err(fault) => Err(fault),
        }
    }

    /// Takes this word of an action after these blanks; returns 0 if it is not there.
    #[inline(always)]
    fn take_action(
        &mut self,
        rest: &[u8],
        blanks: usize,
        word: &[u8],
        kind: TokenKind,
    ) -> Result<usize, TokenFault>
        requires ready { MayGoOn self.old.lexer self.old.place rest.now }
        requires blanks { AreBlanks rest.now blanks }
        requires word { is_word word.now ≡ true }
        requires short { length word.now ≤ run_limit }
        requires kind { word_kind word.now ≡ kind }
        requires group { IsAction kind }
        ensures ahead { IfOk result (λ n. GoesAhead self.old rest.now self.new n) }
        ensures fault { IfErr result (λ f. IsFaultAhead self.old rest.now f) }
    {
        let count = word_ahead(rest, blanks, word);
        if count == 0 {
            return Ok(0);
        }
        let token = Token {
            kind,
            start: self.place + blanks as u64,
            end: self.place + count as u64,
        };
        let taken = self.parser.take_action(&token);
        self.go_on(taken, rest, count, true)
    }

    /// Takes this verb after these blanks; returns 0 if it is not there.
    #[inline(always)]
    fn take_verb(
        &mut self,
        rest: &[u8],
        blanks: usize,
        word: &[u8],
        kind: TokenKind,
    ) -> Result<usize, TokenFault>
        requires ready { MayGoOn self.old.lexer self.old.place rest.now }
        requires blanks { AreBlanks rest.now blanks }
        requires word { is_word word.now ≡ true }
        requires short { length word.now ≤ run_limit }
        requires kind { word_kind word.now ≡ kind }
        requires group { IsVerb kind }
        ensures ahead { IfOk result (λ n. GoesAhead self.old rest.now self.new n) }
        ensures fault { IfErr result (λ f. IsFaultAhead self.old rest.now f) }
    {
        let count = word_ahead(rest, blanks, word);
        if count == 0 || self.parser.state != State::Word {
            return Ok(0);
        }
        let token = Token {
            kind,
            start: self.place + blanks as u64,
            end: self.place + count as u64,
        };
        let taken = self.parser.take_verb(&token);
        self.go_on(taken, rest, count, true)
    }

    /// Takes this word of an option, given with the space before it, from the front; returns 0 if it is not there.
    #[inline(always)]
    fn take_option(
        &mut self,
        rest: &[u8],
        spaced: &[u8],
        kind: TokenKind,
    ) -> Result<usize, TokenFault>
        requires ready { MayGoOn self.old.lexer self.old.place rest.now }
        requires space { take 1 spaced.now ≡ 32 ∷ [] }
        requires word { is_word (drop 1 spaced.now) ≡ true }
        requires short { length spaced.now ≤ 65 }
        requires kind { word_kind (drop 1 spaced.now) ≡ kind }
        requires group { IsOption kind }
        ensures ahead { IfOk result (λ n. GoesAhead self.old rest.now self.new n) }
        ensures fault { IfErr result (λ f. IsFaultAhead self.old rest.now f) }
    {
        let count = spaced_word_ahead(rest, spaced);
        if count == 0 {
            return Ok(0);
        }
        let token = Token {
            kind,
            start: self.place + 1,
            end: self.place + count as u64,
        };
        let taken = self.parser.take_option(&token);
        self.go_on(taken, rest, count, true)
    }

    /// Takes this word, given with the space before it, from the front; returns 0 if it is not there. The word only
    /// changes the grammar's state.
    #[inline(always)]
    fn take_plain(
        &mut self,
        rest: &[u8],
        spaced: &[u8],
        kind: TokenKind,
    ) -> Result<usize, TokenFault>
        requires ready { MayGoOn self.old.lexer self.old.place rest.now }
        requires space { take 1 spaced.now ≡ 32 ∷ [] }
        requires word { is_word (drop 1 spaced.now) ≡ true }
        requires short { length spaced.now ≤ 65 }
        requires kind { word_kind (drop 1 spaced.now) ≡ kind }
        requires group { IsPlain kind }
        ensures ahead { IfOk result (λ n. GoesAhead self.old rest.now self.new n) }
        ensures fault { IfErr result (λ f. IsFaultAhead self.old rest.now f) }
    {
        let count = spaced_word_ahead(rest, spaced);
        if count == 0 {
            return Ok(0);
        }
        let token = Token {
            kind,
            start: self.place + 1,
            end: self.place + count as u64,
        };
        let taken = self.parser.take_plain(&token);
        self.go_on(taken, rest, count, true)
    }

    /// Takes the number at the front, of any form; returns 0 if none is found.
    #[inline(always)]
    fn take_long_number(&mut self, rest: &[u8]) -> Result<usize, TokenFault>
        requires ready { MayGoOn self.old.lexer self.old.place rest.now }
        ensures ahead { IfOk result (λ n. GoesAhead self.old rest.now self.new n) }
        ensures fault { IfErr result (λ f. IsFaultAhead self.old rest.now f) }
    {
        let number = long_number_ahead(rest);
        if number.count == 0 {
            return Ok(0);
        }
        let token = Token {
            kind: TokenKind::Number {
                value: number.value,
            },
            start: self.place + number.blanks as u64,
            end: self.place + number.count as u64,
        };
        let taken = self.parser.take_number(&token, number.value);
        self.go_on(taken, rest, number.count, true)
    }

    /// Takes the size at the front, of any form; returns 0 if none is found.
    #[inline(always)]
    fn take_long_size(&mut self, rest: &[u8]) -> Result<usize, TokenFault>
        requires ready { MayGoOn self.old.lexer self.old.place rest.now }
        ensures ahead { IfOk result (λ n. GoesAhead self.old rest.now self.new n) }
        ensures fault { IfErr result (λ f. IsFaultAhead self.old rest.now f) }
    {
        let size = long_size_ahead(rest);
        if size.count == 0 {
            return Ok(0);
        }
        let token = Token {
            kind: TokenKind::Size { value: size.value },
            start: self.place + size.blanks as u64,
            end: self.place + size.count as u64,
        };
        let taken = self.parser.take_size(&token, size.value);
        self.go_on(taken, rest, size.count, true)
    }

    /// Takes the number or the label at the front, of any form; returns 0 if none is found.
    #[inline(never)]
    fn take_any_form(&mut self, rest: &[u8]) -> Result<usize, TokenFault>
        requires ready { MayGoOn self.old.lexer self.old.place rest.now }
        ensures ahead { IfOk result (λ n. GoesAhead self.old rest.now self.new n) }
        ensures fault { IfErr result (λ f. IsFaultAhead self.old rest.now f) }
    {
        let blanks = blanks_ahead(rest);
        // a run byte above `9` is a letter or `_`
        if blanks < rest.len() && rest[blanks] > b'9' {
            return self.take_labelled(rest, blanks);
        }
        self.take_long_number(rest)
    }

    /// Calls `take_any_form`, whose result lies in memory. Callers that inline this make room for it only if they get
    /// here.
    #[inline(always)]
    fn take_rare(&mut self, rest: &[u8]) -> Result<usize, TokenFault>
        requires ready { MayGoOn self.old.lexer self.old.place rest.now }
        ensures ahead { IfOk result (λ n. GoesAhead self.old rest.now self.new n) }
        ensures fault { IfErr result (λ f. IsFaultAhead self.old rest.now f) }
    {
        self.take_any_form(rest)
    }

    /// Takes the number at the front; returns 0 if none is found.
    #[inline(always)]
    fn take_number(&mut self, rest: &[u8]) -> Result<usize, TokenFault>
        requires ready { MayGoOn self.old.lexer self.old.place rest.now }
        ensures ahead { IfOk result (λ n. GoesAhead self.old rest.now self.new n) }
        ensures fault { IfErr result (λ f. IsFaultAhead self.old rest.now f) }
    {
        let number = number_ahead(rest);
        if number.count == 0 {
            return self.take_rare(rest);
        }
        let token = Token {
            kind: TokenKind::Number {
                value: number.value,
            },
            start: self.place + number.blanks as u64,
            end: self.place + number.count as u64,
        };
        let taken = self.parser.take_number(&token, number.value);
        self.go_on(taken, rest, number.count, true)
    }

    /// Takes the number at the front, of any form, where long ones are frequent; returns 0 if none is found.
    #[inline(always)]
    fn take_duration(&mut self, rest: &[u8]) -> Result<usize, TokenFault>
        requires ready { MayGoOn self.old.lexer self.old.place rest.now }
        ensures ahead { IfOk result (λ n. GoesAhead self.old rest.now self.new n) }
        ensures fault { IfErr result (λ f. IsFaultAhead self.old rest.now f) }
    {
        let number = number_ahead(rest);
        if number.count == 0 {
            return self.take_long_number(rest);
        }
        let token = Token {
            kind: TokenKind::Number {
                value: number.value,
            },
            start: self.place + number.blanks as u64,
            end: self.place + number.count as u64,
        };
        let taken = self.parser.take_number(&token, number.value);
        self.go_on(taken, rest, number.count, true)
    }

    /// Takes the size, the number or the label at the front, of any form; returns 0 if none is found.
    #[inline(always)]
    fn take_long_amount(&mut self, rest: &[u8]) -> Result<usize, TokenFault>
        requires ready { MayGoOn self.old.lexer self.old.place rest.now }
        ensures ahead { IfOk result (λ n. GoesAhead self.old rest.now self.new n) }
        ensures fault { IfErr result (λ f. IsFaultAhead self.old rest.now f) }
    {
        match self.take_long_size(rest) {
            Ok(0) => self.take_rare(rest),
            done => done,
        }
    }

    /// Takes the size at the front, or the number; returns 0 if none is found.
    #[inline(always)]
    fn take_amount(&mut self, rest: &[u8]) -> Result<usize, TokenFault>
        requires ready { MayGoOn self.old.lexer self.old.place rest.now }
        ensures ahead { IfOk result (λ n. GoesAhead self.old rest.now self.new n) }
        ensures fault { IfErr result (λ f. IsFaultAhead self.old rest.now f) }
    {
        let size = size_ahead(rest);
        if size.count == 0 {
            return self.take_long_amount(rest);
        }
        let token = Token {
            kind: TokenKind::Size { value: size.value },
            start: self.place + size.blanks as u64,
            end: self.place + size.count as u64,
        };
        let taken = self.parser.take_size(&token, size.value);
        self.go_on(taken, rest, size.count, true)
    }

    /// Takes the number at the front, in this state alone, so that the compiler knows what it means there.
    #[inline(always)]
    fn take_number_in(&mut self, rest: &[u8], state: State) -> Result<usize, TokenFault>
        requires ready { MayGoOn self.old.lexer self.old.place rest.now }
        ensures ahead { IfOk result (λ n. GoesAhead self.old rest.now self.new n) }
        ensures fault { IfErr result (λ f. IsFaultAhead self.old rest.now f) }
    {
        if self.parser.state != state {
            return Ok(0);
        }
        self.take_number(rest)
    }

    /// Takes the duration at the front, in this state alone.
    #[inline(always)]
    fn take_duration_in(&mut self, rest: &[u8], state: State) -> Result<usize, TokenFault>
        requires ready { MayGoOn self.old.lexer self.old.place rest.now }
        ensures ahead { IfOk result (λ n. GoesAhead self.old rest.now self.new n) }
        ensures fault { IfErr result (λ f. IsFaultAhead self.old rest.now f) }
    {
        if self.parser.state != state {
            return Ok(0);
        }
        self.take_duration(rest)
    }

    /// Takes the size or the number at the front, in this state alone.
    #[inline(always)]
    fn take_amount_in(&mut self, rest: &[u8], state: State) -> Result<usize, TokenFault>
        requires ready { MayGoOn self.old.lexer self.old.place rest.now }
        ensures ahead { IfOk result (λ n. GoesAhead self.old rest.now self.new n) }
        ensures fault { IfErr result (λ f. IsFaultAhead self.old rest.now f) }
    {
        if self.parser.state != state {
            return Ok(0);
        }
        self.take_amount(rest)
    }

    /// Takes the label after these blanks; returns 0 if none is found.
    #[inline(always)]
    fn take_label(&mut self, rest: &[u8], blanks: usize) -> Result<usize, TokenFault>
        requires ready { MayGoOn self.old.lexer self.old.place rest.now }
        requires blanks { AreBlanks rest.now blanks }
        ensures ahead { IfOk result (λ n. GoesAhead self.old rest.now self.new n) }
        ensures fault { IfErr result (λ f. IsFaultAhead self.old rest.now f) }
    {
        let end = label_ahead(rest, blanks);
        if end == 0 {
            return Ok(0);
        }
        let at = self.place + blanks as u64;
        let taken = self.parser.take_label(&rest[blanks..end], at);
        self.go_on(taken, rest, end, true)
    }

    /// Takes a colon at the front; returns 0 if it is not there.
    #[inline(always)]
    fn take_colon(&mut self, rest: &[u8]) -> Result<usize, TokenFault>
        requires ready { MayGoOn self.old.lexer self.old.place rest.now }
        ensures ahead { IfOk result (λ n. GoesAhead self.old rest.now self.new n) }
        ensures fault { IfErr result (λ f. IsFaultAhead self.old rest.now f) }
    {
        if !begins_with_colon(rest) {
            return Ok(0);
        }
        let token = Token {
            kind: TokenKind::Colon,
            start: self.place,
            end: self.place + 1,
        };
        let taken = self.parser.take_colon(&token);
        self.go_on(taken, rest, 1, false)
    }

    /// Takes this word of an option, given with the space before it, and the number after it.
    #[inline(always)]
    fn take_setting(
        &mut self,
        rest: &[u8],
        spaced: &[u8],
        kind: TokenKind,
        at: State,
        then: State,
    ) -> Result<Took, TokenFault>
        requires ready { MayGoOn self.old.lexer self.old.place rest.now }
        requires space { take 1 spaced.now ≡ 32 ∷ [] }
        requires word { is_word (drop 1 spaced.now) ≡ true }
        requires short { length spaced.now ≤ 65 }
        requires kind { word_kind (drop 1 spaced.now) ≡ kind }
        requires group { IsOption kind }
        ensures ahead { IfOk result (λ t. GoesAhead self.old rest.now self.new t.count) }
        ensures fault { IfErr result (λ f. IsFaultAhead self.old rest.now f) }
    {
        if self.parser.state != at {
            return Ok(Took {
                count: 0,
                whole: false,
            });
        }
        match self.take_option(rest, spaced, kind) {
            Ok(0) => Ok(Took {
                count: 0,
                whole: false,
            }),
            Ok(taken) => match self.take_number_in(&rest[taken..], then) {
                Ok(more) => Ok(Took {
                    count: taken + more,
                    whole: more > 0,
                }),
                Err(fault) => Err(fault),
            },
            Err(fault) => Err(fault),
        }
    }

    /// Takes `cpu` and `nic`, each with its number.
    #[inline(always)]
    fn take_places(&mut self, rest: &[u8], path: Path) -> Result<Took, TokenFault>
        requires ready { MayGoOn self.old.lexer self.old.place rest.now }
        ensures ahead { IfOk result (λ t. GoesAhead self.old rest.now self.new t.count) }
        ensures fault { IfErr result (λ f. IsFaultAhead self.old rest.now f) }
    {
        match self.take_setting(rest, b" cpu", TokenKind::Cpu, path.option, path.place) {
            Ok(taken) => {
                if !taken.whole {
                    return Ok(taken);
                }
                match self.take_setting(
                    &rest[taken.count..],
                    b" nic",
                    TokenKind::Nic,
                    path.option,
                    path.place,
                ) {
                    Ok(more) => Ok(Took {
                        count: taken.count + more.count,
                        whole: more.whole,
                    }),
                    Err(fault) => Err(fault),
                }
            }
            Err(fault) => Err(fault),
        }
    }

    /// Takes `tag`, `cpu` and `nic`, each with its number.
    #[inline(always)]
    fn take_settings(&mut self, rest: &[u8], path: Path) -> Result<Took, TokenFault>
        requires ready { MayGoOn self.old.lexer self.old.place rest.now }
        ensures ahead { IfOk result (λ t. GoesAhead self.old rest.now self.new t.count) }
        ensures fault { IfErr result (λ f. IsFaultAhead self.old rest.now f) }
    {
        match self.take_setting(rest, b" tag", TokenKind::Tag, path.option, path.tag) {
            Ok(taken) => {
                if !taken.whole {
                    return Ok(taken);
                }
                match self.take_places(&rest[taken.count..], path) {
                    Ok(more) => Ok(Took {
                        count: taken.count + more.count,
                        whole: more.whole,
                    }),
                    Err(fault) => Err(fault),
                }
            }
            Err(fault) => Err(fault),
        }
    }

    /// Takes `to` or `from`, given with the space before it, and the number after it.
    #[inline(always)]
    fn take_target(
        &mut self,
        rest: &[u8],
        spaced: &[u8],
        kind: TokenKind,
        at: State,
        then: State,
    ) -> Result<Took, TokenFault>
        requires ready { MayGoOn self.old.lexer self.old.place rest.now }
        requires space { take 1 spaced.now ≡ 32 ∷ [] }
        requires word { is_word (drop 1 spaced.now) ≡ true }
        requires short { length spaced.now ≤ 65 }
        requires kind { word_kind (drop 1 spaced.now) ≡ kind }
        requires group { IsPlain kind }
        ensures ahead { IfOk result (λ t. GoesAhead self.old rest.now self.new t.count) }
        ensures fault { IfErr result (λ f. IsFaultAhead self.old rest.now f) }
    {
        if self.parser.state != at {
            return Ok(Took {
                count: 0,
                whole: false,
            });
        }
        match self.take_plain(rest, spaced, kind) {
            Ok(0) => Ok(Took {
                count: 0,
                whole: false,
            }),
            Ok(taken) => match self.take_number_in(&rest[taken..], then) {
                Ok(more) => Ok(Took {
                    count: taken + more,
                    whole: more > 0,
                }),
                Err(fault) => Err(fault),
            },
            Err(fault) => Err(fault),
        }
    }

    /// Takes the target or the source of a message, and its options.
    #[inline(always)]
    fn take_path(
        &mut self,
        rest: &[u8],
        spaced: &[u8],
        kind: TokenKind,
        path: Path,
    ) -> Result<Took, TokenFault>
        requires ready { MayGoOn self.old.lexer self.old.place rest.now }
        requires space { take 1 spaced.now ≡ 32 ∷ [] }
        requires word { is_word (drop 1 spaced.now) ≡ true }
        requires short { length spaced.now ≤ 65 }
        requires kind { word_kind (drop 1 spaced.now) ≡ kind }
        requires group { IsPlain kind }
        ensures ahead { IfOk result (λ t. GoesAhead self.old rest.now self.new t.count) }
        ensures fault { IfErr result (λ f. IsFaultAhead self.old rest.now f) }
    {
        match self.take_target(rest, spaced, kind, path.word, path.peer) {
            Ok(taken) => {
                if !taken.whole {
                    return Ok(taken);
                }
                match self.take_settings(&rest[taken.count..], path) {
                    Ok(more) => Ok(Took {
                        count: taken.count + more.count,
                        whole: more.whole,
                    }),
                    Err(fault) => Err(fault),
                }
            }
            Err(fault) => Err(fault),
        }
    }

    /// Takes the size of a message, and what usually follows it.
    #[inline(always)]
    fn take_message(
        &mut self,
        rest: &[u8],
        spaced: &[u8],
        kind: TokenKind,
        path: Path,
    ) -> Result<Took, TokenFault>
        requires ready { MayGoOn self.old.lexer self.old.place rest.now }
        requires space { take 1 spaced.now ≡ 32 ∷ [] }
        requires word { is_word (drop 1 spaced.now) ≡ true }
        requires short { length spaced.now ≤ 65 }
        requires kind { word_kind (drop 1 spaced.now) ≡ kind }
        requires group { IsPlain kind }
        ensures ahead { IfOk result (λ t. GoesAhead self.old rest.now self.new t.count) }
        ensures fault { IfErr result (λ f. IsFaultAhead self.old rest.now f) }
    {
        match self.take_amount_in(rest, path.size) {
            Ok(0) => Ok(Took {
                count: 0,
                whole: false,
            }),
            Ok(taken) => match self.take_path(&rest[taken..], spaced, kind, path) {
                Ok(more) => Ok(Took {
                    count: taken + more.count,
                    whole: more.whole,
                }),
                Err(fault) => Err(fault),
            },
            Err(fault) => Err(fault),
        }
    }

    /// Takes the duration of a calc, and its cpu.
    #[inline(always)]
    fn take_time(&mut self, rest: &[u8]) -> Result<Took, TokenFault>
        requires ready { MayGoOn self.old.lexer self.old.place rest.now }
        ensures ahead { IfOk result (λ t. GoesAhead self.old rest.now self.new t.count) }
        ensures fault { IfErr result (λ f. IsFaultAhead self.old rest.now f) }
    {
        match self.take_duration_in(rest, State::Calc1) {
            Ok(0) => Ok(Took {
                count: 0,
                whole: false,
            }),
            Ok(taken) => match self.take_setting(
                &rest[taken..],
                b" cpu",
                TokenKind::Cpu,
                State::Calc2,
                State::Calc3,
            ) {
                Ok(more) => Ok(Took {
                    count: taken + more.count,
                    whole: more.whole,
                }),
                Err(fault) => Err(fault),
            },
            Err(fault) => Err(fault),
        }
    }

    /// Takes the two slots of a note.
    #[inline(always)]
    fn take_slots(&mut self, rest: &[u8]) -> Result<Took, TokenFault>
        requires ready { MayGoOn self.old.lexer self.old.place rest.now }
        ensures ahead { IfOk result (λ t. GoesAhead self.old rest.now self.new t.count) }
        ensures fault { IfErr result (λ f. IsFaultAhead self.old rest.now f) }
    {
        match self.take_number_in(rest, State::Note1) {
            Ok(0) => Ok(Took {
                count: 0,
                whole: false,
            }),
            Ok(taken) => match self.take_target(
                &rest[taken..],
                b" to",
                TokenKind::To,
                State::Note2,
                State::Note3,
            ) {
                Ok(more) => Ok(Took {
                    count: taken + more.count,
                    whole: more.whole,
                }),
                Err(fault) => Err(fault),
            },
            Err(fault) => Err(fault),
        }
    }

    /// Takes `calc` after these blanks, and what usually follows it.
    #[inline(always)]
    fn take_calc(&mut self, rest: &[u8], blanks: usize) -> Result<usize, TokenFault>
        requires ready { MayGoOn self.old.lexer self.old.place rest.now }
        requires blanks { AreBlanks rest.now blanks }
        ensures ahead { IfOk result (λ n. GoesAhead self.old rest.now self.new n) }
        ensures fault { IfErr result (λ f. IsFaultAhead self.old rest.now f) }
    {
        match self.take_action(rest, blanks, b"calc", TokenKind::Calc) {
            Ok(0) => Ok(0),
            Ok(taken) => match self.take_time(&rest[taken..]) {
                Ok(more) => Ok(taken + more.count),
                Err(fault) => Err(fault),
            },
            Err(fault) => Err(fault),
        }
    }

    /// Takes `send` after these blanks, and what usually follows it.
    #[inline(always)]
    fn take_send(&mut self, rest: &[u8], blanks: usize) -> Result<usize, TokenFault>
        requires ready { MayGoOn self.old.lexer self.old.place rest.now }
        requires blanks { AreBlanks rest.now blanks }
        ensures ahead { IfOk result (λ n. GoesAhead self.old rest.now self.new n) }
        ensures fault { IfErr result (λ f. IsFaultAhead self.old rest.now f) }
    {
        match self.take_action(rest, blanks, b"send", TokenKind::Send) {
            Ok(0) => Ok(0),
            Ok(taken) => match self.take_message(&rest[taken..], b" to", TokenKind::To, SEND) {
                Ok(more) => Ok(taken + more.count),
                Err(fault) => Err(fault),
            },
            Err(fault) => Err(fault),
        }
    }

    /// Takes `recv` after these blanks, and what usually follows it.
    #[inline(always)]
    fn take_recv(&mut self, rest: &[u8], blanks: usize) -> Result<usize, TokenFault>
        requires ready { MayGoOn self.old.lexer self.old.place rest.now }
        requires blanks { AreBlanks rest.now blanks }
        ensures ahead { IfOk result (λ n. GoesAhead self.old rest.now self.new n) }
        ensures fault { IfErr result (λ f. IsFaultAhead self.old rest.now f) }
    {
        match self.take_action(rest, blanks, b"recv", TokenKind::Recv) {
            Ok(0) => Ok(0),
            Ok(taken) => match self.take_message(&rest[taken..], b" from", TokenKind::From, RECV) {
                Ok(more) => Ok(taken + more.count),
                Err(fault) => Err(fault),
            },
            Err(fault) => Err(fault),
        }
    }

    /// Takes the label at the front; returns 0 if none is found.
    #[inline(always)]
    fn take_earlier(&mut self, rest: &[u8]) -> Result<usize, TokenFault>
        requires ready { MayGoOn self.old.lexer self.old.place rest.now }
        ensures ahead { IfOk result (λ n. GoesAhead self.old rest.now self.new n) }
        ensures fault { IfErr result (λ f. IsFaultAhead self.old rest.now f) }
    {
        self.take_label(rest, blanks_ahead(rest))
    }

    /// Takes a verb of a dependency after these blanks, and what usually follows it.
    #[inline(always)]
    fn take_dependency(
        &mut self,
        rest: &[u8],
        blanks: usize,
        word: &[u8],
        kind: TokenKind,
    ) -> Result<usize, TokenFault>
        requires ready { MayGoOn self.old.lexer self.old.place rest.now }
        requires blanks { AreBlanks rest.now blanks }
        requires word { is_word word.now ≡ true }
        requires short { length word.now ≤ run_limit }
        requires kind { word_kind word.now ≡ kind }
        requires group { IsVerb kind }
        ensures ahead { IfOk result (λ n. GoesAhead self.old rest.now self.new n) }
        ensures fault { IfErr result (λ f. IsFaultAhead self.old rest.now f) }
    {
        match self.take_verb(rest, blanks, word, kind) {
            Ok(0) => Ok(0),
            Ok(taken) => match self.take_earlier(&rest[taken..]) {
                Ok(more) => Ok(taken + more),
                Err(fault) => Err(fault),
            },
            Err(fault) => Err(fault),
        }
    }

    /// Takes a verb of a note after these blanks, and what usually follows it.
    #[inline(always)]
    fn take_note(
        &mut self,
        rest: &[u8],
        blanks: usize,
        word: &[u8],
        kind: TokenKind,
    ) -> Result<usize, TokenFault>
        requires ready { MayGoOn self.old.lexer self.old.place rest.now }
        requires blanks { AreBlanks rest.now blanks }
        requires word { is_word word.now ≡ true }
        requires short { length word.now ≤ run_limit }
        requires kind { word_kind word.now ≡ kind }
        requires group { IsVerb kind }
        ensures ahead { IfOk result (λ n. GoesAhead self.old rest.now self.new n) }
        ensures fault { IfErr result (λ f. IsFaultAhead self.old rest.now f) }
    {
        match self.take_verb(rest, blanks, word, kind) {
            Ok(0) => Ok(0),
            Ok(taken) => match self.take_slots(&rest[taken..]) {
                Ok(more) => Ok(taken + more.count),
                Err(fault) => Err(fault),
            },
            Err(fault) => Err(fault),
        }
    }

    /// Takes the reserved word after these blanks, by its first and third byte, and what usually follows it; returns 0
    /// if none is there.
    #[inline(always)]
    fn take_word(
        &mut self,
        rest: &[u8],
        blanks: usize,
        first: u8,
        third: u8,
    ) -> Result<usize, TokenFault>
        requires ready { MayGoOn self.old.lexer self.old.place rest.now }
        requires blanks { AreBlanks rest.now blanks }
        ensures ahead { IfOk result (λ n. GoesAhead self.old rest.now self.new n) }
        ensures fault { IfErr result (λ f. IsFaultAhead self.old rest.now f) }
    {
        match (first, third) {
            (b'c', b'u') => self.take_option(rest, b" cpu", TokenKind::Cpu),
            (b'c', _) => self.take_calc(rest, blanks),
            (b's', _) => self.take_send(rest, blanks),
            (b'r', b'q') => self.take_dependency(rest, blanks, b"requires", TokenKind::Requires),
            (b'r', _) => self.take_recv(rest, blanks),
            (b't', b'g') => self.take_option(rest, b" tag", TokenKind::Tag),
            (b'n', _) => self.take_option(rest, b" nic", TokenKind::Nic),
            (b'i', _) => self.take_dependency(rest, blanks, b"irequires", TokenKind::Irequires),
            (b'm', _) => self.take_note(rest, blanks, b"moves", TokenKind::Moves),
            (b'a', _) => self.take_note(rest, blanks, b"adds", TokenKind::Adds),
            _ => Ok(0),
        }
    }

    /// Takes the label after these blanks, and a colon directly after it; returns 0 if no label is found.
    #[inline(always)]
    fn take_labelled(&mut self, rest: &[u8], blanks: usize) -> Result<usize, TokenFault>
        requires ready { MayGoOn self.old.lexer self.old.place rest.now }
        requires blanks { AreBlanks rest.now blanks }
        ensures ahead { IfOk result (λ n. GoesAhead self.old rest.now self.new n) }
        ensures fault { IfErr result (λ f. IsFaultAhead self.old rest.now f) }
    {
        match self.take_label(rest, blanks) {
            Ok(0) => Ok(0),
            Ok(taken) => match self.take_colon(&rest[taken..]) {
                Ok(more) => Ok(taken + more),
                Err(fault) => Err(fault),
            },
            Err(fault) => Err(fault),
        }
    }

    /// Takes the label after these blanks, and a colon directly after it. Returns 0 if no label is found, or if it
    /// begins with a letter that also begins reserved words.
    #[inline(always)]
    fn take_subject(&mut self, rest: &[u8], blanks: usize) -> Result<usize, TokenFault>
        requires ready { MayGoOn self.old.lexer self.old.place rest.now }
        requires blanks { AreBlanks rest.now blanks }
        requires some { blanks < length rest.now }
        ensures ahead { IfOk result (λ n. GoesAhead self.old rest.now self.new n) }
        ensures fault { IfErr result (λ f. IsFaultAhead self.old rest.now f) }
    {
        match rest[blanks] {
            b'a' | b'c' | b'i' | b'm' | b'n' | b'r' | b's' | b't' => Ok(0),
            _ => self.take_labelled(rest, blanks),
        }
    }

    /// Takes the reserved word at the front, and what usually follows it, or the label; returns 0 if neither is found.
    #[inline(always)]
    fn take_phrase(&mut self, rest: &[u8]) -> Result<usize, TokenFault>
        requires ready { MayGoOn self.old.lexer self.old.place rest.now }
        ensures ahead { IfOk result (λ n. GoesAhead self.old rest.now self.new n) }
        ensures fault { IfErr result (λ f. IsFaultAhead self.old rest.now f) }
    {
        let blanks = blanks_ahead(rest);
        if rest.len() - blanks < 3 {
            return Ok(0);
        }
        match self.take_word(rest, blanks, rest[blanks], rest[blanks + 2]) {
            Ok(0) => self.take_rare(rest),
            done => done,
        }
    }

    /// Takes whole tokens from the front of `rest`, and returns the number of their bytes. It is 0, and nothing is
    /// taken, if other tokens follow, if they may continue after the piece, or if a run or a comment is open.
    #[inline(always)]
    pub fn take_ahead(&mut self, rest: &[u8]) -> Result<usize, TokenFault>
        requires place { self.old.place + length rest.now < 2 ^ 64 }
        requires same { self.old.lexer.place ≡ self.old.place }
        requires apart { self.old.lexer.ends_run ≡ true → begins_run rest.now ≡ false }
        ensures ahead { IfOk result (λ n. GoesAhead self.old rest.now self.new n) }
        ensures fault { IfErr result (λ f. IsFaultAhead self.old rest.now f) }
    {
        if !self.lexer.is_between() {
            return Ok(0);
        }
        let blanks = blanks_ahead(rest);
        if rest.len() - blanks < 3 {
            return Ok(0);
        }
        // a run byte above `9` is a letter or `_`
        if rest[blanks] <= b'9' {
            return self.take_number(rest);
        }
        match self.take_subject(rest, blanks) {
            Ok(taken) => match self.take_phrase(&rest[taken..]) {
                Ok(more) => Ok(taken + more),
                Err(fault) => Err(fault),
            },
            Err(fault) => Err(fault),
        }
    }
}
