//! How the bytes of a piece change what is open.
ghost use Rattle.std.specs.Prelude.{◌≡◌, ℕ, ◌+◌, ◌<◌, ◌^◌, true, false, length, IfSome};
ghost use Rattle.goal_lexer.specs.declared.tokens.Token.{Token};
ghost use Rattle.goal_lexer.specs.Sound.{IsSound, IsRun};
ghost use Rattle.goal_lexer.specs.Steps.{StepsTo, StopsAt};
ghost use Rattle.goal_lexer.specs.Scan.{form_with};
ghost use Rattle.goal_lexer.specs.Pieces.{sign_kind};

use crate::bytes::{begins_word, is_digit, is_run_byte};
use crate::labels::Label;
use crate::mode::{Form, Mode};
use crate::stretches::{count_blanks, take_stretch};
use crate::tokens::{Token, TokenKind};
use crate::whole::whole_run;
use crate::words::run_kind;
use goal_limits::{MAX_RUN_BYTES, is_blank};

/// What one byte ended.
pub(crate) enum ByteEnd {
    /// It ended no token.
    Nothing,
    /// It ended the run before it, and is not taken.
    Run,
    /// It is a sign.
    Sign,
    /// No token, blank or comment begins at this place.
    Fault(u64),
}

/// What a piece ended.
pub(crate) enum PieceEnd {
    /// It ended no token, and is taken whole.
    Piece,
    /// It ended a run, after this number of bytes.
    Run(usize),
    /// It ended with a sign, after this number of bytes with the sign.
    Sign(usize),
    /// No token, blank or comment begins at this place.
    Fault(u64),
}

/// Writes the token of a sign at this place.
fn sign(kind: TokenKind, place: u64, token: &mut Token) -> ByteEnd
    requires { place + 1 < 2 ^ 64 }
    ensures step { result ≡ ByteEnd.Sign }
    ensures token { token.new ≡ record { kind = kind; start = place; end = place + 1 } }
{
    token.kind = kind;
    token.start = place;
    token.end = place + 1;
    ByteEnd::Sign
}

/// Takes a byte while nothing is open.
fn begin_at(mode: &mut Mode, place: u64, byte: u8, token: &mut Token) -> ByteEnd
    requires room { place + 1 < 2 ^ 64 }
    requires between { mode.old ≡ Mode.Between }
    ensures { StepsTo result Mode.Between place byte mode.new token.new }
{
    if begins_word(byte) {
        *mode = Mode::Run {
            start: place,
            bytes: Label::of_byte(byte),
            form: Form::Word,
        };
        ByteEnd::Nothing
    } else if is_digit(byte) {
        *mode = Mode::Run {
            start: place,
            bytes: Label::of_byte(byte),
            form: Form::Digits,
        };
        ByteEnd::Nothing
    } else if is_blank(byte) {
        ByteEnd::Nothing
    } else if byte == b'{' {
        sign(TokenKind::Open, place, token)
    } else if byte == b'}' {
        sign(TokenKind::Close, place, token)
    } else if byte == b':' {
        sign(TokenKind::Colon, place, token)
    } else if byte == b'/' {
        *mode = Mode::Slash { start: place };
        ByteEnd::Nothing
    } else {
        *mode = Mode::Failed { at: place };
        ByteEnd::Fault(place)
    }
}

/// Returns the form of a run extended by a run byte, if it has one.
fn form_with(form: Form, byte: u8) -> Option<Form>
    ensures { result ≡ form_with form byte }
{
    match form {
        Form::Word => Some(Form::Word),
        Form::Digits if is_digit(byte) => Some(Form::Digits),
        Form::Digits if byte == b'b' => Some(Form::Sized),
        Form::Digits => None,
        Form::Sized => None,
    }
}

/// Takes a byte at this place while a run is open. It ends the run or extends it; otherwise the fault is at the
/// beginning of the run.
#[cold]
fn take_in_run(mode: &mut Mode, place: u64, byte: u8, token: &mut Token) -> ByteEnd
    requires { IsRun mode.old }
    ensures { StepsTo result mode.old place byte mode.new token.new }
{
    let Mode::Run { start, bytes, form } = mode else {
        unreachable!()
    };
    let start = *start;
    if !is_run_byte(byte) {
        run_kind(bytes.as_bytes(), *form, &mut token.kind);
        token.start = start;
        token.end = place;
        *mode = Mode::Between;
        return ByteEnd::Run;
    }
    match form_with(*form, byte) {
        Some(longer) if bytes.len() < MAX_RUN_BYTES => {
            bytes.push(byte);
            *form = longer;
            ByteEnd::Nothing
        }
        _ => {
            *mode = Mode::Failed { at: start };
            ByteEnd::Fault(start)
        }
    }
}

/// Takes the byte after a `/` at `start`. If the two begin a comment, it is open from now on; otherwise the fault is at
/// the `/`. The byte's own place does not matter.
#[cold]
fn take_behind_slash(mode: &mut Mode, start: u64, byte: u8) -> ByteEnd
    ensures { (place : ℕ) (token : Token) → StepsTo result (Mode.Slash start) place byte mode.new token }
{
    if byte == b'/' {
        *mode = Mode::LineComment { start };
        ByteEnd::Nothing
    } else if byte == b'*' {
        *mode = Mode::BlockComment {
            start,
            closes: false,
        };
        ByteEnd::Nothing
    } else {
        *mode = Mode::Failed { at: start };
        ByteEnd::Fault(start)
    }
}

/// Takes a byte at this place while a run or a comment may be open. Most runs and all blanks are taken without it.
#[cold]
fn take_open_byte(mode: &mut Mode, place: u64, byte: u8, token: &mut Token) -> ByteEnd
    requires { place + 1 < 2 ^ 64 }
    ensures { StepsTo result mode.old place byte mode.new token.new }
{
    match mode {
        Mode::Between => begin_at(mode, place, byte, token),
        Mode::Run { .. } => take_in_run(mode, place, byte, token),
        Mode::Slash { start } => {
            let start = *start;
            take_behind_slash(mode, start, byte)
        }
        Mode::LineComment { .. } => {
            if byte == b'\n' {
                *mode = Mode::Between;
            }
            ByteEnd::Nothing
        }
        Mode::BlockComment { closes, .. } => {
            if *closes && byte == b'/' {
                *mode = Mode::Between;
            } else {
                *closes = byte == b'*';
            }
            ByteEnd::Nothing
        }
        Mode::Failed { at } => ByteEnd::Fault(*at),
    }
}

/// Takes a byte at this place, and writes the token that it ends to `token`.
#[inline(always)]
fn take_byte(mode: &mut Mode, place: u64, byte: u8, token: &mut Token) -> ByteEnd
    requires { place + 1 < 2 ^ 64 }
    ensures { StepsTo result mode.old place byte mode.new token.new }
{
    match mode {
        Mode::Between => begin_at(mode, place, byte, token),
        _ => take_open_byte(mode, place, byte, token),
    }
}

/// Writes the kind of the sign that the byte is, and returns whether it is one.
#[inline(always)]
fn sign_kind(byte: u8, kind: &mut TokenKind) -> bool
    ensures sign { result ≡ true → sign_kind byte ≡ Some kind.new }
    ensures other { result ≡ false → sign_kind byte ≡ None }
{
    match byte {
        b':' => *kind = TokenKind::Colon,
        b'{' => *kind = TokenKind::Open,
        b'}' => *kind = TokenKind::Close,
        _ => return false,
    }
    true
}

/// Takes the blanks at the front of a piece that begins at this place, and the token after them, while nothing is open.
/// The token must end inside the piece, and is written to `token`. A piece of blanks only is taken whole. For any other
/// piece, and for a number or size of more than 19 digits, it returns `None`.
#[inline(always)]
fn whole_token(place: u64, piece: &[u8], token: &mut Token) -> Option<PieceEnd>
    requires { place + length piece.now < 2 ^ 64 }
    ensures { IfSome result (λ stop. StopsAt stop Mode.Between place piece.now Mode.Between token.new) }
{
    let blanks = count_blanks(piece);
    if blanks == piece.len() {
        return Some(PieceEnd::Piece);
    }
    let at = place + blanks as u64;
    if let Some(count) = whole_run(at, &piece[blanks..], token) {
        return Some(PieceEnd::Run(blanks + count));
    }
    if !sign_kind(piece[blanks], &mut token.kind) {
        return None;
    }
    token.start = at;
    token.end = at + 1;
    Some(PieceEnd::Sign(blanks + 1))
}

/// Takes the bytes of a piece that begins at this place, up to the end of a token, and writes the token to `token`.
#[inline(always)]
pub(crate) fn take_piece(mode: &mut Mode, place: u64, piece: &[u8], token: &mut Token) -> PieceEnd
    requires room { place + length piece.now < 2 ^ 64 }
    requires sound { IsSound mode.old }
    ensures { StopsAt result mode.old place piece.now mode.new token.new }
{
    if let Mode::Between = mode {
        if let Some(stop) = whole_token(place, piece, token) {
            return stop;
        }
    }
    take_open_piece(mode, place, piece, token)
}

/// Does the same as [`take_piece`], whatever is open and wherever the token ends. Most tokens are taken without it.
#[cold]
fn take_open_piece(mode: &mut Mode, place: u64, piece: &[u8], token: &mut Token) -> PieceEnd
    requires room { place + length piece.now < 2 ^ 64 }
    requires sound { IsSound mode.old }
    ensures { StopsAt result mode.old place piece.now mode.new token.new }
{
    let mut taken = 0;
    while taken < piece.len() {
        taken += take_stretch(mode, &piece[taken..]);
        if taken == piece.len() {
            return PieceEnd::Piece;
        }
        if let Mode::Between = mode {
            if let Some(count) = whole_run(place + taken as u64, &piece[taken..], token) {
                return PieceEnd::Run(taken + count);
            }
        }
        match take_byte(mode, place + taken as u64, piece[taken], token) {
            ByteEnd::Nothing => taken += 1,
            ByteEnd::Run => return PieceEnd::Run(taken),
            ByteEnd::Sign => return PieceEnd::Sign(taken + 1),
            ByteEnd::Fault(at) => return PieceEnd::Fault(at),
        }
    }
    PieceEnd::Piece
}
