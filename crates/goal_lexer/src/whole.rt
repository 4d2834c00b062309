//! Runs that end inside a piece.
ghost use Rattle.std.specs.Prelude.{◌+◌, ◌<◌, ◌^◌, length, IfSome};
ghost use Rattle.goal_lexer.specs.Whole.{IsWholeRun};

use crate::bytes::{begins_word, is_digit, is_run_byte};
use crate::numbers::{Leading, leading_digits};
use crate::stretches::count_run;
use crate::tokens::{Token, TokenKind};
use crate::words::word_kind;
use goal_limits::MAX_RUN_BYTES;

/// Returns the length of the word at the front of a piece, if it ends inside the piece, and writes its token.
#[inline(always)]
fn whole_word(place: u64, piece: &[u8], token: &mut Token) -> Option<usize>
    requires { place + length piece.now < 2 ^ 64 }
    ensures { IfSome result (λ count. IsWholeRun place piece.now count token.new) }
{
    let count = count_run(piece);
    if count == 0 || count == piece.len() || count > MAX_RUN_BYTES {
        return None;
    }
    if !begins_word(piece[0]) {
        return None;
    }
    word_kind(&piece[..count], &mut token.kind);
    token.start = place;
    token.end = place + count as u64;
    Some(count)
}

/// Returns the length of the number or size at the front of a piece, if it ends inside the piece and has at most 19
/// digits, and writes its token.
#[inline(always)]
fn whole_number(place: u64, piece: &[u8], token: &mut Token) -> Option<usize>
    requires { place + length piece.now < 2 ^ 64 }
    ensures { IfSome result (λ count. IsWholeRun place piece.now count token.new) }
{
    let Leading { count, value } = leading_digits(piece);
    if count == 0 || count == piece.len() {
        return None;
    }
    if !is_run_byte(piece[count]) {
        token.kind = TokenKind::Number { value };
        token.start = place;
        token.end = place + count as u64;
        return Some(count);
    }
    let size = count + 1;
    if piece[count] != b'b' || size == piece.len() || is_run_byte(piece[size]) {
        return None;
    }
    token.kind = TokenKind::Size { value };
    token.start = place;
    token.end = place + size as u64;
    Some(size)
}

/// Returns the length of the run at the front of a piece that begins at this place, if the run ends inside the piece
/// and is a token, and writes that token. Otherwise, and for a number or size of more than 19 digits, returns `None`.
#[inline(always)]
pub(crate) fn whole_run(place: u64, piece: &[u8], token: &mut Token) -> Option<usize>
    requires { place + length piece.now < 2 ^ 64 }
    ensures { IfSome result (λ count. IsWholeRun place piece.now count token.new) }
{
    match piece.first() {
        Some(byte) if is_digit(*byte) => whole_number(place, piece, token),
        Some(_) => whole_word(place, piece, token),
        None => None,
    }
}
