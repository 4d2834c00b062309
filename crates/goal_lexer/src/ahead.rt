//! The tokens at the front of a piece, while nothing is open.
//!
//! These functions look at tokens without taking them: a caller that finds what it expects takes all of it by one
//! [`crate::Lexer::go_on`]. They may miss a token that is there; [`crate::Lexer::next_token_into`] takes any token.
ghost use Rattle.std.specs.Prelude.{◌≡◌, ℕ, ◌+◌, ◌-◌, ◌<◌, ◌≤◌, true, false, [], ◌∷◌, length, take, drop, bytes_eq};
ghost use Rattle.goal_limits.specs.Limits.{run_limit};
ghost use Rattle.goal_lexer.specs.Ahead.{AreBlanks, is_word, IsAhead};
ghost use Rattle.goal_lexer.specs.Words.{word_kind};

use crate::bytes::{ends_reserved, is_digit, is_run_byte};
use crate::numbers::{Leading, leading_digits};
use crate::stretches::{count_blanks, count_run};
use crate::tokens::TokenKind;
use goal_limits::{MAX_RUN_BYTES, is_blank};

/// A number or a size at the front of a piece.
#[derive(Clone, Copy, Debug, PartialEq, Eq)]
pub struct Amount {
    /// The number of blanks before it.
    pub blanks: usize,
    /// The number of its bytes, with the blanks before it; 0 if none was found.
    pub count: usize,
    /// Its value.
    pub value: u64,
}

const NOT_FOUND: Amount = Amount {
    blanks: 0,
    count: 0,
    value: 0,
};

/// Does the same as [`blanks_ahead`], for any number of blanks.
#[inline(never)]
fn many_blanks(rest: &[u8]) -> usize
    ensures { AreBlanks rest.now result }
{
    count_blanks(rest)
}

/// Counts the blanks at the front. By contract, the bytes counted are blanks, but more may follow.
#[inline(always)]
pub fn blanks_ahead(rest: &[u8]) -> usize
    ensures { AreBlanks rest.now result }
{
    if rest.len() >= 2 && (rest[0] == b' ' || rest[0] == b'\n') && !is_blank(rest[1]) {
        return 1;
    }
    many_blanks(rest)
}

/// Returns whether two pieces begin with the same four bytes.
#[inline(always)]
pub fn begin_alike(one: &[u8], other: &[u8]) -> bool
    requires one { 4 ≤ length one.now }
    requires other { 4 ≤ length other.now }
    ensures { result ≡ bytes_eq (take 4 one.now) (take 4 other.now) }
{
    u32::from_le_bytes([one[0], one[1], one[2], one[3]])
        == u32::from_le_bytes([other[0], other[1], other[2], other[3]])
}

/// Returns whether a piece begins with these bytes. By contract, `true` means that it does; `false` says nothing.
#[inline(always)]
fn begins_with(rest: &[u8], word: &[u8]) -> bool
    requires { length word.now ≤ length rest.now }
    ensures { result ≡ true → take (length word.now) rest.now ≡ word.now }
{
    let mut at = 0;
    while word.len() - at >= 4 {
        if !begin_alike(&rest[at..], &word[at..]) {
            return false;
        }
        at += 4;
    }
    while at < word.len() {
        if rest[at] != word[at] {
            return false;
        }
        at += 1;
    }
    true
}

/// Returns the length of these blanks and the word after them, if the word is there and ends inside the piece, and
/// otherwise 0.
#[inline(always)]
pub fn word_ahead(rest: &[u8], blanks: usize, word: &[u8]) -> usize
    requires blanks { AreBlanks rest.now blanks }
    requires word { is_word word.now ≡ true }
    requires short { length word.now ≤ run_limit }
    ensures within { result ≤ length rest.now }
    ensures ahead { 0 < result → (place : ℕ) → IsAhead place rest.now result true (record { kind = word_kind word.now; start = place + blanks; end = place + result } ∷ []) }
{
    let end = blanks + word.len();
    if end >= rest.len() || !begins_with(&rest[blanks..], word) {
        return 0;
    }
    if is_run_byte(rest[end]) {
        return 0;
    }
    end
}

/// Returns the length of `spaced`, which is a space and a word, if the piece begins with it and the word ends inside
/// the piece, and otherwise 0.
#[inline(always)]
pub fn spaced_word_ahead(rest: &[u8], spaced: &[u8]) -> usize
    requires space { take 1 spaced.now ≡ 32 ∷ [] }
    requires word { is_word (drop 1 spaced.now) ≡ true }
    requires short { length spaced.now ≤ 65 }
    ensures within { result ≤ length rest.now }
    ensures ahead { 0 < result → (place : ℕ) → IsAhead place rest.now result true (record { kind = word_kind (drop 1 spaced.now); start = place + 1; end = place + result } ∷ []) }
{
    let end = spaced.len();
    if end >= rest.len() || !begins_with(rest, spaced) {
        return 0;
    }
    // most words are followed by a space
    if rest[end] != b' ' && is_run_byte(rest[end]) {
        return 0;
    }
    end
}

/// Returns whether the piece begins with a colon. By contract, `true` means that it does; `false` says nothing.
#[inline(always)]
pub fn begins_with_colon(rest: &[u8]) -> bool
    ensures { result ≡ true → (place : ℕ) → IsAhead place rest.now 1 false (record { kind = TokenKind.Colon; start = place; end = place + 1 } ∷ []) }
{
    !rest.is_empty() && rest[0] == b':'
}

/// Finds a number of at most 19 digits at the front, after any blanks, that ends inside the piece.
#[inline(always)]
pub fn long_number_ahead(rest: &[u8]) -> Amount
    ensures within { result.count ≤ length rest.now }
    ensures blanks { result.blanks ≤ result.count }
    ensures ahead { 0 < result.count → (place : ℕ) → IsAhead place rest.now result.count true (record { kind = TokenKind.Number result.value; start = place + result.blanks; end = place + result.count } ∷ []) }
{
    let blanks = blanks_ahead(rest);
    let Leading { count, value } = leading_digits(&rest[blanks..]);
    let end = blanks + count;
    if count == 0 || end >= rest.len() || is_run_byte(rest[end]) {
        return NOT_FOUND;
    }
    Amount {
        blanks,
        count: end,
        value,
    }
}

/// Finds a number of one to four digits after a space, at the front, that ends inside the piece. Most numbers are such.
#[inline(always)]
pub fn number_ahead(rest: &[u8]) -> Amount
    ensures within { result.count ≤ length rest.now }
    ensures blanks { result.blanks ≤ result.count }
    ensures ahead { 0 < result.count → (place : ℕ) → IsAhead place rest.now result.count true (record { kind = TokenKind.Number result.value; start = place + result.blanks; end = place + result.count } ∷ []) }
{
    if rest.len() < 6 || rest[0] != b' ' || !is_digit(rest[1]) {
        return NOT_FOUND;
    }
    let ones = u64::from(rest[1] - b'0');
    if !is_run_byte(rest[2]) {
        return Amount {
            blanks: 1,
            count: 2,
            value: ones,
        };
    }
    if !is_digit(rest[2]) {
        return NOT_FOUND;
    }
    let tens = ones * 10 + u64::from(rest[2] - b'0');
    if !is_run_byte(rest[3]) {
        return Amount {
            blanks: 1,
            count: 3,
            value: tens,
        };
    }
    if !is_digit(rest[3]) {
        return NOT_FOUND;
    }
    let hundreds = tens * 10 + u64::from(rest[3] - b'0');
    if !is_run_byte(rest[4]) {
        return Amount {
            blanks: 1,
            count: 4,
            value: hundreds,
        };
    }
    if !is_digit(rest[4]) || is_run_byte(rest[5]) {
        return NOT_FOUND;
    }
    let value = hundreds * 10 + u64::from(rest[4] - b'0');
    Amount {
        blanks: 1,
        count: 5,
        value,
    }
}

/// Finds a size of at most 19 digits at the front, after any blanks, that ends inside the piece.
#[inline(always)]
pub fn long_size_ahead(rest: &[u8]) -> Amount
    ensures within { result.count ≤ length rest.now }
    ensures blanks { result.blanks ≤ result.count }
    ensures ahead { 0 < result.count → (place : ℕ) → IsAhead place rest.now result.count true (record { kind = TokenKind.Size result.value; start = place + result.blanks; end = place + result.count } ∷ []) }
{
    let blanks = blanks_ahead(rest);
    let Leading { count, value } = leading_digits(&rest[blanks..]);
    let mark = blanks + count;
    let end = mark + 1;
    if count == 0 || end >= rest.len() || rest[mark] != b'b' || is_run_byte(rest[end]) {
        return NOT_FOUND;
    }
    Amount {
        blanks,
        count: end,
        value,
    }
}

/// Finds a size of one digit after a space, at the front, that ends inside the piece. Many sizes are such.
#[inline(always)]
pub fn size_ahead(rest: &[u8]) -> Amount
    ensures within { result.count ≤ length rest.now }
    ensures blanks { result.blanks ≤ result.count }
    ensures ahead { 0 < result.count → (place : ℕ) → IsAhead place rest.now result.count true (record { kind = TokenKind.Size result.value; start = place + result.blanks; end = place + result.count } ∷ []) }
{
    if rest.len() >= 4
        && rest[0] == b' '
        && is_digit(rest[1])
        && rest[2] == b'b'
        && !is_run_byte(rest[3])
    {
        let value = u64::from(rest[1] - b'0');
        return Amount {
            blanks: 1,
            count: 3,
            value,
        };
    }
    NOT_FOUND
}

/// Returns the length of these blanks and the label after them, if the label ends inside the piece and with a byte that
/// ends no reserved word, and otherwise 0.
#[inline(never)]
pub fn label_ahead(rest: &[u8], blanks: usize) -> usize
    requires blanks { AreBlanks rest.now blanks }
    ensures within { result ≤ length rest.now }
    ensures some { 0 < result → blanks < result }
    ensures short { result ≤ blanks + 64 }
    ensures ahead { 0 < result → (place : ℕ) → IsAhead place rest.now result true (record { kind = TokenKind.Label (take (result - blanks) (drop blanks rest.now)); start = place + blanks; end = place + result } ∷ []) }
{
    let run = &rest[blanks..];
    let count = count_run(run);
    if count == 0 || count >= run.len() || count > MAX_RUN_BYTES {
        return 0;
    }
    // a run byte above `9` is a letter or `_`
    if run[0] <= b'9' || ends_reserved(run[count - 1]) {
        return 0;
    }
    blanks + count
}
