//! The values of numbers and sizes.
ghost use Rattle.std.specs.Prelude.{◌≡◌, ℕ, ◌<◌, ◌≤◌, length, take, true, slice_index};
ghost use Rattle.goal_lexer.specs.Bytes.{is_digit};
ghost use Rattle.goal_lexer.specs.Numbers.{number_value};

use crate::bytes::is_digit;

/// A number of digits that is safe: every value of this many digits is below 2^64.
const SURE_DIGITS: usize = 19;

/// The digits at the front of a piece: their number, at most 19, and their value.
#[derive(Clone, Copy)]
pub(crate) struct Leading {
    pub(crate) count: usize,
    pub(crate) value: u64,
}

/// Returns the digits at the front of a piece, at most 19 of them.
#[inline(always)]
pub(crate) fn leading_digits(piece: &[u8]) -> Leading
    ensures within { result.count ≤ length piece.now }
    ensures few { result.count ≤ 19 }
    ensures digits { (k : ℕ) → k < result.count → is_digit (slice_index piece.now k) ≡ true }
    ensures value { result.value ≡ number_value (take result.count piece.now) }
{
    let mut value: u64 = 0;
    let mut count = 0;
    while count < piece.len() && count < SURE_DIGITS && is_digit(piece[count]) {
        value = value * 10 + u64::from(piece[count] - b'0');
        count += 1;
    }
    Leading { count, value }
}

/// Returns the decimal value of the digits, or 2^64-1 if that is less.
pub(crate) fn number_value(digits: &[u8]) -> u64
    ensures { result ≡ number_value digits.now }
{
    let mut value: u64 = 0;
    for digit in digits {
        let ones = u64::from(digit.saturating_sub(b'0'));
        value = value.saturating_mul(10).saturating_add(ones);
    }
    value
}
