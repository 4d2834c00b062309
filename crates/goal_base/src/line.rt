//! Lines that are built in an array: each piece is written where the one before it ends, and the end is returned.
ghost use Rattle.std.specs.Prelude.{◌≡◌, ◌+◌, ◌≤◌, ◌++◌, length, take, decimal};
ghost use Rattle.goal_base.specs.Text.{pair_text, time_text};

use itoa::write_digits;

/// Writes a word at `at`, and returns its end.
#[inline(always)]
pub fn put_word(line: &mut [u8], at: usize, word: &str) -> usize
    requires room { at + length word.now ≤ length line.old }
    ensures text { take result line.new ≡ take at line.old ++ word.now }
    ensures end { result ≡ at + length word.now }
{
    // Byte by byte: for a constant word the compiler emits one or two stores.
    for (place, byte) in word.as_bytes().iter().enumerate() {
        line[at + place] = *byte;
    }
    at + word.len()
}

/// Writes a number of 32 bits in decimal, and returns its end. It needs room for 10 bytes.
#[inline(always)]
#[tactic(auto, using(crate::proofs::TextLemmas::digits_of_32_bits))]
pub fn put_number(line: &mut [u8], at: usize, n: u32) -> usize
    requires room { at + 10 ≤ length line.old }
    ensures text { take result line.new ≡ take at line.old ++ decimal n }
    ensures end { result ≤ at + 10 }
{
    put_decimal(line, at, u64::from(n))
}

/// Writes a number of 64 bits in decimal, and returns its end. It needs room for 20 bytes.
#[inline(always)]
#[tactic(auto, using(crate::proofs::TextLemmas::digits_of_64_bits))]
pub fn put_long(line: &mut [u8], at: usize, n: u64) -> usize
    requires room { at + 20 ≤ length line.old }
    ensures text { take result line.new ≡ take at line.old ++ decimal n }
    ensures end { result ≤ at + 20 }
{
    put_decimal(line, at, n)
}

// Writes the digits of a number, and returns their end.
#[tactic(auto, using(crate::proofs::TextLemmas::written_up_to))]
fn put_decimal(line: &mut [u8], at: usize, n: u64) -> usize
    requires room { at + length (decimal n) ≤ length line.old }
    ensures text { take result line.new ≡ take at line.old ++ decimal n }
    ensures end { result ≡ at + length (decimal n) }
{
    let end = at + count_digits(n);
    write_digits(n, line, end);
    end
}

// Counts the decimal digits of a number.
#[tactic(auto, using(crate::proofs::TextLemmas::digits_between, std::proofs::lemmas::Fmt::decimal_digit))]
fn count_digits(n: u64) -> usize
    ensures { result ≡ length (decimal n) }
{
    match n.checked_ilog10() {
        Some(power) => power as usize + 1,
        None => 1,
    }
}

/// Writes two numbers with a blank between them, such as the rank and the number of an operation, and returns their
/// end. It needs room for 21 bytes.
#[inline(always)]
pub fn put_pair(line: &mut [u8], at: usize, first: u32, second: u32) -> usize
    requires room { at + 21 ≤ length line.old }
    ensures text { take result line.new ≡ take at line.old ++ pair_text first second }
    ensures end { result ≤ at + 21 }
{
    let at = put_number(line, at, first);
    let at = put_word(line, at, " ");
    put_number(line, at, second)
}

/// Writes a time in nanoseconds, or a dash for `None`, and returns its end. It needs room for 20 bytes.
#[inline(always)]
pub fn put_time(line: &mut [u8], at: usize, time: Option<u64>) -> usize
    requires room { at + 20 ≤ length line.old }
    ensures text { take result line.new ≡ take at line.old ++ time_text time }
    ensures end { result ≤ at + 20 }
{
    match time {
        Some(nanos) => put_long(line, at, nanos),
        None => put_word(line, at, "-"),
    }
}
