//! Stretches of bytes that end no token.
ghost use Rattle.std.specs.Prelude.{◌≡◌, ℕ, ◌+◌, ◌<◌, ◌≤◌, ◌++◌, [], true, false, length, take, slice_index, ◌==◌};
ghost use Rattle.std.specs.List.{list_all};
ghost use Rattle.goal_limits.specs.Limits.{run_limit};
ghost use Rattle.goal_lexer.specs.Bytes.{is_blank, is_digit, is_run_byte, star, line_feed};
ghost use Rattle.goal_lexer.specs.Scan.{scan};
ghost use Rattle.goal_lexer.specs.Sound.{IsSound};

use crate::bytes::{is_digit, is_run_byte};
use crate::labels::Label;
use crate::mode::{Form, Mode};
use goal_limits::{MAX_RUN_BYTES, is_blank};

/// Counts the blanks at the front. By contract, the bytes counted are blanks, but more may follow.
pub(crate) fn count_blanks(bytes: &[u8]) -> usize
    ensures within { result ≤ length bytes.now }
    ensures each { (k : ℕ) → k < result → is_blank (slice_index bytes.now k) ≡ true }
{
    for (n, byte) in bytes.iter().enumerate() {
        if !is_blank(*byte) {
            return n;
        }
    }
    bytes.len()
}

/// Counts the bytes before the next line feed. By contract, none of the bytes counted is one, but more may precede it.
fn count_in_line(bytes: &[u8]) -> usize
    ensures within { result ≤ length bytes.now }
    ensures each { (k : ℕ) → k < result → (slice_index bytes.now k == line_feed) ≡ false }
{
    for (n, byte) in bytes.iter().enumerate() {
        if *byte == b'\n' {
            return n;
        }
    }
    bytes.len()
}

/// Counts the bytes before the next `*`. By contract, none of the bytes counted is one, but more may precede it.
fn count_before_star(bytes: &[u8]) -> usize
    ensures within { result ≤ length bytes.now }
    ensures each { (k : ℕ) → k < result → (slice_index bytes.now k == star) ≡ false }
{
    for (n, byte) in bytes.iter().enumerate() {
        if *byte == b'*' {
            return n;
        }
    }
    bytes.len()
}

/// Appends the run bytes at the front to a word, up to its room, and returns their number.
fn extend_word(word: &mut Label, bytes: &[u8]) -> usize
    ensures within { result ≤ length bytes.now }
    ensures each { (k : ℕ) → k < result → is_run_byte (slice_index bytes.now k) ≡ true }
    ensures word { word.new ≡ word.old ++ take result bytes.now }
    ensures most { 0 < result → length word.new ≤ run_limit }
{
    let mut taken = 0;
    while taken < bytes.len() && word.len() < MAX_RUN_BYTES && is_run_byte(bytes[taken]) {
        word.push(bytes[taken]);
        taken += 1;
    }
    taken
}

/// Appends the digits at the front to digits, up to their room, and returns their number.
fn extend_digits(digits: &mut Label, bytes: &[u8]) -> usize
    ensures within { result ≤ length bytes.now }
    ensures each { (k : ℕ) → k < result → is_digit (slice_index bytes.now k) ≡ true }
    ensures digits { digits.new ≡ digits.old ++ take result bytes.now }
    ensures most { 0 < result → length digits.new ≤ run_limit }
{
    let mut taken = 0;
    while taken < bytes.len() && digits.len() < MAX_RUN_BYTES && is_digit(bytes[taken]) {
        digits.push(bytes[taken]);
        taken += 1;
    }
    taken
}

/// Appends bytes at the front to a run of this form, while they keep the form and it has room, and returns their
/// number.
fn extend_run(run: &mut Label, form: Form, bytes: &[u8]) -> usize
    ensures within { result ≤ length bytes.now }
    ensures quiet { (start place : ℕ) → scan (Mode.Run start run.old form) place (take result bytes.now) ≡ (Mode.Run start run.new form, []) }
{
    match form {
        Form::Word => extend_word(run, bytes),
        Form::Digits => extend_digits(run, bytes),
        Form::Sized => 0,
    }
}

/// Takes bytes at the front that end nothing, while a run or a comment is open, and returns their number.
#[cold]
fn take_open_stretch(mode: &mut Mode, bytes: &[u8]) -> usize
    requires { IsSound mode.old }
    ensures within { result ≤ length bytes.now }
    ensures quiet { (place : ℕ) → scan mode.old place (take result bytes.now) ≡ (mode.new, []) }
    ensures sound { IsSound mode.new }
{
    match mode {
        Mode::Run {
            bytes: run,
            form,
            ..
        } => extend_run(run, *form, bytes),
        Mode::LineComment { .. } => count_in_line(bytes),
        Mode::BlockComment { closes, .. } => { if *closes { 0 } else { count_before_star(bytes) } }
        Mode::Between | Mode::Slash { .. } | Mode::Failed { .. } => 0,
    }
}

/// Takes bytes at the front that end nothing, and returns their number.
pub(crate) fn take_stretch(mode: &mut Mode, bytes: &[u8]) -> usize
    requires { IsSound mode.old }
    ensures within { result ≤ length bytes.now }
    ensures quiet { (place : ℕ) → scan mode.old place (take result bytes.now) ≡ (mode.new, []) }
    ensures sound { IsSound mode.new }
{
    match mode {
        Mode::Between => count_blanks(bytes),
        _ => take_open_stretch(mode, bytes),
    }
}

/// Returns the number of run bytes at the front.
pub(crate) fn count_run(bytes: &[u8]) -> usize
    ensures within { result ≤ length bytes.now }
    ensures each { (k : ℕ) → k < result → is_run_byte (slice_index bytes.now k) ≡ true }
    ensures ends { result < length bytes.now → is_run_byte (slice_index bytes.now result) ≡ false }
{
    let mut count = 0;
    // four at a time while there are four: most runs have more than three bytes
    while bytes.len() - count >= 4 {
        if !is_run_byte(bytes[count]) {
            return count;
        }
        if !is_run_byte(bytes[count + 1]) {
            return count + 1;
        }
        if !is_run_byte(bytes[count + 2]) {
            return count + 2;
        }
        if !is_run_byte(bytes[count + 3]) {
            return count + 3;
        }
        count += 4;
    }
    while count < bytes.len() && is_run_byte(bytes[count]) {
        count += 1;
    }
    count
}
