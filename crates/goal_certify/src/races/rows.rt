//! Rows of bits, one after another: each row is a set of numbers below 2,048.
ghost use Rattle.std.specs.Prelude.{ℕ, ◌≡◌, ◌≢◌, ◌+◌, ◌*◌, ◌<◌, ◌≤◌, ◌⊎◌, true, length, OnOk};
ghost use Rattle.goal_limits.specs.Limits.{certified_op_limit, slot_limit};
ghost use Rattle.goal_certify.specs.Rows.{has};

use std::alloc::AllocError;

/// The number of words of 64 bits of a row.
pub(crate) const WORDS: usize = 32;

/// Returns whether the row has the number.
pub(crate) fn is_in(rows: &[u64], row: usize, number: u32) -> bool
    requires row { 32 * row + 32 ≤ length rows.now }
    requires number { number < certified_op_limit }
    ensures { result ≡ has rows.now row number }
{
    let word = rows[WORDS * row + number as usize / 64];
    (word >> (number % 64)) & 1 == 1
}

/// Puts the number into the row.
pub(crate) fn put(rows: &mut [u64], row: usize, number: u32)
    requires row { 32 * row + 32 ≤ length rows.old }
    requires number { number < certified_op_limit }
    ensures adds { has rows.new row number ≡ true }
    ensures keeps { (r k : ℕ) → k < certified_op_limit → has rows.old r k ≡ true → has rows.new r k ≡ true }
    ensures no_more { (r k : ℕ) → k < certified_op_limit → has rows.new r k ≡ true
        → (has rows.old r k ≡ true) ⊎ ((r ≡ row) × (k ≡ number)) }
{
    rows[WORDS * row + number as usize / 64] |= 1 << (number % 64);
}

/// Puts what a row of another table has into the row.
pub(crate) fn join(rows: &mut [u64], row: usize, others: &[u64], other: usize)
    requires row { 32 * row + 32 ≤ length rows.old }
    requires other { 32 * other + 32 ≤ length others.now }
    ensures adds { (k : ℕ) → k < certified_op_limit → has others.now other k ≡ true → has rows.new row k ≡ true }
    ensures keeps { (r k : ℕ) → k < certified_op_limit → has rows.old r k ≡ true → has rows.new r k ≡ true }
    ensures no_more { (r k : ℕ) → k < certified_op_limit → has rows.new r k ≡ true
        → (has rows.old r k ≡ true) ⊎ ((r ≡ row) × (has others.now other k ≡ true)) }
{
    for place in 0..WORDS {
        rows[WORDS * row + place] |= others[WORDS * other + place];
    }
}

/// Puts what another row of this table has into the row. `words` is how many words of it may have numbers.
pub(crate) fn join_within(rows: &mut [u64], row: usize, other: usize, words: usize)
    requires row { 32 * row + 32 ≤ length rows.old }
    requires other { 32 * other + 32 ≤ length rows.old }
    requires words { words ≤ 32 }
    requires low { (k : ℕ) → k < certified_op_limit → has rows.old other k ≡ true → k < 64 * words }
    ensures adds { (k : ℕ) → k < certified_op_limit → has rows.old other k ≡ true → has rows.new row k ≡ true }
    ensures keeps { (r k : ℕ) → k < certified_op_limit → has rows.old r k ≡ true → has rows.new r k ≡ true }
    ensures no_more { (r k : ℕ) → k < certified_op_limit → has rows.new r k ≡ true
        → (has rows.old r k ≡ true) ⊎ ((r ≡ row) × (has rows.old other k ≡ true)) }
{
    for place in 0..words {
        let word = rows[WORDS * other + place];
        rows[WORDS * row + place] |= word;
    }
}

/// Removes the number from the row, and all others of its word.
pub(crate) fn clear(rows: &mut [u64], row: usize, number: u32)
    requires row { 32 * row + 32 ≤ length rows.old }
    requires number { number < certified_op_limit }
    ensures { (r k : ℕ) → k < certified_op_limit → has rows.new r k ≡ true
        → (has rows.old r k ≡ true) × (r ≡ row → k ≢ number) }
{
    rows[WORDS * row + number as usize / 64] = 0;
}

/// Empties the first rows. They had only numbers below their count, and no row after them had a number.
pub(crate) fn clear_rows(rows: &mut [u64], count: usize)
    requires few { count ≤ certified_op_limit }
    requires room { 32 * count ≤ length rows.old }
    requires low { (r k : ℕ) → k < certified_op_limit → has rows.old r k ≡ true → (r < count) × (k < count) }
    ensures { (r k : ℕ) → k < certified_op_limit → has rows.new r k ≡ true → ⊥ }
{
    let words = (count + 63) / 64;
    for row in 0..count {
        clear_words(rows, row, words);
    }
}

// Empties the first `words` words of the row.
fn clear_words(rows: &mut [u64], row: usize, words: usize)
    requires row { 32 * row + 32 ≤ length rows.old }
    requires words { words ≤ 32 }
    ensures { (r k : ℕ) → k < certified_op_limit → has rows.new r k ≡ true
        → (has rows.old r k ≡ true) × (r ≡ row → 64 * words ≤ k) }
{
    for place in 0..words {
        rows[WORDS * row + place] = 0;
    }
}

/// Extends the table up to this row. New rows are empty.
pub(crate) fn make_room(rows: &mut Vec<u64>, row: usize) -> Result<(), AllocError>
    requires { row ≤ slot_limit }
    ensures room { OnOk result (32 * row + 32 ≤ length rows.new.items) }
    ensures grown { OnOk result (length rows.old.items ≤ length rows.new.items) }
    ensures same { OnOk result ((r k : ℕ) → has rows.new.items r k ≡ has rows.old.items r k) }
{
    let words = WORDS * row + WORDS;
    if rows.len() < words {
        rows.resize(words, 0)?;
    }
    Ok(())
}
