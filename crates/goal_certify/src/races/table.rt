//! Which operations of a rank touch one slot.
ghost use Rattle.std.specs.Prelude.{ℕ, ◌≡◌, ◌+◌, ◌*◌, ◌<◌, ◌≤◌, ◌⊎◌, true, false, length, All, Contains, OnOk, IfOk};
ghost use Rattle.goal_limits.specs.Limits.{certified_op_limit, slot_limit};
ghost use Rattle.goal_certify.specs.Rows.{has};
ghost use Rattle.goal_certify.specs.Table.{is_marked, AreEmpty, AreMarked, meets, AreShared};

use crate::races::rows::{WORDS, clear, join, make_room, put};
use crate::races::touches::Touch;
use std::alloc::{AllocError, Global};

/// Puts into the row of each slot the operations that touch it, or only those that write it. `Err` means out of memory.
pub(crate) fn mark(
    rows: &mut Vec<u64>,
    touches: &[Touch],
    only_writes: bool,
) -> Result<(), AllocError>
    requires empty { AreEmpty rows.old.items }
    requires ops { All (λ t. t.op < certified_op_limit) touches.now }
    requires slots { All (λ t. t.slot ≤ slot_limit) touches.now }
    ensures { OnOk result (AreMarked only_writes touches.now rows.new.items) }
{
    for touch in touches {
        mark_one(rows, *touch, only_writes)?;
    }
    Ok(())
}

// Puts the operation into the row of the slot.
fn mark_one(rows: &mut Vec<u64>, touch: Touch, only_writes: bool) -> Result<(), AllocError>
    requires op { touch.op < certified_op_limit }
    requires slot { touch.slot ≤ slot_limit }
    ensures room { OnOk result (32 * touch.slot + 32 ≤ length rows.new.items) }
    ensures grown { OnOk result (length rows.old.items ≤ length rows.new.items) }
    ensures adds { OnOk result (is_marked only_writes touch ≡ true → has rows.new.items touch.slot touch.op ≡ true) }
    ensures keeps { OnOk result ((r k : ℕ) → k < certified_op_limit → has rows.old.items r k ≡ true → has rows.new.items r k ≡ true) }
    ensures no_more { OnOk result ((r k : ℕ) → k < certified_op_limit → has rows.new.items r k ≡ true → (has rows.old.items r k ≡ true)
        ⊎ ((is_marked only_writes touch ≡ true) × (r ≡ touch.slot) × (k ≡ touch.op))) }
{
    let slot = touch.slot as usize;
    make_room(rows, slot)?;
    put_if(rows, slot, touch.op, !only_writes || touch.writes);
    Ok(())
}

// Puts the number into the row if the test holds.
fn put_if(rows: &mut [u64], row: usize, number: u32, test: bool)
    requires row { 32 * row + 32 ≤ length rows.old }
    requires number { number < certified_op_limit }
    ensures adds { test ≡ true → has rows.new row number ≡ true }
    ensures keeps { (r k : ℕ) → k < certified_op_limit → has rows.old r k ≡ true → has rows.new r k ≡ true }
    ensures no_more { (r k : ℕ) → k < certified_op_limit → has rows.new r k ≡ true → (has rows.old r k ≡ true)
        ⊎ ((test ≡ true) × (r ≡ row) × (k ≡ number)) }
{
    if test {
        put(rows, row, number);
    }
}

/// Empties the rows of these slots. Only the words of a row that have a number are written.
pub(crate) fn wipe(rows: &mut [u64], touches: &[Touch], only_writes: bool)
    requires ops { All (λ t. t.op < certified_op_limit) touches.now }
    requires marked { AreMarked only_writes touches.now rows.old }
    ensures { AreEmpty rows.new }
{
    for touch in touches {
        clear(rows, touch.slot as usize, touch.op);
    }
}

/// Returns for each operation the row of those with which it shares a slot that one of the two writes.
pub(crate) fn shared_rows(
    alloc: Global,
    touches: &[Touch],
    touchers: &[u64],
    writers: &[u64],
    count: usize,
) -> Result<Vec<u64>, AllocError>
    requires few { count ≤ certified_op_limit }
    requires ops { All (λ t. t.op < count) touches.now }
    requires touchers { AreMarked false touches.now touchers.now }
    requires writers { AreMarked true touches.now writers.now }
    ensures room { IfOk result (λ rows. length rows.items ≡ 32 * count) }
    ensures shared { IfOk result (λ rows. AreShared touchers.now writers.now touches.now rows.items) }
{
    let mut rows = vec![in alloc; 0; WORDS * count]?;
    share_all(&mut rows, touches, touchers, writers);
    Ok(rows)
}

// Puts into the row of each operation those that its touches meet.
fn share_all(rows: &mut [u64], touches: &[Touch], touchers: &[u64], writers: &[u64])
    requires empty { AreEmpty rows.old }
    requires room { All (λ t. 32 * t.op + 32 ≤ length rows.old) touches.now }
    requires touchers { AreMarked false touches.now touchers.now }
    requires writers { AreMarked true touches.now writers.now }
    ensures { AreShared touchers.now writers.now touches.now rows.new }
{
    for touch in touches {
        share(rows, *touch, touchers, writers);
    }
}

// Puts into the row of the operation those that its touch meets.
fn share(rows: &mut [u64], touch: Touch, touchers: &[u64], writers: &[u64])
    requires op { 32 * touch.op + 32 ≤ length rows.old }
    requires touchers { 32 * touch.slot + 32 ≤ length touchers.now }
    requires writers { 32 * touch.slot + 32 ≤ length writers.now }
    ensures adds { (k : ℕ) → k < certified_op_limit → meets touchers.now writers.now touch k ≡ true → has rows.new touch.op k ≡ true }
    ensures keeps { (r k : ℕ) → k < certified_op_limit → has rows.old r k ≡ true → has rows.new r k ≡ true }
    ensures no_more { (r k : ℕ) → k < certified_op_limit → has rows.new r k ≡ true → (has rows.old r k ≡ true)
        ⊎ ((r ≡ touch.op) × (meets touchers.now writers.now touch k ≡ true)) }
{
    let others = if touch.writes { touchers } else { writers };
    join(rows, touch.op as usize, others, touch.slot as usize);
}
