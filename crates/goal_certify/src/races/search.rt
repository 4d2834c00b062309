//! The least pair of operations that race, and their least slot.
ghost use Rattle.std.specs.Prelude.{ℕ, ◌≡◌, ◌+◌, ◌*◌, ◌/◌, ◌<◌, ◌≤◌, true, false, length, All};
ghost use Rattle.goal_limits.specs.Limits.{certified_op_limit};
ghost use Rattle.goal_certify.specs.Rows.{has};
ghost use Rattle.goal_certify.specs.Table.{meets, AreMarked};
ghost use Rattle.goal_certify.specs.Races.{is_open, IsMutual, IsNextOpen, IsFirstOpen, IsLeastSlot, lesser, least_with};

use crate::races::rows::{WORDS, is_in};
use crate::races::touches::Touch;

/// Two operations of a rank, the lesser first.
#[derive(Clone, Copy)]
pub(crate) struct OpPair {
    /// The lesser operation.
    pub first: u32,
    /// The greater operation.
    pub second: u32,
}

/// Returns the least pair of operations such that both touch a slot that one of them writes, and neither ends before
/// the other starts.
pub(crate) fn first_open(before: &[u64], shared: &[u64], count: u32) -> Option<OpPair>
    requires few { count ≤ certified_op_limit }
    requires before { 32 * count ≤ length before.now }
    requires shared { length shared.now ≡ 32 * count }
    requires mutual { IsMutual shared.now }
    ensures { IsFirstOpen before.now shared.now count result }
{
    if !is_any_open(before, shared, count) {
        return None;
    }
    for first in 0..count {
        if let Some(second) = next_open(before, shared, first, count) {
            return Some(OpPair { first, second });
        }
    }
    None
}

// Whether there is such a pair. Most schedules have none, and then 64 operations are compared at once.
fn is_any_open(before: &[u64], shared: &[u64], count: u32) -> bool
    requires few { count ≤ certified_op_limit }
    requires before { 32 * count ≤ length before.now }
    requires shared { length shared.now ≡ 32 * count }
    requires mutual { IsMutual shared.now }
    ensures none { result ≡ false → (x y : ℕ) → x < y → y < count → is_open before.now shared.now x y ≡ true → ⊥ }
{
    for second in 0..count {
        if is_open_below(before, shared, second) {
            return true;
        }
    }
    false
}

// Whether an operation with a lesser number is open with this one.
fn is_open_below(before: &[u64], shared: &[u64], second: u32) -> bool
    requires few { second < certified_op_limit }
    requires before { 32 * second + 32 ≤ length before.now }
    requires shared { 32 * second + 32 ≤ length shared.now }
    requires mutual { IsMutual shared.now }
    ensures none { result ≡ false → (x : ℕ) → x < second → is_open before.now shared.now x second ≡ true → ⊥ }
{
    for place in 0..second / 64 + 1 {
        if is_open_in_word(before, shared, second, place) {
            return true;
        }
    }
    false
}

// The same for the operations whose bits are in the word `place`. It skips at once those before the first that shares
// a slot and does not end before `second` starts.
fn is_open_in_word(before: &[u64], shared: &[u64], second: u32, place: u32) -> bool
    requires few { second < certified_op_limit }
    requires place { place < 32 }
    requires before { 32 * second + 32 ≤ length before.now }
    requires shared { 32 * second + 32 ≤ length shared.now }
    requires mutual { IsMutual shared.now }
    ensures none { result ≡ false → (x : ℕ) → x < second → x / 64 ≡ place
        → is_open before.now shared.now x second ≡ true → ⊥ }
{
    let at = WORDS * second as usize + place as usize;
    let alone = shared[at] & !before[at];
    for first in 64 * place + alone.trailing_zeros()..second.min(64 * place + 64) {
        if is_open(before, shared, first, second) {
            return true;
        }
    }
    false
}

// The least second operation of such a pair, above the first one.
fn next_open(before: &[u64], shared: &[u64], first: u32, count: u32) -> Option<u32>
    requires few { count ≤ certified_op_limit }
    requires first { first < count }
    requires before { 32 * count ≤ length before.now }
    requires shared { length shared.now ≡ 32 * count }
    ensures { IsNextOpen before.now shared.now first count result }
{
    let mut second = first + 1;
    while second < count {
        let next = skip(shared, first, second);
        if next < count && is_open(before, shared, first, next) {
            return Some(next);
        }
        second = next + 1;
    }
    None
}

// Returns `second`, or the first number of the next word if the row of `first` has none in the word of `second`.
fn skip(shared: &[u64], first: u32, second: u32) -> u32
    requires second { second < certified_op_limit }
    requires shared { 32 * first + 32 ≤ length shared.now }
    ensures above { second ≤ result }
    ensures near { result ≤ second + 64 }
    ensures none { (y : ℕ) → second ≤ y → y < result → has shared.now first y ≡ false }
{
    let place = second / 64;
    if shared[WORDS * first as usize + place as usize] == 0 {
        return 64 * (place + 1);
    }
    second
}

fn is_open(before: &[u64], shared: &[u64], first: u32, second: u32) -> bool
    requires few { (first < certified_op_limit) × (second < certified_op_limit) }
    requires before { (32 * first + 32 ≤ length before.now) × (32 * second + 32 ≤ length before.now) }
    requires shared { 32 * first + 32 ≤ length shared.now }
    ensures { result ≡ is_open before.now shared.now first second }
{
    is_in(shared, first as usize, second)
        && !is_in(before, second as usize, first)
        && !is_in(before, first as usize, second)
}

/// Returns the least slot that both operations touch and one of them writes.
pub(crate) fn least_slot(
    touches: &[Touch],
    touchers: &[u64],
    writers: &[u64],
    pair: OpPair,
) -> Option<u32>
    requires second { pair.second < certified_op_limit }
    requires touchers { AreMarked false touches.now touchers.now }
    requires writers { AreMarked true touches.now writers.now }
    ensures { IsLeastSlot touchers.now writers.now touches.now pair result }
{
    let mut least = None;
    for touch in touches {
        least = least_with(least, *touch, touchers, writers, pair);
    }
    least
}

// The least slot with another touch.
fn least_with(
    least: Option<u32>,
    touch: Touch,
    touchers: &[u64],
    writers: &[u64],
    pair: OpPair,
) -> Option<u32>
    requires second { pair.second < certified_op_limit }
    requires touchers { 32 * touch.slot + 32 ≤ length touchers.now }
    requires writers { 32 * touch.slot + 32 ≤ length writers.now }
    ensures { result ≡ least_with touchers.now writers.now pair least touch }
{
    if touch.op == pair.first && is_met(touch, touchers, writers, pair.second) {
        return Some(lesser(least, touch.slot));
    }
    least
}

// Whether the operation touches the slot of the touch, and one of the two writes it.
fn is_met(touch: Touch, touchers: &[u64], writers: &[u64], op: u32) -> bool
    requires op { op < certified_op_limit }
    requires touchers { 32 * touch.slot + 32 ≤ length touchers.now }
    requires writers { 32 * touch.slot + 32 ≤ length writers.now }
    ensures { result ≡ meets touchers.now writers.now touch op }
{
    let others = if touch.writes { touchers } else { writers };
    is_in(others, touch.slot as usize, op)
}

// The lesser of two slots, of which the first may be missing.
fn lesser(least: Option<u32>, slot: u32) -> u32
    ensures { result ≡ lesser least slot }
{
    match least {
        Some(other) if other < slot => other,
        _ => slot,
    }
}
