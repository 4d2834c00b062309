//! Whether the operations that share a slot are in the order of their numbers.
ghost use Rattle.std.specs.Prelude.{ℕ, ◌≡◌, ◌+◌, ◌*◌, ◌/◌, ◌<◌, ◌≤◌, true, false, All, length, IsTrue};
ghost use Rattle.goal_limits.specs.Limits.{certified_op_limit};
ghost use Rattle.goal_certify.specs.Rows.{has};
ghost use Rattle.goal_certify.specs.Table.{meets, AreMarked};
ghost use Rattle.goal_certify.specs.Races.{IsOrdered};

use crate::races::rows::WORDS;
use crate::races::touches::Touch;

/// Returns whether each touch is ordered: every operation with a lesser number that it meets ends before the operation
/// of the touch starts. A touch meets an operation that touches its slot, if one of the two writes it.
pub(crate) fn are_ordered(
    before: &[u64],
    touches: &[Touch],
    touchers: &[u64],
    writers: &[u64],
) -> bool
    requires few { All (λ t. t.op < certified_op_limit) touches.now }
    requires before { All (λ t. 32 * t.op + 32 ≤ length before.now) touches.now }
    requires touchers { AreMarked false touches.now touchers.now }
    requires writers { AreMarked true touches.now writers.now }
    ensures { IsTrue result → All (IsOrdered before.now touchers.now writers.now) touches.now }
{
    for touch in touches {
        if !is_ordered(before, *touch, touchers, writers) {
            return false;
        }
    }
    true
}

// Whether this holds of the touch.
fn is_ordered(before: &[u64], touch: Touch, touchers: &[u64], writers: &[u64]) -> bool
    requires few { touch.op < certified_op_limit }
    requires before { 32 * touch.op + 32 ≤ length before.now }
    requires touchers { 32 * touch.slot + 32 ≤ length touchers.now }
    requires writers { 32 * touch.slot + 32 ≤ length writers.now }
    ensures { result ≡ true → IsOrdered before.now touchers.now writers.now touch }
{
    let others = if touch.writes { touchers } else { writers };
    is_covered(others, touch.slot, before, touch.op)
}

// Whether the row has each number below its own that the other row has. It compares 64 numbers at once.
fn is_covered(others: &[u64], other: u32, rows: &[u64], row: u32) -> bool
    requires few { row < certified_op_limit }
    requires other { 32 * other + 32 ≤ length others.now }
    requires row { 32 * row + 32 ≤ length rows.now }
    ensures { result ≡ true → (k : ℕ) → k < row → has others.now other k ≡ true → has rows.now row k ≡ true }
{
    for place in 0..row / 64 + 1 {
        let theirs = others[WORDS * other as usize + place as usize];
        let alone = theirs & !rows[WORDS * row as usize + place as usize];
        if alone != 0 && 64 * place + alone.trailing_zeros() < row {
            return false;
        }
    }
    true
}
