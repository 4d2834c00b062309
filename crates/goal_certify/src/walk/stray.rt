// Finds values that a segment leaves in the blocks of other segments.
ghost use Rattle.std.specs.Prelude.{ℕ, ◌≡◌, ◌+◌, ◌*◌, ◌^◌, ◌<◌, ◌≤◌, true, false, not, IfSome, IfNone};
ghost use Rattle.goal_blocks.specs.Joined.{keeps_out};
ghost use Rattle.goal_blocks.specs.Faults.{SlotAt, IsLeast, slot_key};
ghost use Rattle.goal_values.specs.Kept.{values};

use goal_blocks::Segment;
use goal_values::SlotValues;

// Returns whether a slot is in the block of another segment and is not empty.
fn is_stray(store: &SlotValues, rank: u32, segment: Segment, count: u32, slot: u32) -> bool
    requires rank { rank < store.now.kept.ranks }
    requires fits { segment.block * segment.width + segment.width ≤ 2 ^ 32 }
    requires inside { slot < count * segment.width }
    ensures { result ≡ not (keeps_out segment.width count segment.block rank slot (values store.now.kept rank slot)) }
{
    let from = segment.block * segment.width;
    let is_own = slot >= from && slot - from < segment.width;
    !is_own && store.size_at(rank, slot) > 0
}

// Returns the least such slot of the rank.
fn first_stray_of(store: &SlotValues, rank: u32, segment: Segment, count: u32) -> Option<u32>
    requires rank { rank < store.now.kept.ranks }
    requires fits { segment.block * segment.width + segment.width ≤ 2 ^ 32 }
    requires blocks { count * segment.width ≤ 2 ^ 32 }
    ensures stray { IfSome result (λ slot. keeps_out segment.width count segment.block rank slot
        (values store.now.kept rank slot) ≡ false) }
    ensures first { IfSome result (λ slot. (k : ℕ) → k < slot
        → keeps_out segment.width count segment.block rank k (values store.now.kept rank k) ≡ true) }
    ensures none { IfNone result ((k : ℕ)
        → keeps_out segment.width count segment.block rank k (values store.now.kept rank k) ≡ true) }
{
    for slot in 0..count as u64 * segment.width as u64 {
        let slot = slot as u32;
        if is_stray(store, rank, segment, count, slot) {
            return Some(slot);
        }
    }
    None
}

/// Returns the least rank and slot that is in the block of another of the `count` segments and is not empty, or None.
pub fn first_stray(
    store: &SlotValues,
    ranks: u32,
    segment: Segment,
    count: u32,
) -> Option<(u32, u32)>
    requires ranks { ranks ≡ store.now.kept.ranks }
    requires fits { segment.block * segment.width + segment.width ≤ 2 ^ 32 }
    requires blocks { count * segment.width ≤ 2 ^ 32 }
    ensures least { IfSome result (λ p. IsLeast slot_key (λ (a : SlotAt). (a.rank < ranks) × (keeps_out segment.width count
        segment.block a.rank a.slot (values store.now.kept a.rank a.slot) ≡ false)) (record { rank = p.0; slot = p.1 })) }
    ensures none { IfNone result ((rank slot : ℕ) → rank < ranks
        → keeps_out segment.width count segment.block rank slot (values store.now.kept rank slot) ≡ true) }
{
    for rank in 0..ranks {
        if let Some(slot) = first_stray_of(store, rank, segment, count) {
            return Some((rank, slot));
        }
    }
    None
}
