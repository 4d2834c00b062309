//! The binomial tree: children, parents, and the slots of a part of it.
ghost use Rattle.std.specs.Prelude.{◌≡◌, ◌+◌, ◌^◌, ◌<◌, ◌≤◌, []};
ghost use Rattle.goal_blocks.specs.Steps.{moves_of, adds_of};
ghost use Rattle.goal_blocks.specs.Positions.{low, rounds, parent, upward, share};

use goal_blocks::{Effect, SlotRange, ahead, digits, power};
use goal_limits::MAX_RANKS;

/// Returns the exponent of the greatest power of two that divides a number.
#[tactic(auto, unfolding(goal_blocks::specs::Positions::low))]
pub fn low(number: u32) -> u32
    ensures { result ≡ low number }
{
    number.trailing_zeros()
}

/// Returns the number of children of a virtual rank.
pub fn children(ranks: u32, rank: u32) -> u32
    requires few { ranks ≤ MAX_RANKS }
    requires rank { rank < ranks }
    ensures { result ≡ rounds ranks rank }
{
    let rounds = digits(ranks - 1 - rank);
    if rank == 0 {
        return rounds;
    }
    low(rank).min(rounds)
}

/// Returns 1 for the virtual ranks that have a parent, and 0 for virtual rank 0.
pub fn upward(rank: u32) -> u32
    ensures { result ≡ upward rank }
{
    if rank == 0 { 0 } else { 1 }
}

/// Returns the number of virtual ranks in the subtree of a virtual rank other than 0, itself included, if none of them
/// is missing.
pub fn part(rank: u32) -> u32
    requires some { 0 < rank }
    requires few { rank < MAX_RANKS }
    ensures is { result ≡ 2 ^ low rank }
    ensures some { 0 < result }
    ensures within { result ≤ rank }
{
    power(low(rank))
}

/// Returns the rank of the parent of a virtual rank other than 0.
#[tactic(auto, unfolding(goal_blocks::specs::Positions::parent))]
pub fn parent(ranks: u32, root: u32, rank: u32) -> u32
    requires few { ranks ≤ MAX_RANKS }
    requires root { root < ranks }
    requires some { 0 < rank }
    requires rank { rank < ranks }
    ensures { result ≡ parent ranks root rank }
{
    ahead(ranks, rank - part(rank), root)
}

/// Returns the move of the slots of the `size` virtual ranks from `rank` on, or of those of them that exist.
pub fn share(ranks: u32, root: u32, rank: u32, size: u32) -> Effect
    requires few { ranks ≤ MAX_RANKS }
    requires root { root < ranks }
    requires rank { rank < ranks }
    requires some { 0 < size }
    requires size { size ≤ MAX_RANKS }
    ensures moves { moves_of result ≡ share ranks root rank size }
    ensures adds { adds_of result ≡ [] }
{
    let end = (rank + size).min(ranks);
    let first = ahead(ranks, rank, root);
    let last = ahead(ranks, end - 1, root);
    if first <= last {
        return Effect::Moves {
            first: SlotRange {
                lo: first,
                hi: last,
            },
            second: None,
        };
    }
    Effect::Moves {
        first: SlotRange {
            lo: first,
            hi: ranks - 1,
        },
        second: Some(SlotRange { lo: 0, hi: last }),
    }
}
