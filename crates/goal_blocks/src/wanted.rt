//! What slots hold at the start, and whether they hold what is wanted at the end.
ghost use Rattle.std.specs.Prelude.{◌≡◌, ℕ, ◌+◌, ◌^◌, ◌<◌, ◌≤◌, [], false, length, if◌then◌else◌};
ghost use Rattle.std.specs.List.{list_all};
ghost use Rattle.goal_limits.specs.Limits.{rank_limit};
ghost use Rattle.goal_blocks.specs.Values.{Value};
ghost use Rattle.goal_blocks.specs.Weight.{stored};
ghost use Rattle.goal_blocks.specs.Collectives.{single, of_each, initial, wanted, is_value, has_one};
ghost use Rattle.goal_blocks.specs.Stored.{IsSorted, one_or_none};

use crate::contribution::Contribution;
use goal_limits::Collective;

/// Returns the number of contributions that the slots of `ranks` ranks have at the start.
pub fn initial_size(ranks: u32, what: Collective) -> u64
    requires some { 1 ≤ ranks }
    requires few { ranks ≤ rank_limit }
    ensures { result ≡ stored ranks (initial what ranks) }
{
    let count = ranks as u64;
    match what {
        Collective::Bcast { root } => { if root < ranks { 1 } else { 0 } }
        Collective::Barrier => count,
        Collective::Allgather => count,
        Collective::Allreduce => count,
        Collective::Alltoall => count * count,
        Collective::Reduce { .. } => count,
        Collective::Gather { .. } => count,
        Collective::Scatter { root } => { if root < ranks { count } else { 0 } }
        Collective::ReduceScatter => count * count,
        Collective::Scan => count,
    }
}

// The contribution, if the test holds.
fn one_if(test: bool, rank: u32, item: u32) -> Option<Contribution>
    ensures { one_or_none result ≡ (if test then single rank item else []) }
{
    if test {
        Some(Contribution { rank, item })
    } else {
        None
    }
}

/// Returns the one contribution that a slot has at the start, or `None` if it is empty.
#[tactic(auto, unfolding(crate::specs::Collectives::initial))]
pub fn first_of(what: Collective, ranks: u32, rank: u32, slot: u32) -> Option<Contribution>
    ensures { one_or_none result ≡ initial what ranks rank slot }
{
    if rank >= ranks {
        return None;
    }
    match what {
        Collective::Bcast { root } => one_if(rank == root && slot == 0, root, 0),
        Collective::Barrier => one_if(slot == 0, rank, 0),
        Collective::Allgather => one_if(slot == rank, rank, 0),
        Collective::Allreduce => one_if(slot == 0, rank, 0),
        Collective::Alltoall => one_if(slot < ranks, rank, slot),
        Collective::Reduce { .. } => one_if(slot == 0, rank, 0),
        Collective::Gather { .. } => one_if(slot == rank, rank, 0),
        Collective::Scatter { root } => one_if(rank == root && slot < ranks, root, slot),
        Collective::ReduceScatter => one_if(slot < ranks, rank, slot),
        Collective::Scan => one_if(slot == 0, rank, 0),
    }
}

// Returns whether the value is only this contribution.
#[tactic(auto, unfolding(crate::specs::Collectives::is_value))]
fn is_single(value: &[Contribution], rank: u32, item: u32) -> bool
    ensures { result ≡ is_value value.now (single rank item) }
{
    match value {
        [one] => one.rank == rank && one.item == item,
        _ => false,
    }
}

// Returns whether the value is item number `item` of each of the first `count` ranks.
fn is_of_each(value: &[Contribution], count: u32, item: u32) -> bool
    ensures { result ≡ is_value value.now (of_each count item) }
{
    if value.len() != count as usize {
        return false;
    }
    for (rank, one) in value.iter().enumerate() {
        if one.rank != rank as u32 || one.item != item {
            return false;
        }
    }
    true
}

// Returns whether the value has item 0 of each of the first `count` ranks, and perhaps other contributions.
fn has_of_each(value: &[Contribution], count: u32) -> bool
    requires { IsSorted value.now }
    ensures { result ≡ list_all (has_one value.now) (of_each count 0) }
{
    let mut next = 0;
    for one in value {
        if next < count && one.rank == next && one.item == 0 {
            next += 1;
        }
    }
    next == count
}

// Returns whether the slot may hold the value after a gather. Only slots of the root have a condition. A root that is
// not a rank makes the condition impossible to meet.
#[tactic(auto, unfolding(crate::specs::Collectives::wanted))]
fn is_gathered(root: u32, ranks: u32, rank: u32, slot: u32, value: &[Contribution]) -> bool
    requires { rank < ranks }
    ensures { result ≡ wanted (Collective.Gather root) ranks rank slot value.now }
{
    if slot >= ranks {
        true
    } else if root < ranks {
        rank != root || is_single(value, slot, 0)
    } else {
        rank != 0 || slot != 0 || is_single(value, root, 0)
    }
}

#[tactic(auto, unfolding(crate::specs::Collectives::wanted))]
fn is_reduced(root: u32, ranks: u32, rank: u32, slot: u32, value: &[Contribution]) -> bool
    requires { rank < ranks }
    ensures { result ≡ wanted (Collective.Reduce root) ranks rank slot value.now }
{
    if slot != 0 {
        true
    } else if root < ranks {
        rank != root || is_of_each(value, ranks, 0)
    } else {
        rank != 0 || is_single(value, root, 0)
    }
}

/// Returns whether the value is one that the slot of the rank may hold at the end.
#[tactic(auto, unfolding(crate::specs::Collectives::wanted))]
pub fn is_wanted(what: Collective, ranks: u32, rank: u32, slot: u32, value: &[Contribution]) -> bool
    requires few { ranks ≤ rank_limit }
    requires rank { rank < ranks }
    requires sorted { IsSorted value.now }
    ensures { result ≡ wanted what ranks rank slot value.now }
{
    match what {
        Collective::Bcast { root } => slot != 0 || is_single(value, root, 0),
        Collective::Barrier => slot != 0 || has_of_each(value, ranks),
        Collective::Allgather => slot >= ranks || is_single(value, slot, 0),
        Collective::Allreduce => slot != 0 || is_of_each(value, ranks, 0),
        Collective::Alltoall => {
            slot < ranks || slot >= ranks + ranks || is_single(value, slot - ranks, rank)
        }
        Collective::Reduce { root } => is_reduced(root, ranks, rank, slot, value),
        Collective::Gather { root } => is_gathered(root, ranks, rank, slot, value),
        Collective::Scatter { root } => slot != rank || is_single(value, root, rank),
        Collective::ReduceScatter => slot != rank || is_of_each(value, ranks, rank),
        Collective::Scan => slot != 0 || is_of_each(value, rank + 1, 0),
    }
}

/// Returns the range of slots of the rank that have a condition at the end: the first slot, and the one after the last.
/// Slots outside this range may hold anything.
#[tactic(auto, unfolding(crate::specs::Collectives::wanted))]
pub fn asked(what: Collective, ranks: u32, rank: u32) -> (u32, u32)
    requires few { ranks ≤ rank_limit }
    requires rank { rank < ranks }
    ensures from { (k : ℕ) (v : Value) → wanted what ranks rank k v ≡ false → result.0 ≤ k }
    ensures to { (k : ℕ) (v : Value) → wanted what ranks rank k v ≡ false → k < result.1 }
{
    match what {
        Collective::Allgather => (0, ranks),
        Collective::Alltoall => (ranks, ranks + ranks),
        Collective::Gather { root } => {
            if root >= ranks {
                (0, 1)
            } else if rank == root {
                (0, ranks)
            } else {
                (0, 0)
            }
        }
        Collective::Scatter { .. } | Collective::ReduceScatter => (rank, rank + 1),
        _ => (0, 1),
    }
}
