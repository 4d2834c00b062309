//! The knots of stuck operations.
ghost use Rattle.std.specs.Prelude.{◌≡◌, ◌≤◌, ◌<◌, ℕ, length, slice_index, is_none, IfOk};
ghost use Rattle.goal_limits.specs.declared.limits.TheConstants.{MAX_OPS};
ghost use Rattle.sim_cycles.specs.Knots.{named, members, knots};
ghost use Rattle.sim_cycles.specs.Laws.{IsInOrder, NamesListed};
ghost use Rattle.sim_cycles.specs.Places.{op_at, AreTargets, AreCounts};

use crate::heads::heads;
use crate::knot::{Knot, OpList};
use crate::targets::targets;
use goal_graph::{Stuck, Why};
use goal_limits::NoMemory;
use std::alloc::{AllocError, Global};

/// Returns the knots of a list of stuck operations, in the order of their least members.
///
/// Each operation leads to the one that its reason names. Following the reasons from any of them ends at one that is
/// alone, or in a cycle: this is its knot. The members of a knot are listed from the least on, each before the one that
/// its reason names. `behind` is the number of operations that lead there, the members included.
///
/// The list has at most 2^20 operations, ordered by rank and number, and each that a reason names is one of them. Takes
/// time proportional to n log n for a list of n. `Err` means out of memory.
pub fn knots(alloc: Global, list: &[Stuck]) -> Result<Vec<Knot>, NoMemory>
    requires short { length list.now ≤ MAX_OPS }
    requires order { IsInOrder list.now }
    requires listed { NamesListed list.now }
    ensures { IfOk result (λ found. found.items ≡ knots list.now) }
{
    let targets = targets(alloc, list)?;
    let heads = heads(alloc, &targets)?;
    let counts = counts(alloc, &heads)?;
    let mut found = Vec::new(alloc);
    for (at, stuck) in list.iter().enumerate() {
        if heads[at] == at {
            let members = members(alloc, list, &targets, at)?;
            found.push(Knot {
                lone: is_alone(stuck.why),
                members,
                behind: counts[at],
            })?;
        }
    }
    Ok(found)
}

// Whether a reason names no operation.
fn is_alone(why: Why) -> bool
    ensures { result ≡ is_none (named why) }
{
    match why {
        Why::Op(_) | Why::Partner(_) => false,
        Why::Alone => true,
    }
}

// The number of places of which each place is the head.
fn counts(alloc: Global, heads: &[usize]) -> Result<Vec<u32>, AllocError>
    requires short { length heads.now ≤ MAX_OPS }
    requires inside { (i : ℕ) → i < length heads.now → slice_index heads.now i < length heads.now }
    ensures { IfOk result (λ counts. AreCounts heads.now counts.items) }
{
    let mut counts = vec![in alloc; 0; heads.len()]?;
    for head in heads {
        counts[*head] += 1;
    }
    Ok(counts)
}

// The members of a knot, from the one at `first` on, in the order of following.
fn members(
    alloc: Global,
    list: &[Stuck],
    targets: &[usize],
    first: usize,
) -> Result<OpList, AllocError>
    requires order { IsInOrder list.now }
    requires targets { AreTargets list.now targets.now }
    requires first { first < length list.now }
    ensures { IfOk result (λ ops. ops ≡ members list.now (op_at list.now first)) }
{
    let mut ops = Vec::new(alloc);
    ops.push(list[first].op)?;
    let mut at = targets[first];
    'round: for _ in 0..list.len() {
        if at == first {
            break 'round;
        }
        ops.push(list[at].op)?;
        at = targets[at];
    }
    Ok(OpList::from(ops))
}
