//! Merging two values.
ghost use Rattle.std.specs.Prelude.{◌≡◌, IfOk};
ghost use Rattle.goal_blocks.specs.Values.{is_lower, merge};
ghost use Rattle.goal_blocks.specs.Stored.{IsSorted};

use crate::contribution::Contribution;
use goal_limits::NoMemory;
use std::alloc::Global;

// Returns whether the first comes before the second.
fn is_lower(first: Contribution, second: Contribution) -> bool
    ensures { result ≡ is_lower first second }
{
    first.rank < second.rank || (first.rank == second.rank && first.item < second.item)
}

/// Returns the contributions of both sorted values, sorted, in one pass. `Err` means out of memory.
pub(crate) fn merged(
    alloc: Global,
    left: &[Contribution],
    right: &[Contribution],
) -> Result<Vec<Contribution>, NoMemory>
    requires left { IsSorted left.now }
    requires right { IsSorted right.now }
    ensures { IfOk result (λ v. v.items ≡ merge left.now right.now) }
{
    let mut sum = Vec::new(alloc);
    let mut i = 0;
    let mut j = 0;
    while i < left.len() && j < right.len() {
        if is_lower(right[j], left[i]) {
            sum.push(right[j])?;
            j += 1;
        } else {
            sum.push(left[i])?;
            i += 1;
        }
    }
    sum.extend_from_slice(&left[i..])?;
    sum.extend_from_slice(&right[j..])?;
    Ok(sum)
}
