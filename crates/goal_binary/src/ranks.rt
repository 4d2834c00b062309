//! The records of the ranks, in both layouts.
ghost use Rattle.std.specs.Prelude.{◌≡◌, ◌+◌, ◌≤◌, [], length, IfOk};
ghost use Rattle.goal_binary.specs.Reading.{rank_at, ranks_at, records_at};
ghost use Rattle.goal_binary.specs.Returned.{Gives};

use crate::fault::FileFault;
use crate::fields::{count_at, rank_count_at};
use crate::items::{deps_at, notes_at, ops_at};
use crate::layout::Layout;
use goal_graph::RankPlan;
use goal_limits::{MAX_DEPS, MAX_NOTES, MAX_OPS};
use std::alloc::Global;

/// The numbers of operations, dependencies and notes of some ranks together.
#[derive(Clone, Copy)]
struct CountsSoFar {
    ops: u32,
    deps: u32,
    notes: u32,
}

/// Reads the record of a rank; the ranks before it have these totals.
#[tactic(auto, unfolding(crate::specs::Reading::rank_at))]
fn rank_at(
    alloc: Global,
    bytes: &[u8],
    layout: Layout,
    before: CountsSoFar,
    at: usize,
) -> Result<(RankPlan, usize), FileFault>
    ensures plan { Gives (λ x. x) result (rank_at bytes.now layout before.ops before.deps before.notes at) }
    ensures ops { IfOk result (λ x. before.ops + length x.0.ops ≤ MAX_OPS) }
    ensures deps { IfOk result (λ x. before.deps + length x.0.deps ≤ MAX_DEPS) }
    ensures notes { IfOk result (λ x. before.notes + length x.0.notes ≤ MAX_NOTES) }
{
    let (op_count, deps_count_at) = count_at(bytes, layout, MAX_OPS, before.ops, at)?;
    let (dep_count, notes_count_at) = count_at(
        bytes,
        layout,
        MAX_DEPS,
        before.deps,
        deps_count_at,
    )?;
    let (note_count, ops_from) = count_at(bytes, layout, MAX_NOTES, before.notes, notes_count_at)?;
    let (ops, deps_from) = ops_at(alloc, bytes, layout, op_count, ops_from)?;
    let (deps, notes_from) = deps_at(alloc, bytes, layout, dep_count, deps_from)?;
    let (notes, after) = notes_at(alloc, bytes, layout, note_count, notes_from)?;
    Ok((RankPlan { ops, deps, notes }, after))
}

/// Reads the records of `count` ranks, from this place on.
fn ranks_at(
    alloc: Global,
    bytes: &[u8],
    layout: Layout,
    count: u32,
    at: usize,
) -> Result<(Vec<RankPlan>, usize), FileFault>
    ensures { Gives (λ x. (x.0.items, x.1)) result (ranks_at bytes.now layout count [] at) }
{
    let mut plans: Vec<RankPlan> = Vec::new(alloc);
    let mut totals = CountsSoFar {
        ops: 0,
        deps: 0,
        notes: 0,
    };
    let mut place = at;
    for _ in 0..count {
        let (plan, after) = rank_at(alloc, bytes, layout, totals, place)?;
        totals = CountsSoFar {
            ops: totals.ops + plan.ops.len() as u32,
            deps: totals.deps + plan.deps.len() as u32,
            notes: totals.notes + plan.notes.len() as u32,
        };
        plans.push(plan)?;
        place = after;
    }
    Ok((plans, place))
}

/// Reads the number of ranks, and their records.
#[tactic(auto, unfolding(crate::specs::Reading::records_at))]
pub fn records_at(
    alloc: Global,
    bytes: &[u8],
    layout: Layout,
    at: usize,
) -> Result<(Vec<RankPlan>, usize), FileFault>
    ensures { Gives (λ x. (x.0.items, x.1)) result (records_at bytes.now layout at) }
{
    let (count, ranks) = rank_count_at(bytes, layout, at)?;
    ranks_at(alloc, bytes, layout, count, ranks)
}
