//! The plans that were read.
ghost use Rattle.std.specs.Prelude.{◌≡◌, IfOk, replicate, slice_set};
ghost use Rattle.goal_parser.specs.Plans.{empty_plan};

use goal_graph::RankPlan;
use std::alloc::{AllocError, Global};

/// Creates `count` empty plans. `Err` means out of memory.
pub fn empty_plans(alloc: Global, count: u64) -> Result<Vec<RankPlan>, AllocError>
    ensures { IfOk result (λ plans. plans.items ≡ replicate count empty_plan) }
{
    let mut plans = Vec::new(alloc);
    for i in 0..count {
        plans.push(RankPlan {
            ops: Vec::new(alloc),
            deps: Vec::new(alloc),
            notes: Vec::new(alloc),
        })?;
    }
    Ok(plans)
}

/// Replaces the plan of a rank by that of its block.
pub fn put(plans: &mut Vec<RankPlan>, rank: u64, plan: RankPlan)
    ensures { plans.new.items ≡ slice_set plans.old.items rank plan }
{
    let rank = rank as usize;
    if rank < plans.len() {
        plans[rank] = plan;
    }
}
