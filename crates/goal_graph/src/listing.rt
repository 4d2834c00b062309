//! The list of all operations, in order.
ghost use Rattle.std.specs.Prelude.{◌≡◌, ◌<◌, ◌≤◌, ◌^◌, ◌++◌, IfOk, OnOk, length};
ghost use Rattle.goal_graph.specs.Schedule.{operations, places_of_rank};
ghost use Rattle.goal_graph.specs.Fault.{op_count};

use crate::action::OpId;
use crate::plan::{Op, RankPlan};
use std::alloc::{AllocError, Global};

/// Returns every operation of the plans, by rank and number. It reserves room for `count` at once. `Err` means out of
/// memory.
pub fn list_operations(
    alloc: Global,
    plans: &[RankPlan],
    count: u32,
) -> Result<Vec<OpId>, AllocError>
    requires ranks { length plans.now < 2 ^ 32 }
    requires few { op_count plans.now < 2 ^ 32 }
    ensures { IfOk result (λ ids. ids.items ≡ operations plans.now) }
{
    let mut ids = Vec::with_capacity(alloc, count as usize)?;
    for (rank, plan) in plans.iter().enumerate() {
        list_rank(&mut ids, rank as u32, &plan.ops)?;
    }
    Ok(ids)
}

// Appends the operations of one rank.
fn list_rank(ids: &mut Vec<OpId>, rank: u32, ops: &[Op]) -> Result<(), AllocError>
    requires { length ops.now < 2 ^ 32 }
    ensures { OnOk result (ids.new.items ≡ ids.old.items ++ places_of_rank rank 0 ops.now) }
{
    ids.reserve(ops.len())?;
    for op in 0..ops.len() {
        ids.push_reserved(OpId {
            rank,
            op: op as u32,
        });
    }
    Ok(())
}
