//! Plans and schedules for several tests.
use goal_graph::{Dep, Kind, Note, Op, PlanFault, RankPlan, Sched, When};
use std::alloc::{AllocError, Global};

/// A calc of one nanosecond, on cpu 0 and NIC 0.
pub const CALC: Op = Op {
    kind: Kind::Calc { nanos: 1 },
    cpu: 0,
    nic: 0,
};

/// The dependency of an operation on an earlier one, by their numbers.
pub fn dep(later: u32, earlier: u32, when: When) -> Dep {
    Dep {
        later,
        earlier,
        when,
    }
}

/// An operation on cpu 0 and NIC 0.
pub fn op(kind: Kind) -> Op {
    Op {
        kind,
        cpu: 0,
        nic: 0,
    }
}

/// The plan of a rank with these operations, all on cpu 0 and NIC 0. `Err` means out of memory.
pub fn plan(alloc: Global, kinds: &[Kind], deps: &[Dep]) -> Result<RankPlan, AllocError> {
    let mut ops = Vec::new(alloc);
    for kind in kinds {
        ops.push(op(*kind))?;
    }
    Ok(RankPlan {
        ops,
        deps: deps.to_vec(alloc)?,
        notes: Vec::new(alloc),
    })
}

/// A plan without dependencies. `Err` means out of memory.
pub fn noted_plan(alloc: Global, ops: &[Op], notes: &[Note]) -> Result<RankPlan, AllocError> {
    Ok(RankPlan {
        ops: ops.to_vec(alloc)?,
        deps: Vec::new(alloc),
        notes: notes.to_vec(alloc)?,
    })
}

/// A schedule of one rank, or its fault.
pub fn one_rank(
    alloc: Global,
    ops: &[Op],
    deps: &[Dep],
    notes: &[Note],
) -> Result<Sched, PlanFault> {
    let ops = ops.to_vec(alloc)?;
    let deps = deps.to_vec(alloc)?;
    let notes = notes.to_vec(alloc)?;
    let plans = vec![in alloc; RankPlan { ops, deps, notes }]?;
    Sched::build(alloc, plans)
}
