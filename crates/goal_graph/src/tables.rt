//! Plans with the rows of their dependencies, and the place of each operation in the order of all.
ghost use Rattle.std.specs.Prelude.{◌≡◌, ◌+◌, ◌<◌, ◌≤◌, ◌^◌, List, length, Some, None, IfOk, slice_get, slice_index};
ghost use Rattle.goal_graph.specs.Schedule.{Plan, op_at, needs, operations};
ghost use Rattle.goal_graph.specs.Concerned.{waiting_on};
ghost use Rattle.goal_graph.specs.Fault.{plain_fault, op_count, IsOp};
ghost use Rattle.goal_graph.specs.Tables.{index_of, AreStarts, IsTabled};

use crate::action::OpId;
use crate::plan::{Need, Op, RankPlan};
use crate::rows::{Listing, NeedRows};
use std::alloc::{AllocError, Global};
use std::marker::Model;

/// Plans without a fault other than perhaps a cycle. Contracts see the list of the plans.
#[derive(Debug, Drop)]
pub struct Tables {
    plans: Vec<RankPlan>,
    starts: Vec<u32>,
    needs: NeedRows,
    waiting_on: NeedRows,
}

impl Model for Tables {
    ghost Value = { List Plan };

    ghost view = { λ t. t.plans.items };

    ghost invariant = { λ t. IsTabled t.plans.items t.starts.items t.needs t.waiting_on };
}

impl Tables {
    /// Builds the tables of these plans. `Err` means out of memory.
    pub fn of(alloc: Global, plans: Vec<RankPlan>) -> Result<Tables, AllocError>
        requires { plain_fault plans.items ≡ None }
        ensures { IfOk result (λ tables. tables ≡ plans.items) }
    {
        let starts = starts_of(alloc, &plans)?;
        let needs = NeedRows::of(alloc, &plans, Listing::Needs)?;
        let waiting_on = NeedRows::of(alloc, &plans, Listing::WaitingOn)?;
        Ok(Tables {
            plans,
            starts,
            needs,
            waiting_on,
        })
    }

    /// Returns the plans of all ranks.
    pub fn plans(&self) -> &[RankPlan]
        ensures plans { result.now ≡ self.now }
        ensures plain { plain_fault self.now ≡ None }
    {
        &self.plans
    }

    /// Returns an operation.
    pub fn op(&self, id: OpId) -> &Op
        requires { IsOp self.now id }
        ensures { op_at self.now id ≡ Some result.now }
    {
        let plan = &self.plans[id.rank as usize];
        &plan.ops[id.op as usize]
    }

    /// Returns what an operation needs, in the order of the rank's dependencies.
    pub fn needs(&self, id: OpId) -> &[Need]
        requires { IsOp self.now id }
        ensures { result.now ≡ needs self.now id }
    {
        self.needs
            .row(index_in(&self.plans, &self.starts, id) as usize)
    }

    /// Returns the operations that need this one, in the order of the rank's dependencies.
    pub fn waiting_on(&self, id: OpId) -> &[Need]
        requires { IsOp self.now id }
        ensures { result.now ≡ waiting_on self.now id }
    {
        self.waiting_on
            .row(index_in(&self.plans, &self.starts, id) as usize)
    }

    /// Returns the number of all operations.
    pub fn count(&self) -> u32
        ensures { result ≡ length (operations self.now) }
    {
        self.starts[self.plans.len()]
    }

    /// Returns the place of an operation in the order of all.
    pub fn index(&self, id: OpId) -> u32
        requires { IsOp self.now id }
        ensures { slice_get (operations self.now) result ≡ Some id }
    {
        index_in(&self.plans, &self.starts, id)
    }
}

// The place of each rank's first operation, and at the end the number of all operations.
fn starts_of(alloc: Global, plans: &[RankPlan]) -> Result<Vec<u32>, AllocError>
    requires { op_count plans.now < 2 ^ 32 }
    ensures { IfOk result (λ starts. AreStarts plans.now starts.items) }
{
    let mut starts = Vec::with_capacity(alloc, plans.len() + 1)?;
    let mut count = 0u32;
    starts.push(count)?;
    for plan in plans {
        count += plan.ops.len() as u32;
        starts.push(count)?;
    }
    Ok(starts)
}

// Returns the place of an operation in the order of all.
fn index_in(plans: &[RankPlan], starts: &[u32], id: OpId) -> u32
    requires starts { AreStarts plans.now starts.now }
    requires exists { IsOp plans.now id }
    requires small { op_count plans.now < 2 ^ 32 }
    ensures { result ≡ index_of plans.now id }
{
    starts[id.rank as usize] + id.op
}
