//! Schedules: lists of plans that break no rule.
ghost use Rattle.std.specs.Prelude.{◌≡◌, ◌≢◌, ◌<◌, ◌≤◌, ◌⊎◌, List, length, Some, All, IfOk, IfErr, OnOk, IsTrue, IsOkUnless, IsErrOf, slice_get};
ghost use Rattle.goal_graph.specs.declared.fault.PlanFault.{PlanFault};
ghost use Rattle.goal_graph.specs.Schedule.{Plan, op_at, kind_at, ops_at, needs, needed, operations, IsSend};
ghost use Rattle.goal_graph.specs.Concerned.{waiting_on};
ghost use Rattle.goal_graph.specs.declared.plan.Kind.TheVariants as kind;
ghost use Rattle.goal_graph.specs.Fault.{IsOp, IsFault, IsAccepted, value_fits, has_peer};
ghost use Rattle.goal_graph.specs.Limits.{AreCountsWithin};
ghost use Rattle.goal_graph.specs.Widths.{AreInWidth};

use crate::action::OpId;
use crate::check::first_plain_fault;
use crate::cycle::first_cycle;
use crate::fault::PlanFault;
use crate::listing::list_operations;
use crate::plan::{Kind, Message, Need, Op, RankPlan};
use crate::tables::Tables;
use goal_limits::{MAX_BYTES, MAX_OPS};
use std::alloc::Global;
use std::marker::Model;

/// A schedule: for each rank its operations, dependencies and notes. It breaks no rule of [`PlanFault`].
/// Contracts see the list of its plans.
#[derive(Debug, Drop)]
pub struct Sched {
    tables: Tables,
    operations: Vec<OpId>,
}

impl Model for Sched {
    ghost use Rattle.std.specs.Prelude.{◌≡◌, List};
    ghost use Rattle.goal_graph.specs.Schedule.{Plan, operations as all_operations};
    ghost use Rattle.goal_graph.specs.Fault.{IsAccepted};
    ghost use Rattle.goal_graph.specs.Widths.{AreInWidth};

    ghost Value = { List Plan };

    ghost view = { λ s. s.tables };

    ghost invariant = { λ s. IsAccepted s.tables × AreInWidth s.tables × (s.operations.items ≡ all_operations s.tables) };
}

impl Sched {
    /// Builds the schedule of these plans. `Err` is the first rule that they break, or `NoMemory`.
    pub fn build(alloc: Global, plans: Vec<RankPlan>) -> Result<Sched, PlanFault>
        ensures schedule { IfOk result (λ sched. sched ≡ plans.items) }
        ensures accepted { OnOk result (IsAccepted plans.items) }
        ensures accepts { IsAccepted plans.items → IsOkUnless result PlanFault.NoMemory }
        ensures fault { IfErr result (λ fault. fault ≢ PlanFault.NoMemory → IsFault plans.items fault) }
        ensures faults { (fault : PlanFault) → IsFault plans.items fault
            → IsErrOf result fault ⊎ IsErrOf result PlanFault.NoMemory }
    {
        if let Some(fault) = first_plain_fault(&plans) {
            return Err(fault);
        }
        let tables = Tables::of(alloc, plans)?;
        if let Some(OpId { rank, op }) = first_cycle(alloc, &tables)? {
            return Err(PlanFault::Cycle { rank, op });
        }
        let operations = list_operations(alloc, tables.plans(), tables.count())?;
        Ok(Sched { tables, operations })
    }

    /// Returns the plans of all ranks.
    pub fn plans(&self) -> &[RankPlan]
        ensures plans { result.now ≡ self.now }
        ensures accepted { IsAccepted self.now }
        ensures counts { AreCountsWithin self.now }
        ensures widths { AreInWidth self.now }
    {
        self.tables.plans()
    }

    /// States to a proof that the schedule breaks no rule. It does nothing.
    pub fn known(&self)
        ensures accepted { IsAccepted self.now }
    {
        let _ = &self.tables;
    }

    /// Returns every operation, by rank and number.
    pub fn operations(&self) -> &[OpId]
        ensures all { result.now ≡ operations self.now }
        ensures exist { All (λ x. IsOp self.now x) result.now }
    {
        &self.operations
    }

    /// Returns an operation.
    pub fn op(&self, id: OpId) -> &Op
        requires { IsOp self.now id }
        ensures op { op_at self.now id ≡ Some result.now }
        ensures value { IsTrue (value_fits result.now.kind result.now.nic) }
        ensures peer { IsTrue (has_peer (length self.now) result.now.kind) }
    {
        self.tables.op(id)
    }

    /// Returns the message of a send.
    pub fn message(&self, send: OpId) -> Message
        requires { IsSend self.now send }
        ensures kind { kind_at self.now send ≡ Some (kind.Send result.bytes result.to result.tag) }
        ensures within { result.bytes ≤ MAX_BYTES }
    {
        match self.op(send).kind {
            Kind::Send { bytes, to, tag } => Message { to, bytes, tag },
            _ => unreachable!(),
        }
    }

    /// Returns the number of operations of a rank, at most 2^20.
    pub fn op_count(&self, rank: u32) -> u32
        requires { rank < length self.now }
        ensures count { result ≡ length (ops_at self.now rank) }
        ensures few { result ≤ MAX_OPS }
    {
        let plan = &self.plans()[rank as usize];
        plan.ops.len() as u32
    }

    /// Returns what an operation needs, in the order of the rank's dependencies.
    pub fn needs(&self, id: OpId) -> &[Need]
        requires { IsOp self.now id }
        ensures needs { result.now ≡ needs self.now id }
        ensures exist { All (λ need. IsOp self.now (needed id need)) result.now }
    {
        self.tables.needs(id)
    }

    /// Returns the operations that need this one, in the order of the rank's dependencies.
    pub fn waiting_on(&self, id: OpId) -> &[Need]
        requires { IsOp self.now id }
        ensures waiting_on { result.now ≡ waiting_on self.now id }
        ensures exist { All (λ need. IsOp self.now (needed id need)) result.now }
    {
        self.tables.waiting_on(id)
    }

    /// Returns the number of all operations, at most 2^20.
    pub fn count(&self) -> u32
        ensures count { result ≡ length (operations self.now) }
        ensures small { result ≤ MAX_OPS }
    {
        self.tables.count()
    }

    /// Returns the place of an operation in `operations`.
    pub fn index(&self, id: OpId) -> u32
        requires { IsOp self.now id }
        ensures index { slice_get (operations self.now) result ≡ Some id }
        ensures below { result < length (operations self.now) }
    {
        self.tables.index(id)
    }
}
