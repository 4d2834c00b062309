//! The first rule that a list of plans breaks, other than the rule against cycles.
ghost use Rattle.std.specs.Prelude.{◌≡◌, ◌≤◌, ◌^◌, length, All, IfNone};
ghost use Rattle.std.specs.Option.{option_copied};
ghost use Rattle.goal_graph.specs.Fault.{value_fits, has_peer, can_add, can_move, op_fault, dep_fault, note_fault, first_fault, rank_fault, count_over, op_count, dep_count, note_count, count_fault, plain_fault};
ghost use Rattle.goal_graph.specs.Widths.{IsKindInWidth, IsOpInWidth, IsNoteInWidth, IsPlanInWidth, AreInWidth};

use crate::fault::PlanFault;
use crate::plan::{Dep, Kind, Note, Op, RankPlan};
use goal_limits::{MAX_BYTES, MAX_DEPS, MAX_NANOS, MAX_NOTES, MAX_OPS, MAX_RANKS};

// Returns whether a size or duration is within its limit, and a calc has nic 0.
fn is_value_in_range(kind: Kind, nic: u8) -> bool
    ensures { result ≡ value_fits kind nic }
{
    match kind {
        Kind::Calc { nanos } => nanos <= MAX_NANOS && nic == 0,
        Kind::Send { bytes, .. } | Kind::Recv { bytes, .. } => bytes <= MAX_BYTES,
    }
}

// Returns whether the target of a send, or the source of a receive, is a rank.
fn is_peer_in_range(ranks: u32, kind: Kind) -> bool
    ensures peer { result ≡ has_peer ranks kind }
    ensures width { IsKindInWidth kind }
{
    match kind {
        Kind::Calc { .. } => true,
        Kind::Send { to, .. } => to < ranks,
        Kind::Recv { from, .. } => from.is_none_or(|rank| rank < ranks),
    }
}

// The fault of one operation. A wrong value comes before a wrong peer.
fn fault_of_op(ranks: u32, rank: u32, number: u32, op: Op) -> Option<PlanFault>
    ensures fault { result ≡ op_fault ranks rank number op }
    ensures width { IsOpInWidth op }
{
    let has_peer = is_peer_in_range(ranks, op.kind);
    if !is_value_in_range(op.kind, op.nic) {
        Some(PlanFault::Value { rank, op: number })
    } else if !has_peer {
        Some(PlanFault::Peer { rank, op: number })
    } else {
        None
    }
}

// The fault of one dependency.
fn fault_of_dep(ops: usize, rank: u32, number: u32, dep: Dep) -> Option<PlanFault>
    ensures { result ≡ dep_fault ops rank number dep }
{
    if (dep.later as usize) < ops && (dep.earlier as usize) < ops {
        None
    } else {
        Some(PlanFault::DepRange { rank, dep: number })
    }
}

fn is_calc(op: Option<&Op>) -> bool
    ensures { result ≡ can_add (option_copied op.entry) }
{
    matches!(op, Some(op) if matches!(op.kind, Kind::Calc { .. }))
}

fn is_message(op: Option<&Op>) -> bool
    ensures { result ≡ can_move (option_copied op.entry) }
{
    matches!(op, Some(op) if !matches!(op.kind, Kind::Calc { .. }))
}

// The fault of one note.
fn fault_of_note(ops: &[Op], rank: u32, number: u32, note: Note) -> Option<PlanFault>
    ensures fault { result ≡ note_fault ops.now rank number note }
    ensures width { IsNoteInWidth note }
{
    let fits = match note {
        Note::Moves { op, lo, hi } => is_message(ops.get(op as usize)) && lo <= hi,
        Note::Adds { op, .. } => is_calc(ops.get(op as usize)),
    };
    if fits {
        None
    } else {
        Some(PlanFault::NoteMisfit { rank, note: number })
    }
}

// The first fault of a rank's operations.
fn first_op_fault(ranks: u32, rank: u32, ops: &[Op]) -> Option<PlanFault>
    requires { length ops.now ≤ 2 ^ 32 }
    ensures fault { result ≡ first_fault (op_fault ranks rank) 0 ops.now }
    ensures width { IfNone result (All IsOpInWidth ops.now) }
{
    for (number, op) in ops.iter().enumerate() {
        if let Some(fault) = fault_of_op(ranks, rank, number as u32, *op) {
            return Some(fault);
        }
    }
    None
}

// The first fault of a rank's dependencies.
fn first_dep_fault(ops: usize, rank: u32, deps: &[Dep]) -> Option<PlanFault>
    requires { length deps.now ≤ 2 ^ 32 }
    ensures { result ≡ first_fault (dep_fault ops rank) 0 deps.now }
{
    for (number, dep) in deps.iter().enumerate() {
        if let Some(fault) = fault_of_dep(ops, rank, number as u32, *dep) {
            return Some(fault);
        }
    }
    None
}

// The first fault of a rank's notes.
fn first_note_fault(ops: &[Op], rank: u32, notes: &[Note]) -> Option<PlanFault>
    requires { length notes.now ≤ 2 ^ 32 }
    ensures fault { result ≡ first_fault (note_fault ops.now rank) 0 notes.now }
    ensures width { IfNone result (All IsNoteInWidth notes.now) }
{
    for (number, note) in notes.iter().enumerate() {
        if let Some(fault) = fault_of_note(ops, rank, number as u32, *note) {
            return Some(fault);
        }
    }
    None
}

// The first fault of a rank.
fn first_fault_in(ranks: u32, rank: u32, plan: &RankPlan) -> Option<PlanFault>
    requires ops { length plan.now.ops ≤ 2 ^ 32 }
    requires deps { length plan.now.deps ≤ 2 ^ 32 }
    requires notes { length plan.now.notes ≤ 2 ^ 32 }
    ensures fault { result ≡ rank_fault ranks rank plan.now }
    ensures width { IfNone result (IsPlanInWidth plan.now) }
{
    if let Some(fault) = first_op_fault(ranks, rank, &plan.ops) {
        return Some(fault);
    }
    if let Some(fault) = first_dep_fault(plan.ops.len(), rank, &plan.deps) {
        return Some(fault);
    }
    first_note_fault(&plan.ops, rank, &plan.notes)
}

/// The totals of all ranks.
#[derive(Clone, Copy)]
pub struct Totals {
    /// The number of operations.
    pub ops: u128,
    /// The number of dependencies.
    pub deps: u128,
    /// The number of notes.
    pub notes: u128,
}

/// Returns the totals of these plans.
pub fn totals_of(plans: &[RankPlan]) -> Totals
    requires { length plans.now ≤ MAX_RANKS }
    ensures ops { result.ops ≡ op_count plans.now }
    ensures deps { result.deps ≡ dep_count plans.now }
    ensures notes { result.notes ≡ note_count plans.now }
{
    let mut ops = 0u128;
    let mut deps = 0u128;
    let mut notes = 0u128;
    for plan in plans {
        ops += plan.ops.len() as u128;
        deps += plan.deps.len() as u128;
        notes += plan.notes.len() as u128;
    }
    Totals { ops, deps, notes }
}

// The fault of a number that is over its limit.
fn fault_of_number(limit: u32, found: u128) -> Option<PlanFault>
    ensures { result ≡ count_over limit found }
{
    if found > u128::from(limit) {
        let limit = u64::from(limit);
        Some(PlanFault::Count { found, limit })
    } else {
        None
    }
}

// The fault of the numbers of ranks, operations, dependencies or notes.
fn fault_of_counts(plans: &[RankPlan]) -> Option<PlanFault>
    ensures { result ≡ count_fault plans.now }
{
    if plans.is_empty() {
        let limit = u64::from(MAX_RANKS);
        return Some(PlanFault::Count { found: 0, limit });
    }
    if let Some(fault) = fault_of_number(MAX_RANKS, plans.len() as u128) {
        return Some(fault);
    }
    let totals = totals_of(plans);
    fault_of_number(MAX_OPS, totals.ops)
        .or(fault_of_number(MAX_DEPS, totals.deps))
        .or(fault_of_number(MAX_NOTES, totals.notes))
}

/// Returns the first fault other than a cycle, if any.
pub fn first_plain_fault(plans: &[RankPlan]) -> Option<PlanFault>
    ensures fault { result ≡ plain_fault plans.now }
    ensures width { IfNone result (AreInWidth plans.now) }
{
    if let Some(fault) = fault_of_counts(plans) {
        return Some(fault);
    }
    let ranks = plans.len() as u32;
    for (rank, plan) in plans.iter().enumerate() {
        if let Some(fault) = first_fault_in(ranks, rank as u32, plan) {
            return Some(fault);
        }
    }
    None
}
