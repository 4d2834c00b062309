//! Which operations of a rank end before each of them starts.
ghost use Rattle.std.specs.Prelude.{ℕ, ◌≡◌, ◌+◌, ◌*◌, ◌<◌, ◌≤◌, ◌⊎◌, true, false, [], length, OnOk, MatchOption, slice_index_or};
ghost use Rattle.goal_limits.specs.Limits.{certified_op_limit};
ghost use Rattle.goal_graph.specs.declared.plan.When.TheVariants.{AfterEnd};
ghost use Rattle.goal_graph.specs.Schedule.{ops_at};
ghost use Rattle.goal_graph.specs.Fault.{IsOp};
ghost use Rattle.goal_blocks.specs.Race.{EndsBefore};
ghost use Rattle.goal_certify.specs.Rows.{has};
ghost use Rattle.goal_certify.specs.Table.{AreEmpty};
ghost use Rattle.goal_graph.specs.Search.{op_id};
ghost use Rattle.goal_certify.specs.Before.{AreRows, HasNeedsDone, IsMissing};

use crate::races::rows::{join_within, make_room, put};
use goal_graph::{Need, OpId, Sched, When};
use std::alloc::{AllocError, Global};

/// Puts into the row of each operation of the rank the operations that end before it starts.
pub(crate) fn rows_before(
    alloc: Global,
    sched: &Sched,
    rank: u32,
    rows: &mut Vec<u64>,
) -> Result<(), AllocError>
    requires rank { rank < length sched.now }
    requires few { length (ops_at sched.now rank) ≤ certified_op_limit }
    requires empty { AreEmpty rows.old.items }
    ensures room { OnOk result (32 * length (ops_at sched.now rank) ≤ length rows.new.items) }
    ensures rows { OnOk result (AreRows sched.now rank rows.new.items (λ op. op < length (ops_at sched.now rank))) }
{
    let count = sched.op_count(rank) as usize;
    make_room(rows, count)?;
    let mut done = vec![in alloc; false; count]?;
    fill_all(alloc, sched, rank, rows, &mut done)?;
    Ok(())
}

// The rows of all operations of the rank are done.
fn fill_all(
    alloc: Global,
    sched: &Sched,
    rank: u32,
    rows: &mut [u64],
    done: &mut [bool],
) -> Result<(), AllocError>
    requires rank { rank < length sched.now }
    requires few { length (ops_at sched.now rank) ≤ certified_op_limit }
    requires room { 32 * length (ops_at sched.now rank) ≤ length rows.old }
    requires marks { length done.old ≡ length (ops_at sched.now rank) }
    requires rows { AreRows sched.now rank rows.old (λ k. slice_index_or done.old k false ≡ true) }
    ensures rows { OnOk result (AreRows sched.now rank rows.new (λ op. op < length (ops_at sched.now rank))) }
{
    let count = sched.op_count(rank);
    let mut path = Vec::with_capacity(alloc, count as usize)?;
    for op in 0..count {
        fill(sched, OpId { rank, op }, rows, done, &mut path)?;
    }
    Ok(())
}

// Computes the row of an operation, after the rows of the operations that it needs. `path` is a stack that ends with
// the next operation to compute: each operation on it needs the one after it. It is empty before and after.
fn fill(
    sched: &Sched,
    id: OpId,
    rows: &mut [u64],
    done: &mut [bool],
    path: &mut Vec<u32>,
) -> Result<(), AllocError>
    requires exists { IsOp sched.now id }
    requires few { length (ops_at sched.now id.rank) ≤ certified_op_limit }
    requires room { 32 * length (ops_at sched.now id.rank) ≤ length rows.old }
    requires marks { length done.old ≡ length (ops_at sched.now id.rank) }
    requires rows { AreRows sched.now id.rank rows.old (λ k. slice_index_or done.old k false ≡ true) }
    requires path { path.old.items ≡ [] }
    ensures rows { OnOk result (AreRows sched.now id.rank rows.new (λ k. slice_index_or done.new k false ≡ true)) }
    ensures done { OnOk result (slice_index_or done.new id.op false ≡ true) }
    ensures kept { OnOk result ((k : ℕ) → slice_index_or done.old k false ≡ true → slice_index_or done.new k false ≡ true) }
    ensures path { OnOk result (path.new.items ≡ []) }
{
    if done[id.op as usize] {
        return Ok(());
    }
    sched.known();
    path.push(id.op)?;
    while let Some(op) = path.pop() {
        let last = OpId { rank: id.rank, op };
        match first_missing(sched, last, done) {
            Some(needed) => {
                path.push(op)?;
                path.push(needed)?;
            }
            None => {
                gather(sched, last, rows, done);
                done[op as usize] = true;
            }
        }
    }
    Ok(())
}

// The first operation that this one needs and whose row is not done.
fn first_missing(sched: &Sched, id: OpId, done: &[bool]) -> Option<u32>
    requires exists { IsOp sched.now id }
    requires marks { length done.now ≡ length (ops_at sched.now id.rank) }
    ensures { MatchOption result (HasNeedsDone sched.now done.now id) (IsMissing sched.now done.now id) }
{
    for need in sched.needs(id) {
        if !done[need.op as usize] {
            return Some(need.op);
        }
    }
    None
}

// Puts into the row of an operation what is in the rows of the operations that it needs, and those of them that must
// have ended.
fn gather(sched: &Sched, id: OpId, rows: &mut [u64], done: &[bool])
    requires exists { IsOp sched.now id }
    requires few { length (ops_at sched.now id.rank) ≤ certified_op_limit }
    requires room { 32 * length (ops_at sched.now id.rank) ≤ length rows.old }
    requires marks { length done.now ≡ length (ops_at sched.now id.rank) }
    requires rows { AreRows sched.now id.rank rows.old (λ k. slice_index_or done.now k false ≡ true) }
    requires needs { HasNeedsDone sched.now done.now id }
    ensures rows { AreRows sched.now id.rank rows.new (λ k. slice_index_or done.now k false ≡ true) }
    ensures row { (k : ℕ) → k < certified_op_limit → EndsBefore sched.now (op_id id.rank k) id → has rows.new id.op k ≡ true }
{
    let words = (done.len() + 63) / 64;
    for need in sched.needs(id) {
        take(rows, id.op as usize, *need, words);
    }
}

// Puts into the row of `op` what the row of the needed operation has, and the needed operation itself if its end is
// needed. Only the first `words` words of the needed operation's row may have numbers.
fn take(rows: &mut [u64], op: usize, need: Need, words: usize)
    requires op { 32 * op + 32 ≤ length rows.old }
    requires needed { 32 * need.op + 32 ≤ length rows.old }
    requires few { need.op < certified_op_limit }
    requires words { words ≤ 32 }
    requires low { (k : ℕ) → k < certified_op_limit → has rows.old need.op k ≡ true → k < 64 * words }
    ensures adds { (k : ℕ) → k < certified_op_limit → has rows.old need.op k ≡ true → has rows.new op k ≡ true }
    ensures ends { need.when ≡ AfterEnd → has rows.new op need.op ≡ true }
    ensures keeps { (r k : ℕ) → k < certified_op_limit → has rows.old r k ≡ true → has rows.new r k ≡ true }
    ensures no_more { (r k : ℕ) → k < certified_op_limit → has rows.new r k ≡ true → (has rows.old r k ≡ true)
        ⊎ ((r ≡ op) × ((has rows.old need.op k ≡ true) ⊎ ((need.when ≡ AfterEnd) × (k ≡ need.op)))) }
{
    join_within(rows, op, need.op as usize, words);
    match need.when {
        When::AfterEnd => put(rows, op, need.op),
        When::AfterStart => {}
    }
}
