//! The first operation without a depth: one that is on a cycle of dependencies, or waits, directly or through others,
//! for one that is.
ghost use Rattle.std.specs.Prelude.{◌≡◌, ◌+◌, ◌-◌, ◌<◌, ◌≤◌, ◌↔◌, [], length, All, sum, None, IsTrue, IfOk, OnOk, slice_index, slice_set};
ghost use Rattle.goal_graph.specs.Fault.{plain_fault};
ghost use Rattle.goal_graph.specs.Search.{IsSearch, CoversRank, IsFirstMissing, IsFirstInRank, IsFirstOfAll};

use crate::action::OpId;
use crate::plan::Dep;
use crate::tables::Tables;
use std::alloc::{AllocError, Global};

/// Returns the first operation without a depth, by rank and number, if any. `Err` means out of memory.
pub fn first_cycle(alloc: Global, tables: &Tables) -> Result<Option<OpId>, AllocError>
    ensures { IfOk result (IsFirstOfAll tables.now) }
{
    let ranks = tables.plans().len() as u32;
    for rank in 0..ranks {
        if let Some(op) = first_in_rank(alloc, tables, rank)? {
            return Ok(Some(OpId { rank, op }));
        }
    }
    Ok(None)
}

// For each operation the number of its needs that are not finished, and the operations that miss none, in the order in
// which they were found.
#[derive(Drop)]
struct Search {
    missing: Vec<u32>,
    order: Vec<u32>,
}

// The first operation of a rank without a depth.
fn first_in_rank(alloc: Global, tables: &Tables, rank: u32) -> Result<Option<u32>, AllocError>
    requires plain { plain_fault tables.now ≡ None }
    requires rank { rank < length tables.now }
    ensures { IfOk result (IsFirstInRank tables.now rank) }
{
    let plan = &tables.plans()[rank as usize];
    if all_go_back(&plan.deps) {
        return Ok(None);
    }
    if all_go_ahead(&plan.deps) {
        return Ok(None);
    }
    search_rank(alloc, tables, rank)
}

// Returns true only if each operation needs only operations with smaller numbers.
fn all_go_back(deps: &[Dep]) -> bool
    ensures { IsTrue result → All (λ d. d.earlier < d.later) deps.now }
{
    for dep in deps {
        if dep.later <= dep.earlier {
            return false;
        }
    }
    true
}

// Returns true only if each operation needs only operations with greater numbers.
fn all_go_ahead(deps: &[Dep]) -> bool
    ensures { IsTrue result → All (λ d. d.later < d.earlier) deps.now }
{
    for dep in deps {
        if dep.earlier <= dep.later {
            return false;
        }
    }
    true
}

// The first operation of a rank without a depth, by a search.
fn search_rank(alloc: Global, tables: &Tables, rank: u32) -> Result<Option<u32>, AllocError>
    requires plain { plain_fault tables.now ≡ None }
    requires rank { rank < length tables.now }
    ensures { IfOk result (IsFirstInRank tables.now rank) }
{
    let mut search = begin(alloc, tables, rank)?;
    let mut done = 0;
    while done < search.order.len() {
        finish(tables, rank, &mut search.missing, &mut search.order, done)?;
        done += 1;
    }
    Ok(first_missing(&search.missing))
}

// Begins a search: nothing is finished.
fn begin(alloc: Global, tables: &Tables, rank: u32) -> Result<Search, AllocError>
    requires plain { plain_fault tables.now ≡ None }
    requires rank { rank < length tables.now }
    ensures search { IfOk result (λ s. IsSearch tables.now rank s.missing.items s.order.items 0 []) }
    ensures covers { IfOk result (λ s. CoversRank tables.now rank s.missing.items) }
{
    let plan = &tables.plans()[rank as usize];
    let ops = plan.ops.len() as u32;
    let mut missing = Vec::with_capacity(alloc, ops as usize)?;
    let mut order = Vec::with_capacity(alloc, ops as usize)?;
    for op in 0..ops {
        let count = tables.needs(OpId { rank, op }).len() as u32;
        missing.push(count)?;
        if count == 0 {
            order.push(op)?;
        }
    }
    Ok(Search { missing, order })
}

// Finishes the next operation in the order.
fn finish(
    tables: &Tables,
    rank: u32,
    missing: &mut [u32],
    order: &mut Vec<u32>,
    done: usize,
) -> Result<(), AllocError>
    requires plain { plain_fault tables.now ≡ None }
    requires rank { rank < length tables.now }
    requires search { IsSearch tables.now rank missing.old order.old.items done [] }
    requires covers { CoversRank tables.now rank missing.old }
    requires next { done < length order.old.items }
    ensures search { OnOk result (IsSearch tables.now rank missing.new order.new.items (done + 1) []) }
    ensures listed { OnOk result (done < length order.new.items) }
    ensures shrinks { OnOk result (sum missing.new + length order.new.items ≤ sum missing.old + length order.old.items) }
{
    let op = order[done];
    for waiting in tables.waiting_on(OpId { rank, op }) {
        if take_off(missing, waiting.op as usize) {
            order.push(waiting.op)?;
        }
    }
    Ok(())
}

// Subtracts one need of an operation. Returns whether it misses none now.
fn take_off(missing: &mut [u32], op: usize) -> bool
    requires in_rank { op < length missing.old }
    requires some { 0 < slice_index missing.old op }
    ensures less { missing.new ≡ slice_set missing.old op (slice_index missing.old op - 1) }
    ensures none { IsTrue result ↔ (slice_index missing.old op - 1 ≡ 0) }
{
    missing[op] -= 1;
    missing[op] == 0
}

// The first operation that misses something.
fn first_missing(missing: &[u32]) -> Option<u32>
    requires { length missing.now ≤ 4294967296 }
    ensures { IsFirstMissing missing.now result }
{
    for (op, count) in missing.iter().enumerate() {
        if *count > 0 {
            return Some(op as u32);
        }
    }
    None
}
