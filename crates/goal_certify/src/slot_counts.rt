//! How many slots each operation moves.
ghost use Rattle.std.specs.Prelude.{ℕ, ◌≡◌, ◌<◌, ◌≤◌, length, map, sum_by, slice_index, IfOk};
ghost use Rattle.goal_graph.specs.Schedule.{operations};
ghost use Rattle.goal_blocks.specs.Slots.{moved_by, slots};

use crate::sizes::count_moved;
use goal_graph::{Note, Sched};
use goal_limits::MAX_NOTES;
use std::alloc::{AllocError, Global};

/// Returns how many slots each operation of a schedule moves, by rank and number. `Err` means out of memory.
pub fn slot_counts(alloc: Global, sched: &Sched) -> Result<Vec<u64>, AllocError>
    ensures { IfOk result (λ counts. counts.items ≡ map (λ x. length (slots sched.now x)) (operations sched.now)) }
{
    let mut counts = Vec::with_capacity(alloc, sched.count() as usize)?;
    for plan in sched.plans() {
        let of_rank = counts_of_rank(alloc, &plan.notes, plan.ops.len())?;
        counts.extend_from_slice(&of_rank)?;
    }
    Ok(counts)
}

// How many slots each of the first `ops` operations of a rank with these notes moves.
fn counts_of_rank(alloc: Global, notes: &[Note], ops: usize) -> Result<Vec<u64>, AllocError>
    requires { length notes.now ≤ MAX_NOTES }
    ensures long { IfOk result (λ counts. length counts.items ≡ ops) }
    ensures counted { IfOk result (λ counts. (op : ℕ) → op < ops
        → slice_index counts.items op ≡ sum_by (λ note. length (moved_by op note)) notes.now) }
{
    let mut counts = vec![in alloc; 0; ops]?;
    for note in notes {
        match *note {
            Note::Moves { op, .. } => {
                let op = op as usize;
                if op < ops {
                    counts[op] += count_moved(*note);
                }
            }
            Note::Adds { .. } => {}
        }
    }
    Ok(counts)
}
