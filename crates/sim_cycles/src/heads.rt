//! The least member of the knot of each stuck operation, by places in their list.
ghost use Rattle.std.specs.Prelude.{◌≡◌, ◌⊎◌, ◌<◌, ◌≤◌, ℕ, false, [], length, drop, All, Contains, IfOk, OnOk};
ghost use Rattle.sim_cycles.specs.Walks.{IsHeadOf};
ghost use Rattle.sim_cycles.specs.Places.{target_at, IsClosed, AreHeads, mark_at, is_unseen, AreMarks, AreSettled, StaySeen};
ghost use Rattle.sim_cycles.specs.declared.heads.Mark.TheVariants.{Known};

use std::alloc::{AllocError, Global};

/// What is known of a place while the heads are searched for.
#[derive(Clone, Copy)]
pub enum Mark {
    /// No way has reached it.
    Unseen,
    /// The way that is being walked reached it after this number of steps.
    OnWay(usize),
    /// The head of its knot is at this place.
    Known(usize),
}

/// Returns for each place the head of its knot: the least place of the cycle to which the targets lead from there. (A
/// place that is its own target is a cycle.) Each place is visited once, and those of a cycle once more. `Err` means
/// out of memory.
pub fn heads(alloc: Global, targets: &[usize]) -> Result<Vec<usize>, AllocError>
    requires { IsClosed targets.now }
    ensures { IfOk result (λ heads. AreHeads targets.now heads.items) }
{
    let mut marks = vec![in alloc; Mark::Unseen; targets.len()]?;
    mark_all(alloc, targets, &mut marks)?;
    known(alloc, targets, &marks)
}

// Marks each place with its head.
fn mark_all(alloc: Global, targets: &[usize], marks: &mut [Mark]) -> Result<(), AllocError>
    requires closed { IsClosed targets.now }
    requires none { AreSettled targets.now marks.old 0 }
    ensures { OnOk result (AreSettled targets.now marks.new (length targets.now)) }
{
    let mut way = Vec::new(alloc);
    for start in 0..targets.len() {
        way.clear();
        let head = walk(targets, marks, &mut way, start)?;
        settle(marks, &way, head);
    }
    Ok(())
}

// Walks from a place and marks the way, up to where a way has been before. Returns the head of the knot to which it
// leads.
fn walk(
    targets: &[usize],
    marks: &mut [Mark],
    way: &mut Vec<usize>,
    start: usize,
) -> Result<usize, AllocError>
    requires closed { IsClosed targets.now }
    requires start { start < length targets.now }
    requires blank { way.old.items ≡ [] }
    requires settled { AreSettled targets.now marks.old start }
    ensures head { IfOk result (IsHeadOf (target_at targets.now) start) }
    ensures marks { OnOk result (AreMarks targets.now marks.new start way.new.items) }
    ensures seen { OnOk result (is_unseen (mark_at marks.new start) ≡ false) }
    ensures stay { OnOk result (StaySeen marks.old marks.new) }
{
    let mut at = start;
    loop {
        match marks[at] {
            Mark::Known(head) => return Ok(head),
            Mark::OnWay(first) => return Ok(least(way, first)),
            Mark::Unseen => {
                marks[at] = Mark::OnWay(way.len());
                way.push(at)?;
                at = targets[at];
            }
        }
    }
}

// The least place of the cycle in which a way ends. The cycle begins at the step `first`.
fn least(way: &[usize], first: usize) -> usize
    requires { first < length way.now }
    ensures among { Contains (drop first way.now) result }
    ensures least { All (λ at. result ≤ at) (drop first way.now) }
{
    let ring = &way[first..];
    let mut least = ring[0];
    for at in ring {
        least = least.min(*at);
    }
    least
}

// Marks a way with the head to which it leads.
fn settle(marks: &mut [Mark], way: &[usize], head: usize)
    requires { All (λ at. at < length marks.old) way.now }
    ensures set { (i : ℕ) → Contains way.now i → mark_at marks.new i ≡ Known head }
    ensures kept { (i : ℕ) → (mark_at marks.new i ≡ mark_at marks.old i)
        ⊎ (Contains way.now i × (mark_at marks.new i ≡ Known head)) }
{
    for at in way {
        marks[*at] = Mark::Known(head);
    }
}

// The heads that the marks name.
fn known(alloc: Global, targets: &[usize], marks: &[Mark]) -> Result<Vec<usize>, AllocError>
    requires { AreSettled targets.now marks.now (length targets.now) }
    ensures { IfOk result (λ heads. AreHeads targets.now heads.items) }
{
    let mut heads = Vec::new(alloc);
    for mark in marks {
        match mark {
            Mark::Known(head) => heads.push(*head)?,
            Mark::Unseen | Mark::OnWay(_) => unreachable!(),
        }
    }
    Ok(heads)
}
