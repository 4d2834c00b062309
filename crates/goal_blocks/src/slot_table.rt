//! The slots that the operations of a schedule move, and what its calcs add, collected once.
ghost use Rattle.std.specs.Prelude.{◌≡◌, ℕ, ◌+◌, ◌<◌, ◌≤◌, [], ◌++◌, length, take, flat_map, slice_index, slice_range, IfOk, IfSome, OnOk};
ghost use Rattle.goal_graph.specs.Fault.{IsOp};
ghost use Rattle.goal_blocks.specs.Slots.{added_by, slots, adds};
ghost use Rattle.goal_blocks.specs.SlotTables.{op_of, AreTold, TellsMore, IsRowPushed};
ghost use Rattle.goal_blocks.specs.SlotRanges.{ranges_by, slots_in};
ghost use Rattle.goal_blocks.specs.RankSlots.{AreListed};

use crate::slots::{Adding, SlotRange};
use goal_graph::{Note, OpId, RankPlan, Sched};
use goal_limits::NoMemory;
use std::alloc::{AllocError, Global};
use std::marker::Model;

/// The ranges of slots that each operation of a rank moves, and what it adds. Each of the two lists has the entries of
/// all operations, in their order. Its `starts` give the index of each operation's first entry, and last the length.
#[derive(Drop)]
pub(crate) struct RankSlots {
    pub(crate) moved_starts: Vec<usize>,
    pub(crate) moved: Vec<SlotRange>,
    pub(crate) added_starts: Vec<usize>,
    pub(crate) added: Vec<Adding>,
}

/// The slots that each operation of a schedule moves, and what it adds. Contracts see the schedule.
#[derive(Drop)]
pub struct SlotTable<'a> {
    sched: &'a Sched,
    ranks: Vec<RankSlots>,
}

impl<'a> Model for SlotTable<'a> {
    ghost use Rattle.std.specs.Prelude.{List};
    ghost use Rattle.goal_graph.specs.Schedule.{Plan};
    ghost use Rattle.goal_blocks.specs.RankSlots.{AreTabled};

    ghost Value = { List Plan };

    ghost view = { λ t. t.sched.now };

    ghost invariant = { λ t. AreTabled t.sched.now t.ranks.items };
}

impl<'a> SlotTable<'a> {
    /// Builds the table of this schedule. `Err` means out of memory.
    pub fn new(alloc: Global, sched: &'a Sched) -> Result<SlotTable<'a>, NoMemory>
        ensures { IfOk result (λ t. t ≡ sched.now) }
    {
        let mut ranks = Vec::new(alloc);
        for plan in sched.plans() {
            ranks.push(listed(alloc, plan)?)?;
        }
        Ok(SlotTable { sched, ranks })
    }

    /// Returns the ranges of the slots that the operation moves, in the order of its rank's notes.
    pub fn slots_of(&self, id: OpId) -> &[SlotRange]
        requires { IsOp self.now id }
        ensures { slots_in result.now ≡ slots self.now id }
    {
        let of_rank = &self.ranks[id.rank as usize];
        between(&of_rank.moved, &of_rank.moved_starts, id.op as usize)
    }

    /// Returns what the calc adds, in the order of its rank's notes.
    pub fn adds_of(&self, id: OpId) -> &[Adding]
        requires { IsOp self.now id }
        ensures { result.now ≡ adds self.now id }
    {
        let of_rank = &self.ranks[id.rank as usize];
        between(&of_rank.added, &of_rank.added_starts, id.op as usize)
    }
}

// The entries from the start of row i up to the start of the next.
fn between<'a, T>(entries: &'a [T], starts: &[usize], i: usize) -> &'a [T]
    requires inside { i + 1 < length starts.now }
    requires ordered { slice_index starts.now i ≤ slice_index starts.now (i + 1) }
    requires within { slice_index starts.now (i + 1) ≤ length entries.now }
    ensures { result.now ≡ slice_range entries.now (slice_index starts.now i) (slice_index starts.now (i + 1)) }
{
    &entries[starts[i]..starts[i + 1]]
}

// What each operation of the rank moves and adds.
fn listed(alloc: Global, plan: &RankPlan) -> Result<RankSlots, AllocError>
    ensures { IfOk result (AreListed plan.now) }
{
    match listed_in_order(alloc, plan)? {
        Some(listed) => Ok(listed),
        None => listed_by_operation(alloc, plan),
    }
}

// Returns the same after one pass, or `None` if the notes are not in the order of their operations. Usually they are.
fn listed_in_order(alloc: Global, plan: &RankPlan) -> Result<Option<RankSlots>, AllocError>
    ensures { IfOk result (λ found. IfSome found (AreListed plan.now)) }
{
    let notes = plan.notes.as_slice();
    let mut moved_starts = vec![in alloc; 0; 1]?;
    let mut added_starts = vec![in alloc; 0; 1]?;
    let mut moved = Vec::with_capacity(alloc, notes.len())?;
    let mut added = Vec::new(alloc);
    let mut at = 0;
    for op in 0..plan.ops.len() {
        at = push_notes(&mut moved, &mut added, notes, at, op)?;
        moved_starts.push(moved.len())?;
        added_starts.push(added.len())?;
    }
    if at < notes.len() {
        return Ok(None);
    }
    Ok(Some(RankSlots {
        moved_starts,
        moved,
        added_starts,
        added,
    }))
}

// Appends what the notes of this operation, from the place `at` on, move and add. Returns the place of the first note
// after them.
fn push_notes(
    moved: &mut Vec<SlotRange>,
    added: &mut Vec<Adding>,
    notes: &[Note],
    at: usize,
    op: usize,
) -> Result<usize, AllocError>
    requires at { at ≤ length notes.now }
    requires no_moves { flat_map (ranges_by op) (take at notes.now) ≡ [] }
    requires no_adds { flat_map (added_by op) (take at notes.now) ≡ [] }
    ensures within { IfOk result (λ next. next ≤ length notes.now) }
    ensures moves { IfOk result (λ next. IsRowPushed ranges_by notes.now at next op moved.old.items moved.new.items) }
    ensures adds { IfOk result (λ next. IsRowPushed added_by notes.now at next op added.old.items added.new.items) }
{
    let mut next = at;
    while next < notes.len() && op_of(notes[next]) as usize == op {
        push_note(moved, added, notes[next])?;
        next += 1;
    }
    Ok(next)
}

// The operation of a note.
fn op_of(note: Note) -> u32
    ensures { result ≡ op_of note }
{
    match note {
        Note::Moves { op, .. } => op,
        Note::Adds { op, .. } => op,
    }
}

// Appends what a note moves and adds.
fn push_note(
    moved: &mut Vec<SlotRange>,
    added: &mut Vec<Adding>,
    note: Note,
) -> Result<(), AllocError>
    ensures moves { OnOk result (moved.new.items ≡ moved.old.items ++ ranges_by (op_of note) note) }
    ensures adds { OnOk result (added.new.items ≡ added.old.items ++ added_by (op_of note) note) }
{
    match note {
        Note::Moves { lo, hi, .. } => moved.push(SlotRange { lo, hi })?,
        Note::Adds { from, to, .. } => added.push(Adding { from, to })?,
    }
    Ok(())
}

// The same from a list for each operation, whatever the order of the notes.
fn listed_by_operation(alloc: Global, plan: &RankPlan) -> Result<RankSlots, AllocError>
    ensures { IfOk result (AreListed plan.now) }
{
    let moves = moved_of(alloc, plan)?;
    let adds = added_of(alloc, plan)?;
    let mut moved_starts = vec![in alloc; 0; 1]?;
    let mut added_starts = vec![in alloc; 0; 1]?;
    let mut moved = Vec::new(alloc);
    let mut added = Vec::new(alloc);
    for op in 0..plan.ops.len() {
        moved.extend_from_slice(&moves[op])?;
        added.extend_from_slice(&adds[op])?;
        moved_starts.push(moved.len())?;
        added_starts.push(added.len())?;
    }
    Ok(RankSlots {
        moved_starts,
        moved,
        added_starts,
        added,
    })
}

// The ranges of slots that each operation of the rank moves.
fn moved_of(alloc: Global, plan: &RankPlan) -> Result<Vec<Vec<SlotRange>>, AllocError>
    ensures { IfOk result (λ v. AreTold ranges_by plan.now v.items) }
{
    let mut moved = Vec::new(alloc);
    for _ in 0..plan.ops.len() {
        moved.push(Vec::new(alloc))?;
    }
    for note in &plan.notes {
        match *note {
            Note::Moves { op, lo, hi } => move_more(&mut moved, op, SlotRange { lo, hi })?,
            Note::Adds { .. } => {}
        }
    }
    Ok(moved)
}

// Operation number `op`, if it exists, also moves this range.
fn move_more(moved: &mut [Vec<SlotRange>], op: u32, range: SlotRange) -> Result<(), AllocError>
    ensures { OnOk result (TellsMore ranges_by (Note.Moves op range.lo range.hi) moved.old moved.new) }
{
    if (op as usize) < moved.len() {
        moved[op as usize].push(range)?;
    }
    Ok(())
}

// What each operation of the rank adds.
fn added_of(alloc: Global, plan: &RankPlan) -> Result<Vec<Vec<Adding>>, AllocError>
    ensures { IfOk result (λ v. AreTold added_by plan.now v.items) }
{
    let mut added = Vec::new(alloc);
    for _ in 0..plan.ops.len() {
        added.push(Vec::new(alloc))?;
    }
    for note in &plan.notes {
        match *note {
            Note::Adds { op, from, to } => add_more(&mut added, op, Adding { from, to })?,
            Note::Moves { .. } => {}
        }
    }
    Ok(added)
}

// Operation number `op`, if it exists, also adds this.
fn add_more(added: &mut [Vec<Adding>], op: u32, adding: Adding) -> Result<(), AllocError>
    ensures { OnOk result (TellsMore added_by (Note.Adds op adding.from adding.to) added.old added.new) }
{
    if (op as usize) < added.len() {
        added[op as usize].push(adding)?;
    }
    Ok(())
}
