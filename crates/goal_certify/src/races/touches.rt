//! Which slots the operations of a rank touch.
ghost use Rattle.std.specs.Prelude.{◌≡◌, ◌≤◌, ◌+◌, ◌-◌, [], ◌∷◌, ◌++◌, true, false, All, flat_map, slice_get, OnOk, IfOk};
ghost use Rattle.std.specs.Option.{option_map};
ghost use Rattle.goal_limits.specs.Limits.{slot_limit};
ghost use Rattle.goal_blocks.specs.Certification.{NamesLowSlots};
ghost use Rattle.goal_blocks.specs.Slots.{slots_from};
ghost use Rattle.goal_certify.specs.Touches.{touches_of, moved};

use goal_graph::{Kind, Note, Op, RankPlan};
use std::alloc::{AllocError, Global};

/// A touch: an operation reads or writes a slot.
#[derive(Clone, Copy)]
pub(crate) struct Touch {
    /// The operation, by its number at its rank.
    pub op: u32,
    /// The slot.
    pub slot: u32,
    /// Whether it writes the slot.
    pub writes: bool,
}

/// Returns the touches of a rank, in the order of its notes. `Err` means out of memory.
pub(crate) fn touches_of_rank(alloc: Global, plan: &RankPlan) -> Result<Vec<Touch>, AllocError>
    requires { All NamesLowSlots plan.now.notes }
    ensures { IfOk result (λ touches. touches.items ≡ flat_map (touches_of plan.now.ops) plan.now.notes) }
{
    // an addition touches two slots, and a move usually one
    let mut touches = Vec::with_capacity(alloc, 2 * plan.notes.len())?;
    for note in &plan.notes {
        push_touches(&mut touches, &plan.ops, *note)?;
    }
    Ok(touches)
}

// The touches of a note.
fn push_touches(touches: &mut Vec<Touch>, ops: &[Op], note: Note) -> Result<(), AllocError>
    requires { NamesLowSlots note }
    ensures { OnOk result (touches.new.items ≡ touches.old.items ++ touches_of ops.now note) }
{
    match note {
        Note::Moves { op, lo, hi } => match kind_of(ops, op) {
            Some(Kind::Send { .. }) => push_moved(touches, op, lo, hi, false),
            Some(Kind::Recv { .. }) => push_moved(touches, op, lo, hi, true),
            Some(Kind::Calc { .. }) | None => Ok(()),
        },
        Note::Adds { op, from, to } => match kind_of(ops, op) {
            Some(Kind::Calc { .. }) => push_added(touches, op, from, to),
            Some(Kind::Send { .. } | Kind::Recv { .. }) | None => Ok(()),
        },
    }
}

// The kind of the operation of this number, if it exists.
fn kind_of(ops: &[Op], op: u32) -> Option<Kind>
    ensures { result ≡ option_map (λ o. o.kind) (slice_get ops.now op) }
{
    let found = ops.get(op as usize)?;
    Some(found.kind)
}

// The operation moves the slots `lo` up to `hi`.
fn push_moved(
    touches: &mut Vec<Touch>,
    op: u32,
    lo: u32,
    hi: u32,
    writes: bool,
) -> Result<(), AllocError>
    requires { hi ≤ slot_limit }
    ensures { OnOk result (touches.new.items ≡ touches.old.items ++ moved op writes (slots_from lo (hi + 1 - lo))) }
{
    for slot in lo..hi + 1 {
        touches.push(Touch { op, slot, writes })?;
    }
    Ok(())
}

// The operation adds the slot `from` to the slot `to`.
fn push_added(touches: &mut Vec<Touch>, op: u32, from: u32, to: u32) -> Result<(), AllocError>
    ensures { OnOk result (touches.new.items ≡ touches.old.items
        ++ (record { op = op; slot = from; writes = false } ∷ record { op = op; slot = to; writes = true } ∷ [])) }
{
    touches.push(Touch {
        op,
        slot: from,
        writes: false,
    })?;
    touches.push(Touch {
        op,
        slot: to,
        writes: true,
    })?;
    Ok(())
}
