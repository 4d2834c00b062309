//! The lines of knots.
ghost use Rattle.std.specs.Prelude.{◌≡◌, ◌++◌, OnOk, IfOk};
ghost use Rattle.std.specs.List.{flat_map};
ghost use Rattle.sim_cycles.specs.KnotsText.{knot_word, member_text, knot_line, knots_text};

use crate::knot::Knot;
use goal_base::TextOut;
use goal_graph::OpId;
use goal_limits::NoMemory;
use std::alloc::Global;

/// Returns a line for each knot, in the order of the list: `alone R I behind N`, or `ring`, each member as ` R I`, and
/// ` behind N`. `Err` means out of memory.
pub fn knots_text(alloc: Global, list: &[Knot]) -> Result<Vec<u8>, NoMemory>
    ensures { IfOk result (λ text. text.items ≡ knots_text list.now) }
{
    let mut out = TextOut::new(alloc);
    for knot in list {
        put_line(&mut out, knot)?;
    }
    Ok(out.into_bytes())
}

// Appends the line of a knot.
fn put_line(out: &mut TextOut, knot: &Knot) -> Result<(), NoMemory>
    ensures { OnOk result (out.new ≡ out.old ++ knot_line knot.now) }
{
    out.word(knot_word(knot.lone))?;
    put_members(out, knot.members.as_slice())?;
    out.word(" behind ")?;
    out.number(u128::from(knot.behind))?;
    out.word("\n")
}

// The word with which the line of a knot begins.
fn knot_word(lone: bool) -> &'static str
    ensures { result.now ≡ knot_word lone }
{
    if lone { "alone" } else { "ring" }
}

// Appends the members of a knot.
fn put_members(out: &mut TextOut, members: &[OpId]) -> Result<(), NoMemory>
    ensures { OnOk result (out.new ≡ out.old ++ flat_map member_text members.now) }
{
    for member in members {
        put_member(out, *member)?;
    }
    Ok(())
}

// Appends a member of a knot.
fn put_member(out: &mut TextOut, member: OpId) -> Result<(), NoMemory>
    ensures { OnOk result (out.new ≡ out.old ++ member_text member) }
{
    out.word(" ")?;
    out.pair(member.rank, member.op)
}
