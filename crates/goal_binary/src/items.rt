//! The operations, dependencies and notes of a rank.
ghost use Rattle.std.specs.Prelude.{◌≡◌, ◌-◌, ◌*◌, ◌≤◌, length, IfOk};
ghost use Rattle.goal_binary.specs.Reading.{fixed_op_at, packed_op_at, op_at, fixed_dep_at, packed_dep_at, dep_at, when_of, fixed_note_at, packed_note_at, note_at, note_of, some_byte_if, packed_u32_at, packed_u32_if, list_at};
ghost use Rattle.goal_binary.specs.Returned.{Gives};

use crate::fault::FileFault;
use crate::fields::{
    byte_at, byte_up_to, packed_up_to, some_byte_at, u32_at, u32_up_to, u64_up_to,
};
use crate::form::{form_at, head_at};
use crate::layout::Layout;
use goal_graph::{Dep, Note, Op, When};
use std::alloc::Global;

/// Reads the operation at this place, in version 1.
#[tactic(auto, unfolding(crate::specs::Reading::fixed_op_at))]
fn fixed_op_at(bytes: &[u8], at: usize) -> Result<(Op, usize), FileFault>
    ensures { result ≡ fixed_op_at bytes.now at }
{
    let (form, cpu_at) = form_at(bytes, at)?;
    let (cpu, nic_at) = byte_at(bytes, cpu_at)?;
    let (nic, peer_at) = byte_up_to(bytes, form.most_nic(), nic_at)?;
    let (peer, tag_at) = u32_up_to(bytes, form.most_peer(), peer_at)?;
    let (tag, unused_at) = u32_up_to(bytes, form.most_tag(), tag_at)?;
    let (_, size_at) = u32_up_to(bytes, 0, unused_at)?;
    let (size, after) = u64_up_to(bytes, form.most_size(), size_at)?;
    let kind = form.kind(peer, tag, size);
    Ok((Op { kind, cpu, nic }, after))
}

/// Returns the start or end with this code.
fn when_of(number: u32) -> When
    ensures { result ≡ when_of number }
{
    match number {
        0 => When::AfterEnd,
        _ => When::AfterStart,
    }
}

/// Reads the dependency at this place, in version 1.
#[tactic(auto, unfolding(crate::specs::Reading::fixed_dep_at))]
fn fixed_dep_at(bytes: &[u8], at: usize) -> Result<(Dep, usize), FileFault>
    ensures { result ≡ fixed_dep_at bytes.now at }
{
    let (later, earlier_at) = u32_at(bytes, at)?;
    let (earlier, when_at) = u32_at(bytes, earlier_at)?;
    let (when, after) = u32_up_to(bytes, 1, when_at)?;
    let when = when_of(when);
    Ok((
        Dep {
            later,
            earlier,
            when,
        },
        after,
    ))
}

/// Returns the note of this kind.
fn note_of(kind: u32, op: u32, first: u32, second: u32) -> Note
    ensures { result ≡ note_of kind op first second }
{
    match kind {
        0 => Note::Moves {
            op,
            lo: first,
            hi: second,
        },
        _ => Note::Adds {
            op,
            from: first,
            to: second,
        },
    }
}

/// Reads the note at this place, in version 1.
#[tactic(auto, unfolding(crate::specs::Reading::fixed_note_at))]
fn fixed_note_at(bytes: &[u8], at: usize) -> Result<(Note, usize), FileFault>
    ensures { result ≡ fixed_note_at bytes.now at }
{
    let (kind, op_at) = u32_up_to(bytes, 1, at)?;
    let (op, first_at) = u32_at(bytes, op_at)?;
    let (first, second_at) = u32_at(bytes, first_at)?;
    let (second, after) = u32_at(bytes, second_at)?;
    Ok((note_of(kind, op, first, second), after))
}

/// Reads the byte at this place, which must not be 0, if `there` is true, and otherwise returns 0.
#[inline(always)]
#[tactic(auto, unfolding(crate::specs::Reading::some_byte_if))]
fn some_byte_if(bytes: &[u8], there: bool, at: usize) -> Result<(u8, usize), FileFault>
    ensures { result ≡ some_byte_if bytes.now there at }
{
    if there {
        some_byte_at(bytes, at)
    } else {
        Ok((0, at))
    }
}

/// Reads a packed number of 32 bits.
#[inline(always)]
#[tactic(auto, unfolding(crate::specs::Reading::packed_u32_at))]
fn packed_u32_at(bytes: &[u8], at: usize) -> Result<(u32, usize), FileFault>
    ensures { result ≡ packed_u32_at bytes.now at }
{
    let (number, after) = packed_up_to(bytes, u64::from(u32::MAX), at)?;
    Ok((number as u32, after))
}

/// Reads the packed number at this place if `there` is true, and otherwise returns 0.
#[inline(always)]
#[tactic(auto, unfolding(crate::specs::Reading::packed_u32_if))]
fn packed_u32_if(bytes: &[u8], there: bool, at: usize) -> Result<(u32, usize), FileFault>
    ensures { result ≡ packed_u32_if bytes.now there at }
{
    if there {
        packed_u32_at(bytes, at)
    } else {
        Ok((0, at))
    }
}

/// Reads the operation at this place, in version 2.
#[inline(always)]
#[tactic(auto, unfolding(crate::specs::Reading::packed_op_at))]
fn packed_op_at(bytes: &[u8], at: usize) -> Result<(Op, usize), FileFault>
    ensures { result ≡ packed_op_at bytes.now at }
{
    let (head, cpu_at) = head_at(bytes, at)?;
    let form = head.form;
    let (cpu, nic_at) = some_byte_if(bytes, head.has_cpu, cpu_at)?;
    let (nic, peer_at) = some_byte_if(bytes, head.has_nic, nic_at)?;
    let (peer, tag_at) = packed_u32_if(bytes, form.has_peer(), peer_at)?;
    let (tag, size_at) = packed_u32_if(bytes, form.has_tag(), tag_at)?;
    let (size, after) = packed_up_to(bytes, form.most_size(), size_at)?;
    let kind = form.kind(peer, tag, size);
    Ok((Op { kind, cpu, nic }, after))
}

/// Reads the dependency at this place, in version 2.
#[inline(always)]
#[tactic(auto, unfolding(crate::specs::Reading::packed_dep_at))]
fn packed_dep_at(bytes: &[u8], at: usize) -> Result<(Dep, usize), FileFault>
    ensures { result ≡ packed_dep_at bytes.now at }
{
    let (later, earlier_at) = packed_u32_at(bytes, at)?;
    let (number, after) = packed_up_to(bytes, (1 << 33) - 1, earlier_at)?;
    let earlier = (number / 2) as u32;
    let when = when_of((number % 2) as u32);
    Ok((
        Dep {
            later,
            earlier,
            when,
        },
        after,
    ))
}

/// Reads the note at this place, in version 2.
#[inline(always)]
#[tactic(auto, unfolding(crate::specs::Reading::packed_note_at))]
fn packed_note_at(bytes: &[u8], at: usize) -> Result<(Note, usize), FileFault>
    ensures { result ≡ packed_note_at bytes.now at }
{
    let (kind, op_at) = byte_up_to(bytes, 1, at)?;
    let (op, first_at) = packed_u32_at(bytes, op_at)?;
    let (first, second_at) = packed_u32_at(bytes, first_at)?;
    let (second, after) = packed_u32_at(bytes, second_at)?;
    Ok((note_of(u32::from(kind), op, first, second), after))
}

/// Reads the operation at this place.
#[tactic(auto, unfolding(crate::specs::Reading::op_at))]
fn op_at(bytes: &[u8], layout: Layout, at: usize) -> Result<(Op, usize), FileFault>
    ensures { result ≡ op_at bytes.now layout at }
{
    match layout {
        Layout::Fixed => fixed_op_at(bytes, at),
        Layout::Packed => packed_op_at(bytes, at),
    }
}

/// Reads the dependency at this place.
#[tactic(auto, unfolding(crate::specs::Reading::dep_at))]
fn dep_at(bytes: &[u8], layout: Layout, at: usize) -> Result<(Dep, usize), FileFault>
    ensures { result ≡ dep_at bytes.now layout at }
{
    match layout {
        Layout::Fixed => fixed_dep_at(bytes, at),
        Layout::Packed => packed_dep_at(bytes, at),
    }
}

/// Reads the note at this place.
#[tactic(auto, unfolding(crate::specs::Reading::note_at))]
fn note_at(bytes: &[u8], layout: Layout, at: usize) -> Result<(Note, usize), FileFault>
    ensures { result ≡ note_at bytes.now layout at }
{
    match layout {
        Layout::Fixed => fixed_note_at(bytes, at),
        Layout::Packed => packed_note_at(bytes, at),
    }
}

/// Returns how many items get room at once: `count`, or half the number of bytes that follow if that is less, since an
/// item has at least two.
fn room(bytes: &[u8], count: u32, at: usize) -> usize
    ensures count { result ≤ count }
    ensures held { 2 * result ≤ length bytes.now - at }
{
    let most = bytes.len().saturating_sub(at) / 2;
    most.min(count as usize)
}

/// Reads `count` operations.
pub fn ops_at(
    alloc: Global,
    bytes: &[u8],
    layout: Layout,
    count: u32,
    at: usize,
) -> Result<(Vec<Op>, usize), FileFault>
    ensures ops { Gives (λ x. (x.0.items, x.1)) result (list_at (op_at bytes.now layout) count at) }
    ensures count { IfOk result (λ x. length x.0.items ≡ count) }
{
    let mut ops = Vec::with_capacity(alloc, room(bytes, count, at))?;
    let mut place = at;
    for _ in 0..count {
        let (op, after) = op_at(bytes, layout, place)?;
        ops.push(op)?;
        place = after;
    }
    Ok((ops, place))
}

/// Reads `count` dependencies.
pub fn deps_at(
    alloc: Global,
    bytes: &[u8],
    layout: Layout,
    count: u32,
    at: usize,
) -> Result<(Vec<Dep>, usize), FileFault>
    ensures deps { Gives (λ x. (x.0.items, x.1)) result (list_at (dep_at bytes.now layout) count at) }
    ensures count { IfOk result (λ x. length x.0.items ≡ count) }
{
    let mut deps = Vec::with_capacity(alloc, room(bytes, count, at))?;
    let mut place = at;
    for _ in 0..count {
        let (dep, after) = dep_at(bytes, layout, place)?;
        deps.push(dep)?;
        place = after;
    }
    Ok((deps, place))
}

/// Reads `count` notes.
pub fn notes_at(
    alloc: Global,
    bytes: &[u8],
    layout: Layout,
    count: u32,
    at: usize,
) -> Result<(Vec<Note>, usize), FileFault>
    ensures notes { Gives (λ x. (x.0.items, x.1)) result (list_at (note_at bytes.now layout) count at) }
    ensures count { IfOk result (λ x. length x.0.items ≡ count) }
{
    let mut notes = Vec::with_capacity(alloc, room(bytes, count, at))?;
    let mut place = at;
    for _ in 0..count {
        let (note, after) = note_at(bytes, layout, place)?;
        notes.push(note)?;
        place = after;
    }
    Ok((notes, place))
}
