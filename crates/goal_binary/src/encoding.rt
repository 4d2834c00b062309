//! Writing a schedule as its compiled file.
ghost use Rattle.std.specs.Prelude.{◌≡◌, ◌++◌, ◌≤◌, ◌<◌, ◌+◌, ◌*◌, ◌^◌, length, IfOk, OnOk};
ghost use Rattle.std.specs.List.{flat_map};
ghost use Rattle.goal_binary.specs.declared.layout.TheConstants.{MAGIC};
ghost use Rattle.goal_binary.specs.File.{spelled_u32, spelled_u64, groups, packed, kind_code, any_flag, flags_of, peer_in, tag_in, size_of, op_bytes, when_code, fixed_op, fixed_dep, note_bytes, fixed_note, byte_unless_zero, flag_unless_zero, packed_if_some, head_code, packed_op, packed_dep, packed_note_bytes, packed_note, spelled_count, spelled_op, spelled_dep, spelled_note, spelled_counts, spelled_rank, header, written, file, old};

use crate::layout::{Layout, MAGIC};
use byteorder::{ByteOrder, LittleEndian};
use goal_graph::{Dep, Kind, Note, Op, RankPlan, Sched, When};
use goal_limits::NoMemory;
use std::alloc::Global;

/// Returns the compiled file of a schedule, of version 2. `Err` means out of memory.
pub fn encode(alloc: Global, sched: &Sched) -> Result<Vec<u8>, NoMemory>
    ensures file { IfOk result (λ bytes. bytes.items ≡ file sched.now) }
{
    write(alloc, Layout::Packed, sched)
}

/// Returns the compiled file of a schedule of version 1, which `decode` reads as well. `Err` means out of memory.
pub fn encode_old(alloc: Global, sched: &Sched) -> Result<Vec<u8>, NoMemory>
    ensures file { IfOk result (λ bytes. bytes.items ≡ old sched.now) }
{
    write(alloc, Layout::Fixed, sched)
}

// The file of a schedule in a layout.
fn write(alloc: Global, layout: Layout, sched: &Sched) -> Result<Vec<u8>, NoMemory>
    ensures file { IfOk result (λ bytes. bytes.items ≡ written layout sched.now) }
{
    let plans = sched.plans();
    let mut out = Vec::new(alloc);
    put_header(&mut out, layout, plans)?;
    for plan in plans {
        put_rank(&mut out, layout, plan)?;
    }
    Ok(out)
}

// Appends the header of a file with these ranks.
#[tactic(auto, unfolding(crate::specs::File::header))]
fn put_header(out: &mut Vec<u8>, layout: Layout, plans: &[RankPlan]) -> Result<(), NoMemory>
    requires { length plans.now < 2 ^ 32 }
    ensures { OnOk result (out.new.items ≡ out.old.items ++ header layout plans.now) }
{
    put_opening(out, layout.version())?;
    put_count(out, layout, plans.len() as u32)
}

// Appends the magic number and the version.
fn put_opening(out: &mut Vec<u8>, version: u32) -> Result<(), NoMemory>
    ensures { OnOk result (out.new.items ≡ out.old.items ++ (MAGIC ++ spelled_u32 version)) }
{
    out.extend_from_slice(&MAGIC)?;
    put_u32(out, version)
}

// Appends the record of a rank.
#[tactic(auto, unfolding(crate::specs::File::spelled_rank))]
fn put_rank(out: &mut Vec<u8>, layout: Layout, plan: &RankPlan) -> Result<(), NoMemory>
    requires ops { length plan.now.ops < 2 ^ 32 }
    requires deps { length plan.now.deps < 2 ^ 32 }
    requires notes { length plan.now.notes < 2 ^ 32 }
    ensures { OnOk result (out.new.items ≡ out.old.items ++ spelled_rank layout plan.now) }
{
    put_counts(out, layout, plan)?;
    put_ops(out, layout, &plan.ops)?;
    put_deps(out, layout, &plan.deps)?;
    put_notes(out, layout, &plan.notes)
}

// Appends the numbers of a rank's operations, dependencies and notes.
#[tactic(auto, unfolding(crate::specs::File::spelled_counts))]
fn put_counts(out: &mut Vec<u8>, layout: Layout, plan: &RankPlan) -> Result<(), NoMemory>
    requires ops { length plan.now.ops < 2 ^ 32 }
    requires deps { length plan.now.deps < 2 ^ 32 }
    requires notes { length plan.now.notes < 2 ^ 32 }
    ensures { OnOk result (out.new.items ≡ out.old.items ++ spelled_counts layout plan.now) }
{
    put_count(out, layout, plan.ops.len() as u32)?;
    put_count(out, layout, plan.deps.len() as u32)?;
    put_count(out, layout, plan.notes.len() as u32)
}

// Appends a count.
#[tactic(auto, unfolding(crate::specs::File::spelled_count))]
fn put_count(out: &mut Vec<u8>, layout: Layout, count: u32) -> Result<(), NoMemory>
    ensures { OnOk result (out.new.items ≡ out.old.items ++ spelled_count layout count) }
{
    match layout {
        Layout::Fixed => put_u32(out, count),
        Layout::Packed => put_packed(out, u64::from(count)),
    }
}

// Appends operations.
fn put_ops(out: &mut Vec<u8>, layout: Layout, ops: &[Op]) -> Result<(), NoMemory>
    ensures { OnOk result (out.new.items ≡ out.old.items ++ flat_map (spelled_op layout) ops.now) }
{
    for op in ops {
        put_op(out, layout, *op)?;
    }
    Ok(())
}

// Appends dependencies.
fn put_deps(out: &mut Vec<u8>, layout: Layout, deps: &[Dep]) -> Result<(), NoMemory>
    ensures { OnOk result (out.new.items ≡ out.old.items ++ flat_map (spelled_dep layout) deps.now) }
{
    for dep in deps {
        put_dep(out, layout, *dep)?;
    }
    Ok(())
}

// Appends notes.
fn put_notes(out: &mut Vec<u8>, layout: Layout, notes: &[Note]) -> Result<(), NoMemory>
    ensures { OnOk result (out.new.items ≡ out.old.items ++ flat_map (spelled_note layout) notes.now) }
{
    for note in notes {
        put_note(out, layout, *note)?;
    }
    Ok(())
}

// Appends an operation.
#[tactic(auto, unfolding(crate::specs::File::spelled_op))]
fn put_op(out: &mut Vec<u8>, layout: Layout, op: Op) -> Result<(), NoMemory>
    ensures { OnOk result (out.new.items ≡ out.old.items ++ spelled_op layout op) }
{
    match layout {
        Layout::Fixed => put_fixed_op(out, op),
        Layout::Packed => put_packed_op(out, op),
    }
}

// Appends a dependency.
#[tactic(auto, unfolding(crate::specs::File::spelled_dep))]
fn put_dep(out: &mut Vec<u8>, layout: Layout, dep: Dep) -> Result<(), NoMemory>
    ensures { OnOk result (out.new.items ≡ out.old.items ++ spelled_dep layout dep) }
{
    match layout {
        Layout::Fixed => put_fixed_dep(out, dep),
        Layout::Packed => put_packed_dep(out, dep),
    }
}

// Appends a note.
#[tactic(auto, unfolding(crate::specs::File::spelled_note))]
fn put_note(out: &mut Vec<u8>, layout: Layout, note: Note) -> Result<(), NoMemory>
    ensures { OnOk result (out.new.items ≡ out.old.items ++ spelled_note layout note) }
{
    match layout {
        Layout::Fixed => put_fixed_note(out, note),
        Layout::Packed => put_packed_note(out, note),
    }
}

// The code of a kind. `flags_of` below gives its flags, which only a receive has.
fn kind_code(kind: Kind) -> u8
    ensures code { result ≡ kind_code kind }
    ensures within { result ≤ 2 }
{
    match kind {
        Kind::Calc { .. } => 0,
        Kind::Send { .. } => 1,
        Kind::Recv { .. } => 2,
    }
}

fn flags_of(kind: Kind) -> u8
    ensures flags { result ≡ flags_of kind }
    ensures within { result ≤ 3 }
{
    match kind {
        Kind::Calc { .. } | Kind::Send { .. } => 0,
        Kind::Recv { from, tag, .. } => any_flag(1, from) + any_flag(2, tag),
    }
}

// Returns `flag` if `number` is `None`, which means that any will do, and otherwise 0.
fn any_flag(flag: u8, number: Option<u32>) -> u8
    ensures flag { result ≡ any_flag flag number }
    ensures within { result ≤ flag }
{
    match number {
        None => flag,
        Some(_) => 0,
    }
}

// The target or the source, if one is named.
fn peer_in(kind: Kind) -> Option<u32>
    ensures { result ≡ peer_in kind }
{
    match kind {
        Kind::Calc { .. } => None,
        Kind::Send { to, .. } => Some(to),
        Kind::Recv { from, .. } => from,
    }
}

// The tag, if one is named.
fn tag_in(kind: Kind) -> Option<u32>
    ensures { result ≡ tag_in kind }
{
    match kind {
        Kind::Calc { .. } => None,
        Kind::Send { tag, .. } => Some(tag),
        Kind::Recv { tag, .. } => tag,
    }
}

// The nanoseconds of a calc, or the bytes of a send or a receive.
fn size_of(kind: Kind) -> u64
    ensures { result ≡ size_of kind }
{
    match kind {
        Kind::Calc { nanos } => nanos,
        Kind::Send { bytes, .. } | Kind::Recv { bytes, .. } => bytes,
    }
}

// Appends an operation in version 1.
#[tactic(auto, unfolding(crate::specs::File::fixed_op))]
fn put_fixed_op(out: &mut Vec<u8>, op: Op) -> Result<(), NoMemory>
    ensures { OnOk result (out.new.items ≡ out.old.items ++ fixed_op op) }
{
    let front = [kind_code(op.kind), flags_of(op.kind), op.cpu, op.nic];
    let peer = peer_in(op.kind).unwrap_or(0);
    let tag = tag_in(op.kind).unwrap_or(0);
    put_fields(out, front, peer, tag, size_of(op.kind))
}

// Appends the fields of an operation, of which the first four have one byte each.
fn put_fields(
    out: &mut Vec<u8>,
    front: [u8; 4],
    peer: u32,
    tag: u32,
    size: u64,
) -> Result<(), NoMemory>
    ensures { OnOk result (out.new.items ≡ out.old.items
        ++ (front ++ spelled_u32 peer ++ spelled_u32 tag ++ spelled_u32 0 ++ spelled_u64 size)) }
{
    out.extend_from_slice(&front)?;
    put_u32(out, peer)?;
    put_u32(out, tag)?;
    put_u32(out, 0)?;
    put_u64(out, size)
}

// Appends a dependency in version 1.
#[tactic(auto, unfolding(crate::specs::File::fixed_dep))]
fn put_fixed_dep(out: &mut Vec<u8>, dep: Dep) -> Result<(), NoMemory>
    ensures { OnOk result (out.new.items ≡ out.old.items ++ fixed_dep dep) }
{
    put_u32(out, dep.later)?;
    put_u32(out, dep.earlier)?;
    put_u32(out, code_of(dep.when))
}

// The code of the start or end that a dependency waits for.
fn code_of(when: When) -> u32
    ensures code { result ≡ when_code when }
    ensures within { result ≤ 1 }
{
    match when {
        When::AfterEnd => 0,
        When::AfterStart => 1,
    }
}

// Appends a note in version 1.
#[tactic(auto, unfolding(crate::specs::File::fixed_note))]
fn put_fixed_note(out: &mut Vec<u8>, note: Note) -> Result<(), NoMemory>
    ensures { OnOk result (out.new.items ≡ out.old.items ++ fixed_note note) }
{
    match note {
        Note::Moves { op, lo, hi } => put_slots(out, 0, op, lo, hi),
        Note::Adds { op, from, to } => put_slots(out, 1, op, from, to),
    }
}

// Appends a note of this kind on an operation and two slots.
fn put_slots(out: &mut Vec<u8>, kind: u32, op: u32, first: u32, second: u32) -> Result<(), NoMemory>
    ensures { OnOk result (out.new.items ≡ out.old.items ++ note_bytes kind op first second) }
{
    put_u32(out, kind)?;
    put_u32(out, op)?;
    put_u32(out, first)?;
    put_u32(out, second)
}

// Returns `flag`, or 0 if the number is 0.
fn flag_unless_zero(flag: u8, number: u8) -> u8
    ensures flag { result ≡ flag_unless_zero flag number }
    ensures within { result ≤ flag }
{
    if number == 0 { 0 } else { flag }
}

// The first byte of an operation in version 2.
fn head_code(op: Op) -> u8
    ensures { result ≡ head_code op }
{
    let form = kind_code(op.kind) + 4 * flags_of(op.kind);
    form + flag_unless_zero(16, op.cpu) + flag_unless_zero(32, op.nic)
}

// Appends an operation in version 2.
#[tactic(auto, unfolding(crate::specs::File::packed_op))]
fn put_packed_op(out: &mut Vec<u8>, op: Op) -> Result<(), NoMemory>
    ensures { OnOk result (out.new.items ≡ out.old.items ++ packed_op op) }
{
    out.push(head_code(op))?;
    put_unless_zero(out, op.cpu)?;
    put_unless_zero(out, op.nic)?;
    put_if_some(out, peer_in(op.kind))?;
    put_if_some(out, tag_in(op.kind))?;
    put_packed(out, size_of(op.kind))
}

// Appends a dependency in version 2.
#[tactic(auto, unfolding(crate::specs::File::packed_dep))]
fn put_packed_dep(out: &mut Vec<u8>, dep: Dep) -> Result<(), NoMemory>
    ensures { OnOk result (out.new.items ≡ out.old.items ++ packed_dep dep) }
{
    put_packed(out, u64::from(dep.later))?;
    put_packed(
        out,
        2 * u64::from(dep.earlier) + u64::from(code_of(dep.when)),
    )
}

// Appends a note in version 2.
#[tactic(auto, unfolding(crate::specs::File::packed_note))]
fn put_packed_note(out: &mut Vec<u8>, note: Note) -> Result<(), NoMemory>
    ensures { OnOk result (out.new.items ≡ out.old.items ++ packed_note note) }
{
    match note {
        Note::Moves { op, lo, hi } => put_packed_slots(out, 0, op, lo, hi),
        Note::Adds { op, from, to } => put_packed_slots(out, 1, op, from, to),
    }
}

// Appends a note of this kind on an operation and two slots.
fn put_packed_slots(
    out: &mut Vec<u8>,
    kind: u8,
    op: u32,
    first: u32,
    second: u32,
) -> Result<(), NoMemory>
    ensures { OnOk result (out.new.items ≡ out.old.items ++ packed_note_bytes kind op first second) }
{
    out.push(kind)?;
    put_packed(out, u64::from(op))?;
    put_packed(out, u64::from(first))?;
    put_packed(out, u64::from(second))
}

// Appends a byte, unless it is 0.
fn put_unless_zero(out: &mut Vec<u8>, byte: u8) -> Result<(), NoMemory>
    ensures { OnOk result (out.new.items ≡ out.old.items ++ byte_unless_zero byte) }
{
    if byte != 0 {
        out.push(byte)?;
    }
    Ok(())
}

// Appends a packed number, if there is one.
fn put_if_some(out: &mut Vec<u8>, number: Option<u32>) -> Result<(), NoMemory>
    ensures { OnOk result (out.new.items ≡ out.old.items ++ packed_if_some number) }
{
    match number {
        Some(number) => put_packed(out, u64::from(number)),
        None => Ok(()),
    }
}

// Appends a packed number.
fn put_packed(out: &mut Vec<u8>, number: u64) -> Result<(), NoMemory>
    ensures { OnOk result (out.new.items ≡ out.old.items ++ packed number) }
{
    put_groups(out, 10, number)
}

// Appends the groups of a packed number, lowest first, at most `left`.
#[tactic(auto, unfolding(crate::specs::File::groups))]
fn put_groups(out: &mut Vec<u8>, left: u32, number: u64) -> Result<(), NoMemory>
    ensures { OnOk result (out.new.items ≡ out.old.items ++ groups left number) }
{
    if left == 0 {
        return Ok(());
    }
    if number < 128 {
        out.push(number as u8)?;
        return Ok(());
    }
    out.push(128 + (number % 128) as u8)?;
    put_groups(out, left - 1, number / 128)
}

// Appends a number in four bytes.
#[tactic(auto, using(crate::proofs::FixedNumbers::bytes_of_4))]
fn put_u32(out: &mut Vec<u8>, n: u32) -> Result<(), NoMemory>
    ensures { OnOk result (out.new.items ≡ out.old.items ++ spelled_u32 n) }
{
    let mut field = [0; 4];
    LittleEndian::write_u32(&mut field, n);
    out.extend_from_slice(&field)?;
    Ok(())
}

// Appends a number in eight bytes.
#[tactic(auto, using(crate::proofs::FixedNumbers::bytes_of_8))]
fn put_u64(out: &mut Vec<u8>, n: u64) -> Result<(), NoMemory>
    ensures { OnOk result (out.new.items ≡ out.old.items ++ spelled_u64 n) }
{
    let mut field = [0; 8];
    LittleEndian::write_u64(&mut field, n);
    out.extend_from_slice(&field)?;
    Ok(())
}
