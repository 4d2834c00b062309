//! Printing a schedule as its canonical text.
ghost use Rattle.std.specs.Prelude.{◌≡◌, ◌+◌, ◌-◌, ◌^◌, ◌<◌, ◌≤◌, ◌++◌, length, take, decimal, codes, IfOk, OnOk};
ghost use Rattle.std.specs.List.{flat_map};
ghost use Rattle.goal_parser.specs.Reads.{reads, plans};
ghost use Rattle.goal_print.specs.Canonical.{label, number_or_any, action, op_line, op_lines, verb, dep_line, note_line, heading, block, unless_empty, blocks, canonical};

use goal_base::{TextOut, put_long, put_number, put_word};
use goal_graph::{Dep, Kind, Note, Op, RankPlan, Sched, When};
use goal_limits::NoMemory;
use std::alloc::Global;

// The most bytes of the line of an operation, a dependency or a note.
const LINE: usize = 112;

// The bytes of lines that are built before they are appended to a text.
const LINES: usize = 1024;

/// Returns the canonical text of a schedule.
///
/// # Errors
///
/// Only `NoMemory`.
pub fn print_text(alloc: Global, sched: &Sched) -> Result<Vec<u8>, NoMemory>
    ensures canonical { IfOk result (λ text. text.items ≡ canonical sched.now) }

    // Reading it gives the schedule back.
    ensures read_back { IfOk result (λ text. reads text.items ≡ plans sched.now) }
{
    let plans = sched.plans();
    let mut out = TextOut::new(alloc);
    put_heading(&mut out, plans.len())?;
    for (rank, plan) in plans.iter().enumerate() {
        put_rank(&mut out, rank as u64, plan)?;
    }
    Ok(out.into_bytes())
}

/// Returns the first line of the canonical text of a schedule. The blocks of all ranks follow it.
///
/// # Errors
///
/// Only `NoMemory`.
pub fn heading(alloc: Global, sched: &Sched) -> Result<Vec<u8>, NoMemory>
    ensures canonical { IfOk result (λ text. text.items ++ blocks 0 sched.now ≡ canonical sched.now) }

    // Reading the whole text gives the schedule back.
    ensures read_back { OnOk result (reads (canonical sched.now) ≡ plans sched.now) }
{
    let plans = sched.plans();
    let mut out = TextOut::new(alloc);
    put_heading(&mut out, plans.len())?;
    Ok(out.into_bytes())
}

// Appends the first line.
fn put_heading(out: &mut TextOut, ranks: usize) -> Result<(), NoMemory>
    ensures { OnOk result (out.new ≡ out.old ++ heading ranks) }
{
    out.word("num_ranks ")?;
    out.number(ranks as u128)?;
    out.word("\n")
}

/// Appends the lines of a rank: none if it has no operation. `Err` means out of memory.
pub fn put_rank(out: &mut TextOut, rank: u64, plan: &RankPlan) -> Result<(), NoMemory>
    ensures { OnOk result (out.new ≡ out.old ++ unless_empty plan.now.ops (block rank plan.now)) }
{
    if plan.ops.is_empty() {
        return Ok(());
    }
    put_block(out, rank, plan)
}

// Appends the lines of a rank that has operations.
fn put_block(out: &mut TextOut, rank: u64, plan: &RankPlan) -> Result<(), NoMemory>
    ensures { OnOk result (out.new ≡ out.old ++ block rank plan.now) }
{
    let mut lines = [0; LINES];
    out.word("rank ")?;
    out.number(u128::from(rank))?;
    out.word(" {\n")?;
    put_ops(out, &mut lines, &plan.ops)?;
    put_deps(out, &mut lines, &plan.deps)?;
    put_notes(out, &mut lines, &plan.notes)?;
    out.word("}\n")
}

// Appends the lines of a rank's operations.
fn put_ops(out: &mut TextOut, lines: &mut [u8], ops: &[Op]) -> Result<(), NoMemory>
    requires { LINE ≤ length lines.old }
    ensures { OnOk result (out.new ≡ out.old ++ op_lines 0 ops.now) }
{
    let mut end = 0;
    for (number, op) in ops.iter().enumerate() {
        let at = out.room_for(LINE, lines, end)?;
        end = put_op(lines, at, number as u64, *op);
    }
    out.piece(&lines[..end])
}

// Appends the lines of a rank's dependencies.
fn put_deps(out: &mut TextOut, lines: &mut [u8], deps: &[Dep]) -> Result<(), NoMemory>
    requires { LINE ≤ length lines.old }
    ensures { OnOk result (out.new ≡ out.old ++ flat_map dep_line deps.now) }
{
    let mut end = 0;
    for dep in deps {
        let at = out.room_for(LINE, lines, end)?;
        end = put_dep(lines, at, *dep);
    }
    out.piece(&lines[..end])
}

// Appends the lines of a rank's notes.
fn put_notes(out: &mut TextOut, lines: &mut [u8], notes: &[Note]) -> Result<(), NoMemory>
    requires { LINE ≤ length lines.old }
    ensures { OnOk result (out.new ≡ out.old ++ flat_map note_line notes.now) }
{
    let mut end = 0;
    for note in notes {
        let at = out.room_for(LINE, lines, end)?;
        end = put_note(lines, at, *note);
    }
    out.piece(&lines[..end])
}

// Writes the line of the operation with this number, and returns its end, as all functions below do.
#[inline(always)]
fn put_op(line: &mut [u8], at: usize, number: u64, op: Op) -> usize
    requires fits { number < 2 ^ 64 - 1 }
    requires room { at + LINE ≤ length line.old }
    ensures text { take result line.new ≡ take at line.old ++ op_line number op }
    ensures end { result ≤ at + LINE }
{
    let at = put_label(line, at, number);
    let at = put_word(line, at, ": ");
    put_action(line, at, op)
}

// Writes the label of the operation with this number.
#[inline(always)]
fn put_label(line: &mut [u8], at: usize, number: u64) -> usize
    requires fits { number < 2 ^ 64 - 1 }
    requires room { at + 21 ≤ length line.old }
    ensures text { take result line.new ≡ take at line.old ++ label number }
    ensures end { result ≤ at + 21 }
{
    let at = put_word(line, at, "l");
    put_long(line, at, number + 1)
}

// Writes what follows the label of an operation.
#[inline(always)]
fn put_action(line: &mut [u8], at: usize, op: Op) -> usize
    requires room { at + 88 ≤ length line.old }
    ensures text { take result line.new ≡ take at line.old ++ action op.kind op.cpu op.nic }
    ensures end { result ≤ at + 88 }
{
    match op.kind {
        Kind::Calc { nanos } => put_calc(line, at, nanos, op.cpu),
        Kind::Send { bytes, to, tag } => put_send(line, at, bytes, to, tag, op.cpu, op.nic),
        Kind::Recv { bytes, from, tag } => put_recv(line, at, bytes, from, tag, op.cpu, op.nic),
    }
}

// Writes a source or a tag, or `any`.
#[inline(always)]
fn put_number_or_any(line: &mut [u8], at: usize, number: Option<u32>) -> usize
    requires room { at + 10 ≤ length line.old }
    ensures text { take result line.new ≡ take at line.old ++ number_or_any number }
    ensures end { result ≤ at + 10 }
{
    match number {
        None => put_word(line, at, "any"),
        Some(n) => put_number(line, at, n),
    }
}

// Writes what follows the label of a calc.
#[inline(always)]
fn put_calc(line: &mut [u8], at: usize, nanos: u64, cpu: u8) -> usize
    requires room { at + 41 ≤ length line.old }
    ensures text { take result line.new ≡ take at line.old ++ action (Kind.Calc nanos) cpu 0 }
    ensures end { result ≤ at + 41 }
{
    let at = put_word(line, at, "calc ");
    let at = put_long(line, at, nanos);
    let at = put_word(line, at, " cpu ");
    let at = put_number(line, at, u32::from(cpu));
    put_word(line, at, "\n")
}

// Writes what follows the label of a send.
#[inline(always)]
fn put_send(line: &mut [u8], at: usize, bytes: u64, to: u32, tag: u32, cpu: u8, nic: u8) -> usize
    requires room { at + 86 ≤ length line.old }
    ensures text { take result line.new ≡ take at line.old ++ action (Kind.Send bytes to tag) cpu nic }
    ensures end { result ≤ at + 86 }
{
    let at = put_word(line, at, "send ");
    let at = put_long(line, at, bytes);
    let at = put_word(line, at, "b to ");
    let at = put_number(line, at, to);
    let at = put_word(line, at, " tag ");
    let at = put_number(line, at, tag);
    put_place(line, at, cpu, nic)
}

// Writes what follows the label of a receive.
#[inline(always)]
fn put_recv(
    line: &mut [u8],
    at: usize,
    bytes: u64,
    from: Option<u32>,
    tag: Option<u32>,
    cpu: u8,
    nic: u8,
) -> usize
    requires room { at + 88 ≤ length line.old }
    ensures text { take result line.new ≡ take at line.old ++ action (Kind.Recv bytes from tag) cpu nic }
    ensures end { result ≤ at + 88 }
{
    let at = put_word(line, at, "recv ");
    let at = put_long(line, at, bytes);
    let at = put_word(line, at, "b from ");
    let at = put_number_or_any(line, at, from);
    let at = put_word(line, at, " tag ");
    let at = put_number_or_any(line, at, tag);
    put_place(line, at, cpu, nic)
}

// Writes the cpu and the NIC of a send or a receive, and the end of its line.
#[inline(always)]
fn put_place(line: &mut [u8], at: usize, cpu: u8, nic: u8) -> usize
    requires room { at + 31 ≤ length line.old }
    ensures text { take result line.new
        ≡ take at line.old ++ (codes " cpu " ++ decimal cpu ++ codes " nic " ++ decimal nic ++ codes "\n") }
    ensures end { result ≤ at + 31 }
{
    let at = put_word(line, at, " cpu ");
    let at = put_number(line, at, u32::from(cpu));
    let at = put_word(line, at, " nic ");
    let at = put_number(line, at, u32::from(nic));
    put_word(line, at, "\n")
}

// Writes the line of a dependency.
#[inline(always)]
fn put_dep(line: &mut [u8], at: usize, dep: Dep) -> usize
    requires room { at + LINE ≤ length line.old }
    ensures text { take result line.new ≡ take at line.old ++ dep_line dep }
    ensures end { result ≤ at + LINE }
{
    let at = put_label(line, at, u64::from(dep.later));
    let at = put_verb(line, at, dep.when);
    let at = put_label(line, at, u64::from(dep.earlier));
    put_word(line, at, "\n")
}

// Writes the verb of a dependency, between blanks.
#[inline(always)]
fn put_verb(line: &mut [u8], at: usize, when: When) -> usize
    requires room { at + 11 ≤ length line.old }
    ensures text { take result line.new ≡ take at line.old ++ verb when }
    ensures end { result ≤ at + 11 }
{
    match when {
        When::AfterEnd => put_word(line, at, " requires "),
        When::AfterStart => put_word(line, at, " irequires "),
    }
}

// Writes the line of a note.
#[inline(always)]
fn put_note(line: &mut [u8], at: usize, note: Note) -> usize
    requires room { at + LINE ≤ length line.old }
    ensures text { take result line.new ≡ take at line.old ++ note_line note }
    ensures end { result ≤ at + LINE }
{
    match note {
        Note::Moves { op, lo, hi } => put_slots(line, at, op, " moves ", lo, hi),
        Note::Adds { op, from, to } => put_slots(line, at, op, " adds ", from, to),
    }
}

// Writes the label of an operation, a verb between blanks, and two slots.
#[inline(always)]
fn put_slots(line: &mut [u8], at: usize, op: u32, word: &str, first: u32, second: u32) -> usize
    requires short { length word.now ≤ 10 }
    requires room { at + 60 ≤ length line.old }
    ensures text { take result line.new ≡ take at line.old
        ++ (label op ++ word.now ++ decimal first ++ codes " to " ++ decimal second ++ codes "\n") }
    ensures end { result ≤ at + 60 }
{
    let at = put_label(line, at, u64::from(op));
    let at = put_word(line, at, word);
    let at = put_number(line, at, first);
    let at = put_word(line, at, " to ");
    let at = put_number(line, at, second);
    put_word(line, at, "\n")
}
