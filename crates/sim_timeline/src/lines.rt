//! The lines of the timeline.
ghost use Rattle.std.specs.Prelude.{◌≡◌, ◌+◌, ◌-◌, ◌++◌, ◌<◌, ◌≤◌, ◌^◌, length, take, OnOk, IfOk, Some, is_some, unwrap_or, max, count_by, if◌then◌else◌};
ghost use Rattle.goal_limits.specs.declared.limits.TheConstants.{MAX_OPS};
ghost use Rattle.goal_graph.specs.Schedule.{operations};
ghost use Rattle.goal_graph.specs.Fault.{IsOp};
ghost use Rattle.sim_params.specs.Stuck.{lacks_end};
ghost use Rattle.sim_timeline.specs.Timeline.{line_of, summary_line, kind_text, partner_text, match_text, first_line};
ghost use Rattle.sim_timeline.specs.Pages.{IsSummary, before_rank, is_unmatched_send};

use goal_base::{TextOut, put_pair, put_time, put_word};
use goal_graph::{Kind, Op, OpId, Sched};
use goal_limits::NoMemory;
use sim_events::{Engine, History, Record};
use sim_params::Costs;
use std::alloc::Global;

/// The greatest length of the line of an operation, in bytes.
pub const LINE: usize = 112;

/// Returns the first line of the timeline of an engine whose run is over: `ranks P ops N stuck K unread U finish T`.
/// The P ranks have N operations, K of them have no end, U sends have begun and are not paired, and T is the last end,
/// in nanoseconds. `Err` means out of memory.
pub fn first_line<C: Costs, H: History>(
    alloc: Global,
    sched: &Sched,
    engine: &Engine<'_, C, H>,
) -> Result<Vec<u8>, NoMemory>
    requires same { engine.now.plans ≡ sched.now }
    ensures { IfOk result (λ text.
        text.items ≡ first_line sched.now (C.model engine.now.costs) engine.now.history) }
{
    let (line, _) = first_line_counted(alloc, sched, engine)?;
    Ok(line)
}

/// Returns the line that `first_line` returns, and the number of operations without an end. `Err` means out of memory.
pub fn first_line_counted<C: Costs, H: History>(
    alloc: Global,
    sched: &Sched,
    engine: &Engine<'_, C, H>,
) -> Result<(Vec<u8>, u64), NoMemory>
    requires same { engine.now.plans ≡ sched.now }
    ensures line { IfOk result (λ both.
        both.0.items ≡ first_line sched.now (C.model engine.now.costs) engine.now.history) }
    ensures stuck { IfOk result (λ both.
        both.1 ≡ count_by (lacks_end sched.now (C.model engine.now.costs) engine.now.history) (operations sched.now)) }
{
    let mut out = TextOut::new(alloc);
    let summary = sum_up(sched, engine);
    put_summary(&mut out, sched, &summary)?;
    Ok((out.into_bytes(), summary.stuck))
}

/// Appends the first line. `Err` means out of memory.
pub fn put_first_line<C: Costs, H: History>(
    out: &mut TextOut,
    sched: &Sched,
    engine: &Engine<'_, C, H>,
) -> Result<(), NoMemory>
    requires same { engine.now.plans ≡ sched.now }
    ensures { OnOk result (out.new
        ≡ out.old ++ first_line sched.now (C.model engine.now.costs) engine.now.history) }
{
    put_summary(out, sched, &sum_up(sched, engine))
}

// What the first line counts, over some of the operations: how many have no end, how many are unmatched sends, and the
// last end in nanoseconds, or 0 if there is none.
#[derive(Clone, Copy)]
struct Summary {
    stuck: u64,
    unmatched: u64,
    finish: u64,
}

impl Summary {
    // The same with one more operation.
    fn with(self, op: &Op, times: Record) -> Summary
        requires stuck_fits { self.stuck < 2 ^ 64 - 1 }
        requires unmatched_fits { self.unmatched < 2 ^ 64 - 1 }
        ensures stuck { result.stuck ≡ self.stuck + (if is_some times.end then 0 else 1) }
        ensures unmatched { result.unmatched ≡ self.unmatched
            + (if is_unmatched_send (Some op.now.kind) times.start times.partner then 1 else 0) }
        ensures finish { result.finish ≡ max self.finish (unwrap_or times.end 0) }
    {
        Summary {
            stuck: self.stuck + u64::from(times.end.is_none()),
            unmatched: self.unmatched + u64::from(is_unmatched(op, times)),
            finish: self.finish.max(times.end.unwrap_or(0)),
        }
    }
}

// Adds the operations of a rank to the summary of those of the ranks before it.
fn sum_rank<C: Costs, H: History>(
    summary: Summary,
    sched: &Sched,
    engine: &Engine<'_, C, H>,
    rank: u32,
) -> Summary
    requires same { engine.now.plans ≡ sched.now }
    requires few { length (operations sched.now) ≤ MAX_OPS }
    requires rank { rank < length sched.now }
    requires so_far { IsSummary sched.now (C.model engine.now.costs) engine.now.history
        (take (before_rank sched.now rank) (operations sched.now)) summary.stuck summary.unmatched summary.finish }
    requires few_stuck { summary.stuck ≤ before_rank sched.now rank }
    requires few_unmatched { summary.unmatched ≤ before_rank sched.now rank }
    ensures summary { IsSummary sched.now (C.model engine.now.costs) engine.now.history
        (take (before_rank sched.now (rank + 1)) (operations sched.now)) result.stuck result.unmatched result.finish }
    ensures few_stuck { result.stuck ≤ before_rank sched.now (rank + 1) }
    ensures few_unmatched { result.unmatched ≤ before_rank sched.now (rank + 1) }
{
    let mut summary = summary;
    for op in 0..sched.op_count(rank) {
        let id = OpId { rank, op };
        summary = summary.with(sched.op(id), engine.record(id));
    }
    summary
}

// The summary of all operations, of an engine whose run is over. It goes from rank to rank, because the operations of a
// rank and their times are in order in memory.
fn sum_up<C: Costs, H: History>(sched: &Sched, engine: &Engine<'_, C, H>) -> Summary
    requires same { engine.now.plans ≡ sched.now }
    ensures { IsSummary sched.now (C.model engine.now.costs) engine.now.history (operations sched.now)
        result.stuck result.unmatched result.finish }
{
    let mut summary = Summary {
        stuck: 0,
        unmatched: 0,
        finish: 0,
    };
    let _count = sched.count();
    for rank in 0..sched.plans().len() as u32 {
        summary = sum_rank(summary, sched, engine, rank);
    }
    summary
}

// Whether a send has begun and is not paired. The kind is read last, and only if the times leave it open.
fn is_unmatched(op: &Op, times: Record) -> bool
    ensures { result ≡ is_unmatched_send (Some op.now.kind) times.start times.partner }
{
    times.start.is_some() && times.partner.is_none() && matches!(op.kind, Kind::Send { .. })
}

// Appends the first line with the numbers of a summary.
fn put_summary(out: &mut TextOut, sched: &Sched, summary: &Summary) -> Result<(), NoMemory>
    ensures { OnOk result (out.new ≡ out.old ++ summary_line (length sched.now) (length (operations sched.now))
        summary.now.stuck summary.now.unmatched summary.now.finish) }
{
    out.word("ranks ")?;
    out.number(sched.plans().len() as u128)?;
    out.word(" ops ")?;
    out.number(u128::from(sched.count()))?;
    out.word(" stuck ")?;
    out.number(u128::from(summary.stuck))?;
    out.word(" unread ")?;
    out.number(u128::from(summary.unmatched))?;
    out.word(" finish ")?;
    out.number(u128::from(summary.finish))?;
    out.word("\n")
}

/// Writes the line of an operation at `at`, of an engine whose run is over, and returns where it ends.
#[inline(always)]
pub fn put_operation<C: Costs, H: History>(
    line: &mut [u8],
    at: usize,
    engine: &Engine<'_, C, H>,
    id: OpId,
) -> usize
    requires op { IsOp engine.now.plans id }
    requires room { at + LINE ≤ length line.old }
    ensures text { take result line.new
        ≡ take at line.old ++ line_of engine.now.plans (C.model engine.now.costs) engine.now.history id }
    ensures end { result ≤ at + LINE }
{
    let kind = engine.sched().op(id).kind;
    let times = engine.record(id);
    let at = put_word(line, at, "op ");
    let at = put_pair(line, at, id.rank, id.op);
    let at = put_kind(line, at, kind);
    let at = put_time(line, at, times.start);
    let at = put_word(line, at, " end ");
    let at = put_time(line, at, times.end);
    let at = put_partner(line, at, kind, times.partner);
    put_word(line, at, "\n")
}

// Writes the word of a kind, and what comes before the start.
#[inline(always)]
fn put_kind(line: &mut [u8], at: usize, kind: Kind) -> usize
    requires room { at + 12 ≤ length line.old }
    ensures text { take result line.new ≡ take at line.old ++ kind_text kind }
    ensures end { result ≤ at + 12 }
{
    match kind {
        Kind::Calc { .. } => put_word(line, at, " calc start "),
        Kind::Send { .. } => put_word(line, at, " send start "),
        Kind::Recv { .. } => put_word(line, at, " recv start "),
    }
}

// Writes the partner of an operation of this kind; nothing for a calc.
#[inline(always)]
fn put_partner(line: &mut [u8], at: usize, kind: Kind, partner: Option<OpId>) -> usize
    requires room { at + 28 ≤ length line.old }
    ensures text { take result line.new ≡ take at line.old ++ partner_text kind partner }
    ensures end { result ≤ at + 28 }
{
    match kind {
        Kind::Calc { .. } => at,
        Kind::Send { .. } => put_match(line, at, partner),
        Kind::Recv { .. } => put_match(line, at, partner),
    }
}

// Writes the partner of a send or a receive.
#[inline(always)]
fn put_match(line: &mut [u8], at: usize, partner: Option<OpId>) -> usize
    requires room { at + 28 ≤ length line.old }
    ensures text { take result line.new ≡ take at line.old ++ match_text partner }
    ensures end { result ≤ at + 28 }
{
    match partner {
        None => put_word(line, at, " match -"),
        Some(id) => {
            let at = put_word(line, at, " match ");
            put_pair(line, at, id.rank, id.op)
        }
    }
}
