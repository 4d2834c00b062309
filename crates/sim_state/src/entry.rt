//! What an engine keeps of each operation, in a table in the order of all operations.
ghost use Rattle.std.specs.Prelude.{◌≡◌, ◌<◌, ◌^◌, List, length, map, [], Some, None, IfSome, IfOk};
ghost use Rattle.goal_graph.specs.declared.action.OpId.{OpId};
ghost use Rattle.goal_graph.specs.Schedule.{operations};
ghost use Rattle.goal_graph.specs.Fault.{IsOp};
ghost use Rattle.sim_state.specs.declared.entry.OpState.{OpState};
ghost use Rattle.sim_state.specs.Represents.{entry_known};
ghost use Rattle.sim_state.specs.Given.{given_times, with_given, IsWaiting};
ghost use Rattle.sim_state.specs.Tables.{fresh_entry, with_times, with_pairing, with_change};

use crate::link::Link;
use crate::optional_time::OptionalTime;
use crate::work::{Work, work_of};
use goal_graph::{OpId, Sched, entry_of};
use sim_params::Costs;
use std::alloc::{AllocError, Global};

/// What is known of the times of an operation.
#[derive(Clone, Copy)]
pub struct Times {
    /// When it started.
    pub start: OptionalTime,
    /// When it ends.
    pub end: OptionalTime,
    /// The time of what it waits for, if any. Before it starts, this is the latest known start or end that it needs, or
    /// 0 if none is known. After a send starts, it is the arrival of its message or its request to send (RTS). Once the
    /// operation is paired, it is the time of the pairing. Once a rendezvous send has transferred its data, it is when
    /// they reach the receive.
    pub awaited: OptionalTime,
}

impl Times {
    // The times of an operation that has done nothing, before any start or end that it needs is known.
    fn first() -> Times
        ensures { result ≡ record { start = None; end = None; awaited = Some 0 } }
    {
        Times {
            start: OptionalTime::NONE,
            end: OptionalTime::NONE,
            awaited: OptionalTime::at(0),
        }
    }

    /// The same with another start or end that the operation needs, in nanoseconds. The operation has not started.
    pub fn with_given(self, moment: u64) -> Times
        requires { moment < 2 ^ 63 }
        ensures { result ≡ given_times moment self }
    {
        Times {
            awaited: self.awaited.or_later(moment),
            ..self
        }
    }

    /// The same with this start, in nanoseconds.
    pub fn with_start(self, at: u64) -> Times
        requires { at < 2 ^ 63 }
        ensures { result ≡ record self { start = Some at } }
    {
        Times {
            start: OptionalTime::at(at),
            ..self
        }
    }

    /// The same with this end, in nanoseconds.
    pub fn with_end(self, at: u64) -> Times
        requires { at < 2 ^ 63 }
        ensures { result ≡ record self { end = Some at } }
    {
        Times {
            end: OptionalTime::at(at),
            ..self
        }
    }

    /// The same with this time, in nanoseconds, of what it awaits: the arrival of its message, its request or its data,
    /// or the time of its pairing.
    pub fn with_awaited(self, at: u64) -> Times
        requires { at < 2 ^ 63 }
        ensures { result ≡ record self { awaited = Some at } }
    {
        Times {
            awaited: OptionalTime::at(at),
            ..self
        }
    }

    /// The same, awaiting nothing.
    pub fn with_nothing_awaited(self) -> Times
        ensures { result ≡ record self { awaited = None } }
    {
        Times {
            awaited: OptionalTime::NONE,
            ..self
        }
    }
}

/// What is known of an operation, in 48 bytes. It is small, because a run mostly waits for its tables to come from
/// memory.
#[derive(Clone, Copy)]
pub struct OpState {
    /// What it does.
    pub work: Work,
    /// Its times.
    pub times: Times,
    /// How many of the starts and ends that it needs are not known, and its partner.
    pub link: Link,
}

/// What an action changes of its operation: its times, and its partner if the action pairs it.
#[derive(Clone, Copy)]
pub struct Change {
    /// The times after the action.
    pub times: Times,
    /// The partner, if the action pairs the operation.
    pub partner: Option<OpId>,
}

impl Change {
    /// A change of times only.
    pub fn of_times(times: Times) -> Change
        ensures { result ≡ record { times = times; partner = None } }
    {
        Change {
            times,
            partner: None,
        }
    }
}

impl OpState {
    // The entry of an operation that has done nothing and needs `unmet` starts and ends.
    fn first(work: Work, unmet: u32) -> OpState
        ensures { result ≡ fresh_entry work unmet }
    {
        OpState {
            work,
            times: Times::first(),
            link: Link::waiting(unmet),
        }
    }
}

/// Returns what is known of all operations before the first action. `Err` means out of memory.
pub fn first_entries<C: Costs>(
    alloc: Global,
    sched: &Sched,
    costs: &C,
) -> Result<Vec<OpState>, AllocError>
    ensures { IfOk result (λ entries. entries.items ≡ map (entry_known sched.now (C.model costs.now) []) (operations sched.now)) }
{
    let _plans = sched.plans();
    let mut entries = Vec::with_capacity(alloc, sched.count() as usize)?;
    for id in sched.operations() {
        let unmet = sched.needs(*id).len() as u32;
        entries.push_reserved(OpState::first(work_of(sched, costs, *id), unmet));
    }
    Ok(entries)
}

/// Returns the entry of an operation.
pub fn read<'e>(sched: &Sched, entries: &'e [OpState], id: OpId) -> &'e OpState
    requires exists { IsOp sched.now id }
    requires each { length entries.now ≡ length (operations sched.now) }
    ensures { (f : OpId → OpState) → entries.now ≡ map f (operations sched.now) → result.now ≡ f id }
{
    entry_of(entries, sched, id)
}

// Writes the times of an operation.
fn write_times(sched: &Sched, entries: &mut [OpState], id: OpId, times: Times)
    requires exists { IsOp sched.now id }
    requires each { length entries.old ≡ length (operations sched.now) }
    ensures { (f : OpId → OpState) → entries.old ≡ map f (operations sched.now) → entries.new ≡ map (with_times id times f) (operations sched.now) }
{
    let kept = &mut entries[sched.index(id) as usize];
    kept.times = times;
}

// Writes that an operation has been paired with another since a time.
fn write_paired(sched: &Sched, entries: &mut [OpState], id: OpId, with: OpId, at: u64)
    requires exists { IsOp sched.now id }
    requires other { IsOp sched.now with }
    requires fits { at < 2 ^ 63 }
    requires each { length entries.old ≡ length (operations sched.now) }
    ensures { (f : OpId → OpState) → entries.old ≡ map f (operations sched.now) → entries.new ≡ map (with_pairing id with at f) (operations sched.now) }
{
    let _plans = sched.plans();
    let kept = &mut entries[sched.index(id) as usize];
    kept.link = Link::paired(with);
    kept.times = kept.times.with_awaited(at);
}

/// Writes what an action at the time `at`, in nanoseconds, changes of its operation. If the action pairs the operation
/// with another, both are written as paired since `at`.
pub fn write_change(sched: &Sched, entries: &mut [OpState], id: OpId, change: Change, at: u64)
    requires exists { IsOp sched.now id }
    requires other { IfSome change.partner (IsOp sched.now) }
    requires fits { at < 2 ^ 63 }
    requires each { length entries.old ≡ length (operations sched.now) }
    ensures { (f : OpId → OpState) → entries.old ≡ map f (operations sched.now) → entries.new ≡ map (with_change id change at f) (operations sched.now) }
{
    write_times(sched, entries, id, change.times);
    let Some(with) = change.partner else {
        return;
    };
    write_paired(sched, entries, id, with, at);
    write_paired(sched, entries, with, id, at);
}

/// Gives an operation that has not started a start or end that it waits for, in nanoseconds. It then waits for one
/// fewer.
#[inline(always)]
pub fn write_given(sched: &Sched, entries: &mut [OpState], id: OpId, moment: u64)
    requires exists { IsOp sched.now id }
    requires fits { moment < 2 ^ 63 }
    requires waits { IsWaiting sched.now entries.old id }
    requires each { length entries.old ≡ length (operations sched.now) }
    ensures { (f : OpId → OpState) → entries.old ≡ map f (operations sched.now) → entries.new ≡ map (with_given id moment f) (operations sched.now) }
{
    let kept = &mut entries[sched.index(id) as usize];
    kept.link = kept.link.with_one_met();
    kept.times = kept.times.with_given(moment);
}
