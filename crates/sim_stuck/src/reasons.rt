//! The reason of each stuck operation.
ghost use Rattle.std.specs.Prelude.{◌≡◌, All, IfOk, filter, map, not};
ghost use Rattle.std.specs.Option.{option_map};
ghost use Rattle.goal_graph.specs.Schedule.{operations, needed};
ghost use Rattle.goal_graph.specs.Action.{plain};
ghost use Rattle.goal_graph.specs.Fault.{IsOp};
ghost use Rattle.goal_graph.specs.Allowed.{has_started, has_ended, is_met};
ghost use Rattle.sim_params.specs.Costs.{is_eager};
ghost use Rattle.sim_params.specs.Run.{IsFinished};
ghost use Rattle.sim_params.specs.Stuck.{first_unmet};
ghost use Rattle.sim_stuck.specs.Patterns.{AreFirsts};
ghost use Rattle.sim_stuck.specs.StuckList.{stuck_list, reason_of, with_reason};
ghost use Rattle.sim_stuck.specs.Laws.{IsInOrder, NamesListed, ListsStuck, AloneAreAlone};

use crate::partner::Firsts;
use goal_graph::{OpId, Sched, Stuck, When, Why};
use goal_limits::NoMemory;
use sim_events::{Engine, History};
use sim_params::Costs;
use std::alloc::{AllocError, Global};

/// Returns the stuck operations of a run that is over, each with its reason, by rank and number.
///
/// An operation is stuck if it has no end. Its reason is the first operation, in the order of its dependencies, that it
/// needs and that never starts or ends as it must. If there is none, the reason is the least operation that fits it and
/// never starts. If there is none of these either, the operation is alone.
///
/// - `list`: the schedule, the costs and the history determine the list, as above.
/// - `stuck`: an operation is listed exactly if it has no end.
/// - `order`: the operations are ordered by rank and number, each once.
/// - `named`: an operation that a reason names is listed itself.
/// - `alone`: each operation that fits one that is alone has started, and is paired with another.
///
/// The first operation that fits is found by pattern, in logarithmic time. `Err` means out of memory.
pub fn explain<C: Costs, H: History>(
    alloc: Global,
    sched: &Sched,
    engine: &Engine<'_, C, H>,
) -> Result<Vec<Stuck>, NoMemory>
    requires same { engine.now.plans ≡ sched.now }
    requires done { IsFinished engine.now.plans (C.model engine.now.costs) engine.now.history }
    ensures list { IfOk result (λ list.
        list.items ≡ stuck_list sched.now (C.model engine.now.costs) engine.now.history) }
    ensures stuck { IfOk result (λ list.
        ListsStuck sched.now (C.model engine.now.costs) engine.now.history list.items) }
    ensures order { IfOk result (λ list. IsInOrder list.items) }
    ensures named { IfOk result (λ list. NamesListed list.items) }
    ensures alone { IfOk result (λ list.
        AloneAreAlone sched.now (C.model engine.now.costs) engine.now.history list.items) }
{
    engine.known();
    let stuck = unended(alloc, engine)?;
    if stuck.is_empty() {
        return Ok(Vec::new(alloc));
    }
    with_reasons(alloc, sched, engine, &stuck)
}

// Operations without an end, each with its reason.
fn with_reasons<C: Costs, H: History>(
    alloc: Global,
    sched: &Sched,
    engine: &Engine<'_, C, H>,
    ids: &[OpId],
) -> Result<Vec<Stuck>, NoMemory>
    requires same { engine.now.plans ≡ sched.now }
    requires ops { All (IsOp engine.now.plans) ids.now }
    ensures { IfOk result (λ list.
        list.items ≡ map (with_reason engine.now.plans (C.model engine.now.costs) engine.now.history) ids.now) }
{
    let absent = unstarted(alloc, engine)?;
    let firsts = Firsts::of(alloc, sched, &absent)?;
    let mut list = Vec::new(alloc);
    for id in ids {
        list.push(Stuck {
            op: *id,
            why: reason(engine, &firsts, *id),
        })?;
    }
    Ok(list)
}

// The operations without an end, by rank and number.
fn unended<C: Costs, H: History>(
    alloc: Global,
    engine: &Engine<'_, C, H>,
) -> Result<Vec<OpId>, AllocError>
    ensures { IfOk result (λ ids. ids.items
        ≡ filter (λ x. not (has_ended engine.now.plans (is_eager engine.now.plans (C.model engine.now.costs)) x
        (plain engine.now.history))) (operations engine.now.plans)) }
{
    let mut ids = Vec::new(alloc);
    for id in engine.sched().operations() {
        if !has_ended(engine, *id) {
            ids.push(*id)?;
        }
    }
    Ok(ids)
}

// The operations that have not started, by rank and number.
fn unstarted<C: Costs, H: History>(
    alloc: Global,
    engine: &Engine<'_, C, H>,
) -> Result<Vec<OpId>, AllocError>
    ensures { IfOk result (λ ids. ids.items
        ≡ filter (λ x. not (has_started engine.now.plans x (plain engine.now.history))) (operations engine.now.plans)) }
{
    let mut ids = Vec::new(alloc);
    for id in engine.sched().operations() {
        if !has_started(engine, *id) {
            ids.push(*id)?;
        }
    }
    Ok(ids)
}

// The reason of an operation without an end. `firsts` are of the operations that have not started.
fn reason<C: Costs, H: History>(engine: &Engine<'_, C, H>, firsts: &Firsts, id: OpId) -> Why
    requires op { IsOp engine.now.plans id }
    requires firsts { AreFirsts engine.now.plans
        (filter (λ x. not (has_started engine.now.plans x (plain engine.now.history))) (operations engine.now.plans))
        firsts.now }
    ensures { result ≡ reason_of engine.now.plans (C.model engine.now.costs) engine.now.history id }
{
    if let Some(unmet) = first_unmet(engine, id) {
        return Why::Op(unmet);
    }
    match firsts.first_that_fits(engine.sched(), id) {
        Some(partner) => Why::Partner(partner),
        None => Why::Alone,
    }
}

// The first operation, in the order of the dependencies, that an operation needs and that has not started or ended as
// it must.
fn first_unmet<C: Costs, H: History>(engine: &Engine<'_, C, H>, id: OpId) -> Option<OpId>
    requires { IsOp engine.now.plans id }
    ensures { result ≡ option_map (needed id) (first_unmet engine.now.plans
        (is_eager engine.now.plans (C.model engine.now.costs)) (plain engine.now.history) id) }
{
    for need in engine.sched().needs(id) {
        let earlier = OpId {
            rank: id.rank,
            op: need.op,
        };
        if !is_met(engine, need.when, earlier) {
            return Some(earlier);
        }
    }
    None
}

// Whether the start or end of an operation that a dependency waits for has happened.
fn is_met<C: Costs, H: History>(engine: &Engine<'_, C, H>, when: When, id: OpId) -> bool
    requires { IsOp engine.now.plans id }
    ensures { result ≡ is_met engine.now.plans (is_eager engine.now.plans (C.model engine.now.costs))
        (plain engine.now.history) when id }
{
    match when {
        When::AfterEnd => has_ended(engine, id),
        When::AfterStart => has_started(engine, id),
    }
}

/// Returns whether an operation has an end.
pub fn has_ended<C: Costs, H: History>(engine: &Engine<'_, C, H>, id: OpId) -> bool
    requires { IsOp engine.now.plans id }
    ensures { result ≡ has_ended engine.now.plans (is_eager engine.now.plans (C.model engine.now.costs)) id
        (plain engine.now.history) }
{
    engine.record(id).end.is_some()
}

// Whether an operation has started.
fn has_started<C: Costs, H: History>(engine: &Engine<'_, C, H>, id: OpId) -> bool
    requires { IsOp engine.now.plans id }
    ensures { result ≡ has_started engine.now.plans id (plain engine.now.history) }
{
    engine.record(id).start.is_some()
}
