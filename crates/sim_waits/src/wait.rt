//! How long an operation waited.
ghost use Rattle.std.specs.Prelude.{◌≡◌};
ghost use Rattle.goal_graph.specs.Schedule.{kind_at};
ghost use Rattle.goal_graph.specs.Fault.{IsOp};
ghost use Rattle.goal_graph.specs.Allowed.{last_class};
ghost use Rattle.sim_params.specs.Costs.{over, is_eager};
ghost use Rattle.sim_params.specs.Times.{cpu_hold};
ghost use Rattle.sim_events.specs.Enabled.{moment_known, ready_known};
ghost use Rattle.sim_waits.specs.WaitKeys.{wait_told};

use crate::laws::laws_of_waits;
use goal_graph::{Kind, OpId, When};
use sim_events::{Engine, History};
use sim_params::Costs;

/// Returns how long an operation waited, in nanoseconds, once it has ended: from its ready time to its last action.
pub fn wait<C: Costs, H: History>(engine: &Engine<'_, C, H>, id: OpId) -> Option<u64>
    requires { IsOp engine.now.plans id }
    ensures { result ≡ wait_told engine.now.plans (C.model engine.now.costs) engine.now.history id }
{
    engine.known();
    laws_of_waits();
    let end = engine.record(id).end?;
    let ready = ready(engine, id)?;
    Some(end - last_hold(engine, id) - ready)
}

// How long the last action of an operation holds its cpu, in nanoseconds.
fn last_hold<C: Costs, H: History>(engine: &Engine<'_, C, H>, id: OpId) -> u64
    requires { IsOp engine.now.plans id }
    ensures { result ≡ cpu_hold engine.now.plans (C.model engine.now.costs) engine.now.history
        (last_class (is_eager engine.now.plans (C.model engine.now.costs) id) (kind_at engine.now.plans id))
        id (kind_at engine.now.plans id) }
{
    match engine.sched().op(id).kind {
        Kind::Calc { nanos } => nanos,
        Kind::Send { .. } => over(engine, id),
        Kind::Recv { .. } => match engine.record(id).partner {
            Some(send) => over(engine, send),
            None => 0,
        },
    }
}

// How long the message of a send holds a cpu; 0 for any other operation.
fn over<C: Costs, H: History>(engine: &Engine<'_, C, H>, id: OpId) -> u64
    requires { IsOp engine.now.plans id }
    ensures { result ≡ over engine.now.plans (C.model engine.now.costs) id }
{
    match engine.sched().op(id).kind {
        Kind::Send { bytes, to, .. } => engine.costs().over(id.rank, to, bytes),
        Kind::Calc { .. } => 0,
        Kind::Recv { .. } => 0,
    }
}

// When all that an operation needs has happened, once it has.
fn ready<C: Costs, H: History>(engine: &Engine<'_, C, H>, id: OpId) -> Option<u64>
    requires { IsOp engine.now.plans id }
    ensures { result ≡ ready_known engine.now.plans (C.model engine.now.costs) engine.now.history id }
{
    let mut ready: u64 = 0;
    for need in engine.sched().needs(id) {
        let needed = OpId {
            rank: id.rank,
            op: need.op,
        };
        match moment(engine, need.when, needed) {
            Some(at) => ready = ready.max(at),
            None => return None,
        }
    }
    Some(ready)
}

// The start or end of an operation that a dependency waits for, once it has happened.
fn moment<C: Costs, H: History>(engine: &Engine<'_, C, H>, when: When, id: OpId) -> Option<u64>
    requires { IsOp engine.now.plans id }
    ensures { result ≡ moment_known engine.now.plans (C.model engine.now.costs) engine.now.history when id }
{
    let record = engine.record(id);
    match when {
        When::AfterEnd => record.end,
        When::AfterStart => record.start,
    }
}
