//! Receives with less room than their messages.
ghost use Rattle.std.specs.Prelude.{◌≡◌, ◌++◌, OnOk, Some};
ghost use Rattle.std.specs.List.{flat_map};
ghost use Rattle.goal_graph.specs.Schedule.{operations, kind_at};
ghost use Rattle.goal_graph.specs.Fault.{IsOp};
ghost use Rattle.sim_params.specs.Times.{mate};
ghost use Rattle.sim_waits.specs.WaitsText.{oversize_by, oversize_line, oversize_of, kind_of_partner};

use goal_base::TextOut;
use goal_graph::{Kind, OpId};
use goal_limits::NoMemory;
use sim_events::{Engine, History};
use sim_params::Costs;

/// Appends the lines of the receives that take messages larger than their room, by rank and number. `Err` means out of
/// memory.
pub fn put_oversize<C: Costs, H: History>(
    out: &mut TextOut,
    engine: &Engine<'_, C, H>,
) -> Result<(), NoMemory>
    ensures { OnOk result (out.new ≡ out.old ++ flat_map
        (oversize_of engine.now.plans (C.model engine.now.costs) engine.now.history) (operations engine.now.plans)) }
{
    for id in engine.sched().operations() {
        put_receive(out, *id, engine.sched().op(*id).kind, message(engine, *id))?;
    }
    Ok(())
}

// The kind of the partner of an operation, if it has one.
fn message<C: Costs, H: History>(engine: &Engine<'_, C, H>, id: OpId) -> Option<Kind>
    requires { IsOp engine.now.plans id }
    ensures { result ≡ kind_of_partner engine.now.plans
        (mate engine.now.plans (C.model engine.now.costs) engine.now.history id) }
{
    match engine.record(id).partner {
        Some(partner) => Some(engine.sched().op(partner).kind),
        None => None,
    }
}

// Appends the line of an operation of this kind, whose partner has the kind `message`. Only a receive with a larger
// message than its room has a line.
fn put_receive(
    out: &mut TextOut,
    id: OpId,
    kind: Kind,
    message: Option<Kind>,
) -> Result<(), NoMemory>
    ensures { OnOk result (out.new ≡ out.old ++ oversize_by id (Some kind) message) }
{
    match (kind, message) {
        (Kind::Recv { bytes: room, .. }, Some(Kind::Send { bytes, .. })) if room < bytes => {
            put_line(out, id, room, bytes)
        }
        _ => Ok(()),
    }
}

// Appends the line of a receive: its room and the size of its message.
fn put_line(out: &mut TextOut, id: OpId, room: u64, message: u64) -> Result<(), NoMemory>
    ensures { OnOk result (out.new ≡ out.old ++ oversize_line id room message) }
{
    out.word("oversize ")?;
    out.pair(id.rank, id.op)?;
    out.word(" room ")?;
    out.number(u128::from(room))?;
    out.word(" message ")?;
    out.number(u128::from(message))?;
    out.word("\n")
}
