//! The whole report.
ghost use Rattle.std.specs.Prelude.{◌≡◌, IfOk};
ghost use Rattle.sim_waits.specs.WaitsText.{IsWaitsText};

use crate::longest::put_longest;
use crate::oversize::put_oversize;
use crate::ranks::put_ranks;
use goal_base::TextOut;
use goal_graph::Sched;
use goal_limits::NoMemory;
use sim_events::{Engine, History};
use sim_params::Costs;
use std::alloc::Global;
use std::marker::Brand;
use std::sync::ledger::Blank;

/// Returns the report on the waits of a run, in nanoseconds:
///
/// - a line `rank R ended N wait W` for each rank, with the number of its operations that have ended and the sum of
///   their waits;
/// - up to ten lines `wait R I W`, with the greatest waits above 0, the greater first and of equal ones the lesser
///   operation;
/// - a line `oversize R I room C message B` for each receive that takes a message larger than its room.
///
/// The wait of an operation that has ended is the time of its last action less its ready time. `Err` means out of
/// memory.
pub fn waits<C: Costs, H: History>(
    alloc: Global,
    sched: &Sched,
    engine: &Engine<'_, C, H>,
) -> Result<Vec<u8>, NoMemory>
    requires same { engine.now.plans ≡ sched.now }
    ensures { IfOk result (λ text.
        IsWaitsText sched.now (C.model engine.now.costs) engine.now.history text.items) }
{
    let mut out = TextOut::new(alloc);
    put_ranks(&mut out, engine)?;
    put_longest::<C, H, Brand>(alloc, Blank::new(1), &mut out, engine)?;
    put_oversize(&mut out, engine)?;
    Ok(out.into_bytes())
}
