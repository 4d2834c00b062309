//! The knots of a run.
ghost use Rattle.std.specs.Prelude.{◌≡◌, IfOk};
ghost use Rattle.sim_params.specs.Run.{IsFinished};
ghost use Rattle.goal_views.specs.Views.{knots_shown};

use goal_graph::Sched;
use goal_limits::NoMemory;
use sim_cycles::{knots, knots_text};
use sim_events::{Engine, History};
use sim_params::Costs;
use sim_stuck::explain;
use sim_timeline::first_line;
use std::alloc::Global;

/// Returns the first line of the timeline of a run that is over, and the lines of the knots of its stuck operations.
/// `Err` means out of memory.
pub fn show_knots<C: Costs, H: History>(
    alloc: Global,
    sched: &Sched,
    engine: &Engine<'_, C, H>,
) -> Result<Vec<u8>, NoMemory>
    requires same { engine.now.plans ≡ sched.now }
    requires done { IsFinished engine.now.plans (C.model engine.now.costs) engine.now.history }
    ensures { IfOk result (λ text.
        text.items ≡ knots_shown sched.now (C.model engine.now.costs) engine.now.history) }
{
    let _at_most = sched.count();
    let mut text = first_line(alloc, sched, engine)?;
    let stuck = explain(alloc, sched, engine)?;
    let found = knots(alloc, &stuck)?;
    let told = knots_text(alloc, &found)?;
    text.extend_from_slice(&told)?;
    Ok(text)
}
