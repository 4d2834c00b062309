//! Whether a run got stuck.
ghost use Rattle.std.specs.Prelude.{◌≡◌};
ghost use Rattle.sim_params.specs.Stuck.{is_stuck};

use crate::reasons::has_ended;
use sim_events::{Engine, History};
use sim_params::Costs;

/// Returns whether any operation of a run has no end.
pub fn is_stuck<C: Costs, H: History>(engine: &Engine<'_, C, H>) -> bool
    ensures { result ≡ is_stuck engine.now.plans (C.model engine.now.costs) engine.now.history }
{
    for id in engine.sched().operations() {
        if !has_ended(engine, *id) {
            return true;
        }
    }
    false
}
