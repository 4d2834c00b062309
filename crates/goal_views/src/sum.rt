//! The sum of a run.
ghost use Rattle.std.specs.Prelude.{◌≡◌, IfOk};
ghost use Rattle.sim_params.specs.Stuck.{is_stuck};
ghost use Rattle.goal_views.specs.Views.{sum_of_ends, probe_text};

use goal_base::TextOut;
use goal_graph::Sched;
use goal_limits::NoMemory;
use sim_events::{Engine, History};
use sim_params::Costs;
use sim_timeline::first_line_counted;
use std::alloc::Global;

/// Returns the first line of the timeline and the sum of all end times, as text, and whether an operation has no end.
/// `Err` means out of memory.
pub fn sum_up<C: Costs, H: History>(
    alloc: Global,
    sched: &Sched,
    engine: &Engine<'_, C, H>,
) -> Result<(Vec<u8>, bool), NoMemory>
    requires same { engine.now.plans ≡ sched.now }
    ensures text { IfOk result (λ both.
        both.0.items ≡ probe_text sched.now (C.model engine.now.costs) engine.now.history) }
    ensures stuck { IfOk result (λ both.
        both.1 ≡ is_stuck sched.now (C.model engine.now.costs) engine.now.history) }
{
    let (line, stuck) = first_line_counted(alloc, sched, engine)?;
    let mut text = line;
    let mut out = TextOut::new(alloc);
    out.word("ends ")?;
    out.number(sum_of_ends(sched, engine))?;
    out.word("\n")?;
    text.extend_from_slice(&out.into_bytes())?;
    Ok((text, 0 < stuck))
}

// The sum, in nanoseconds, of the end times of all operations that have one. These are at most 2^20 numbers below 2^64.
fn sum_of_ends<C: Costs, H: History>(sched: &Sched, engine: &Engine<'_, C, H>) -> u128
    requires same { engine.now.plans ≡ sched.now }
    ensures { result ≡ sum_of_ends sched.now (C.model engine.now.costs) engine.now.history }
{
    let mut sum: u128 = 0;
    for id in sched.operations() {
        sum += u128::from(engine.record(*id).end.unwrap_or(0));
    }
    sum
}
