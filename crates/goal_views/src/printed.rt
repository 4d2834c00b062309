//! The printed run.
ghost use Rattle.std.specs.Prelude.{◌≡◌, ◌++◌, [], unwrap_or, IfOk, count_by};
ghost use Rattle.goal_graph.specs.Schedule.{operations};
ghost use Rattle.sim_params.specs.Run.{IsFinished};
ghost use Rattle.sim_params.specs.Stuck.{is_stuck, lacks_end};
ghost use Rattle.sim_stuck.specs.StuckList.{stuck_list};
ghost use Rattle.sim_stuck.specs.StuckText.{stuck_text};
ghost use Rattle.goal_views.specs.Views.{run_text};

use crate::shown::Shown;
use goal_graph::Sched;
use goal_limits::NoMemory;
use sim_events::{Engine, Unkept};
use sim_params::Costs;
use sim_stuck::{explain, stuck_text};
use sim_timeline::{Lines, first_line_counted};
use std::alloc::Global;

/// Returns the printed run of an engine whose run is over: its first line, the lines of its operations, which are
/// written when they are asked for, and those of its stuck operations. `Err` means out of memory.
pub fn print_run<'a, C: Costs + Drop>(
    alloc: Global,
    sched: &'a Sched,
    engine: Engine<'a, C, Unkept>,
) -> Result<Shown<'a, C>, NoMemory>
    requires same { engine.plans ≡ sched.now }
    requires done { IsFinished engine.plans (C.model engine.costs) engine.history }
    ensures text { IfOk result (λ run. run.head.items ++ (unwrap_or run.lines [] ++ run.tail.items)
        ≡ run_text sched.now (C.model engine.entry.costs) engine.entry.history) }
    ensures stuck { IfOk result (λ run.
        run.stuck ≡ is_stuck sched.now (C.model engine.entry.costs) engine.entry.history) }
{
    let (head, stuck) = first_line_counted(alloc, sched, &engine)?;
    let tail = tail_of(alloc, sched, &engine, stuck)?;
    Ok(Shown {
        head,
        lines: Some(Lines::new(engine)),
        tail,
        stuck: 0 < stuck,
    })
}

// The lines of the stuck operations of a run that is over; `stuck` is how many there are. If there are none, no
// operation is searched.
fn tail_of<C: Costs>(
    alloc: Global,
    sched: &Sched,
    engine: &Engine<'_, C, Unkept>,
    stuck: u64,
) -> Result<Vec<u8>, NoMemory>
    requires same { engine.now.plans ≡ sched.now }
    requires done { IsFinished engine.now.plans (C.model engine.now.costs) engine.now.history }
    requires stuck { stuck ≡ count_by (lacks_end sched.now (C.model engine.now.costs) engine.now.history) (operations sched.now) }
    ensures { IfOk result (λ tail. tail.items
        ≡ stuck_text (stuck_list sched.now (C.model engine.now.costs) engine.now.history)) }
{
    if stuck == 0 {
        return Ok(Vec::new(alloc));
    }
    let list = explain(alloc, sched, engine)?;
    stuck_text(alloc, &list)
}
