// Runs a schedule and makes what a view shows of the run.
ghost use Rattle.std.specs.Prelude.{ℕ, ◌≡◌, ◌≢◌, ◌+◌, ◌*◌, ◌++◌, ◌<◌, ◌≤◌, ◌^◌, [], length, unwrap_or, List, OnOk, IfOk, IfErr};
ghost use Rattle.goal_graph.specs.declared.action.Timed.{Timed};
ghost use Rattle.goal_graph.specs.Schedule.{operations};
ghost use Rattle.sim_params.specs.Budget.{budget};
ghost use Rattle.sim_params.specs.Run.{IsFinished, IsCompleteRun};
ghost use Rattle.sim_params.specs.Stuck.{is_stuck};
ghost use Rattle.sim_events.specs.Cost.{cost_of_start, cost_of_run, reads_of_run};
ghost use Rattle.sim_events.specs.Engine.{IsEngineFault};
ghost use Rattle.goal_views.specs.Views.{Shows, IsShownRun};
ghost use Rattle.goal_views.specs.Runs.{IsRunOf};

use crate::knots::show_knots;
use crate::printed::print_run;
use crate::shown::Shown;
use crate::sum::sum_up;
use goal_graph::Sched;
use goal_limits::NoMemory;
use goal_words::RunView;
use sim_events::{Engine, EngineFault, Unkept};
use sim_order::Steps;
use sim_params::Costs;
use sim_stuck::is_stuck;
use sim_waits::waits;
use std::alloc::Global;
use std::sync::ledger::Ledger;

// Runs a schedule with these costs to the end. `steps` counts the comparisons of its queue, `looks` the entries of
// match lists that its matcher examines, and `reads` the needs that its actions examine.
fn run_counted<'a, C: Costs + Drop, L: Ledger, M: Ledger, N: Ledger>(
    alloc: Global,
    sched: &'a Sched,
    costs: C,
    steps: &mut Steps<L>,
    looks: &mut Steps<M>,
    reads: &mut Steps<N>,
) -> Result<Engine<'a, C, Unkept>, EngineFault>
    ensures fits { OnOk result (budget sched.now (C.model costs) < 2 ^ 63) }
    ensures run { IfOk result (λ engine. IsRunOf (C.model costs) sched.now engine) }
    ensures costs { IfOk result (λ engine. C.model engine.costs ≡ C.model costs) }
    ensures fault { IfErr result (IsEngineFault (budget sched.now (C.model costs))) }
    ensures counted { IfOk result (λ engine. (k : ℕ) → length (operations sched.now) ≤ 2 ^ k
        → steps.new ≤ steps.old + (cost_of_start k sched.now + cost_of_run k sched.now engine.history)) }
    ensures looked { IfOk result (λ engine. looks.new ≤ looks.old + 8 * length engine.history) }
    ensures needed { IfOk result (λ engine. reads.new ≡ reads.old + reads_of_run sched.now engine.history) }
{
    match Engine::start_counted(alloc, sched, costs, steps) {
        Ok(engine) => {
            let mut engine = engine;
            engine.run_counted(steps, looks, reads);
            Ok(engine)
        }
        Err(fault) => Err(fault),
    }
}

// Returns what a view other than the printed run shows of a finished run, and whether an operation is stuck. Each view
// has one row.
fn text_of<C: Costs>(
    alloc: Global,
    sched: &Sched,
    engine: &Engine<'_, C, Unkept>,
    view: RunView,
) -> Result<(Vec<u8>, bool), NoMemory>
    requires whole { view ≢ RunView.Printed }
    requires same { engine.now.plans ≡ sched.now }
    requires done { IsFinished engine.now.plans (C.model engine.now.costs) engine.now.history }
    ensures shown { IfOk result (λ both.
        Shows view sched.now (C.model engine.now.costs) engine.now.history both.0.items) }
    ensures stuck { IfOk result (λ both.
        both.1 ≡ is_stuck sched.now (C.model engine.now.costs) engine.now.history) }
{
    match view {
        RunView::Printed => unreachable!(),
        RunView::Waits => Ok((waits(alloc, sched, engine)?, is_stuck(engine))),
        RunView::Knots => Ok((show_knots(alloc, sched, engine)?, is_stuck(engine))),
        RunView::Sum => sum_up(alloc, sched, engine),
    }
}

// Releases an engine. As a separate function, it keeps the parts of the engine out of the proofs of its callers.
fn release<C: Costs + Drop>(engine: Engine<'_, C, Unkept>) {
    let _engine = engine;
}

// Makes the whole text of a view other than the printed run, and releases the engine.
fn show_whole<'a, C: Costs + Drop>(
    alloc: Global,
    sched: &'a Sched,
    engine: Engine<'a, C, Unkept>,
    view: RunView,
) -> Result<Shown<'a, C>, NoMemory>
    requires whole { view ≢ RunView.Printed }
    requires same { engine.plans ≡ sched.now }
    requires done { IsFinished engine.plans (C.model engine.costs) engine.history }
    ensures shown { IfOk result (λ run. Shows view sched.now (C.model engine.entry.costs) engine.entry.history
        (run.head.items ++ (unwrap_or run.lines [] ++ run.tail.items))) }
    ensures stuck { IfOk result (λ run.
        run.stuck ≡ is_stuck sched.now (C.model engine.entry.costs) engine.entry.history) }
{
    let both = text_of(alloc, sched, &engine, view);
    release(engine);
    let (text, stuck) = both?;
    Ok(Shown::whole(alloc, text, stuck))
}

// Returns what a view shows of a finished run: the printed run in pages, any other view whole.
fn show<'a, C: Costs + Drop>(
    alloc: Global,
    sched: &'a Sched,
    engine: Engine<'a, C, Unkept>,
    view: RunView,
) -> Result<Shown<'a, C>, NoMemory>
    requires same { engine.plans ≡ sched.now }
    requires done { IsFinished engine.plans (C.model engine.costs) engine.history }
    ensures shown { IfOk result (λ run. Shows view sched.now (C.model engine.entry.costs) engine.entry.history
        (run.head.items ++ (unwrap_or run.lines [] ++ run.tail.items))) }
    ensures stuck { IfOk result (λ run.
        run.stuck ≡ is_stuck sched.now (C.model engine.entry.costs) engine.entry.history) }
{
    match view {
        RunView::Printed => print_run(alloc, sched, engine),
        RunView::Waits | RunView::Knots | RunView::Sum => show_whole(alloc, sched, engine, view),
    }
}

/// Runs a schedule with these costs, and returns what a view shows of the run. Throughout the run `steps` counts the
/// comparisons of keys, `looks` the entries of match lists that the matcher examines, and `reads` the needs of
/// operations that actions examine.
///
/// - `counted`: with at most 2^k operations, the run makes at most `cost_of_start` plus `cost_of_run` comparisons.
/// - `looked`: the matcher examines at most eight entries per action.
/// - `needed`: an action examines each need that its start or end may satisfy once, and no other. The number is exact.
///
/// # Errors
///
/// `Budget` with the time budget in nanoseconds, where it exceeds 2^63-1. `NoMemory` where memory runs out.
pub fn show_run<'a, C: Costs + Drop, L: Ledger, M: Ledger, N: Ledger>(
    alloc: Global,
    sched: &'a Sched,
    costs: C,
    view: RunView,
    steps: &mut Steps<L>,
    looks: &mut Steps<M>,
    reads: &mut Steps<N>,
) -> Result<Shown<'a, C>, EngineFault>
    ensures fits { OnOk result (budget sched.now (C.model costs) < 2 ^ 63) }
    ensures shown { IfOk result (λ run. IsShownRun view (C.model costs) sched.now
        (run.head.items ++ (unwrap_or run.lines [] ++ run.tail.items)) run.stuck) }
    ensures fault { IfErr result (IsEngineFault (budget sched.now (C.model costs))) }
    ensures counted { OnOk result ((h : List Timed) (k : ℕ) → IsCompleteRun sched.now (C.model costs) h
        → length (operations sched.now) ≤ 2 ^ k → steps.new ≤ steps.old + (cost_of_start k sched.now + cost_of_run k sched.now h)) }
    ensures looked { OnOk result ((h : List Timed) → IsCompleteRun sched.now (C.model costs) h
        → looks.new ≤ looks.old + 8 * length h) }
    ensures needed { OnOk result ((h : List Timed) → IsCompleteRun sched.now (C.model costs) h
        → reads.new ≡ reads.old + reads_of_run sched.now h) }
{
    let engine = match run_counted(alloc, sched, costs, steps, looks, reads) {
        Ok(engine) => engine,
        Err(fault) => return Err(fault),
    };
    match show(alloc, sched, engine, view) {
        Ok(run) => Ok(run),
        Err(NoMemory) => Err(EngineFault::NoMemory),
    }
}
