//! A run with times computed by hand, and the engine compared with a plain evaluator of the rules.
ghost use Rattle.std.specs.Prelude.{◌≡◌, ◌<◌};

use crate::plans::plan;
use crate::same::{same, same_list};
use goal_graph::{Class, Kind, OpId, Sched, Timed};
use sim_events::{Engine, EngineFault, History, Record, Unkept};
use sim_order::Steps;
use sim_params::{LogGops, Params};
use sim_timeline::timeline;
use std::alloc::Global;
use std::marker::Brand;
use std::process::Abort;
use std::sync::ledger::{Blank, Ledger};
use std::test::Fail;

mod evaluator;
mod seeded;

fn send(bytes: u64, to: u32) -> Kind {
    Kind::Send { bytes, to, tag: 0 }
}

fn recv(bytes: u64, from: Option<u32>) -> Kind {
    Kind::Recv {
        bytes,
        from,
        tag: Some(0),
    }
}

fn costs() -> Result<LogGops, Fail> {
    Ok(LogGops {
        params: Params::new(2500, 1500, 1000, 6, 0, 65535)?,
    })
}

// When an operation started and when it ends, and its partner.
fn told<H: History>(
    rt: &impl Abort,
    engine: &Engine<LogGops, H>,
    rank: u32,
    op: u32,
) -> (Option<u64>, Option<u64>, Option<OpId>) {
    let plans = engine.sched().plans();
    assert!(rt; (rank as usize) < plans.len());
    let plan = &plans[rank as usize];
    assert!(rt; (op as usize) < plan.ops.len());
    let Record {
        start,
        end,
        partner,
    } = engine.record(OpId { rank, op });
    (start, end, partner)
}

fn id(rank: u32, op: u32) -> Option<OpId> {
    Some(OpId { rank, op })
}

fn at(time: u64, class: Class, rank: u32, op: u32) -> Timed {
    Timed {
        time,
        class,
        op: OpId { rank, op },
    }
}

// A message one byte larger than an eager one may be.
fn large_message(alloc: Global) -> Result<Sched, Fail> {
    let sends = plan(alloc, &[send(65_536, 1)], &[])?;
    let receives = plan(alloc, &[recv(65_536, Some(0))], &[])?;
    Ok(Sched::build(alloc, vec![in alloc; sends, receives]?)?)
}

// The trace of its run.
fn traced(rt: &impl Abort, engine: &Engine<'_, LogGops>) {
    let trace = [
        at(0, Class::Post, 1, 0),
        at(0, Class::Begin, 0, 0),
        at(4000, Class::Arrive, 0, 0),
        at(6500, Class::Data, 0, 0),
        at(403_710, Class::Serve, 1, 0),
    ];
    same_list(rt, engine.trace(), trace.as_slice());
}

// The timeline of its run.
fn printed(rt: &impl Abort, alloc: Global, engine: &Engine<'_, LogGops>) -> Result<(), Fail> {
    let text = timeline(alloc, engine.sched(), engine)?;
    let lines =
        b"ranks 2 ops 2 stuck 0 unread 0 finish 405210\nop 0 0 send start 0 end 8000 match 1 0\nop 1 0 recv start 0 end 405210 match 0 0\n";
    same_list(rt, text.as_slice(), lines.as_slice());
    Ok(())
}

#[test]
fn a_large_message(rt: HostRuntime) -> Result<(), Fail> {
    let sched = large_message(rt.alloc())?;
    let mut engine = Engine::new(rt.alloc(), &sched, costs()?)?;
    engine.run();
    traced(&rt, &engine);
    printed(&rt, rt.alloc(), &engine)?;
    let sent = (Some(0), Some(8000), id(1, 0));
    same(&rt, &told(&rt, &engine, 0, 0), &sent);
    let received = (Some(0), Some(405_210), id(0, 0));
    same(&rt, &told(&rt, &engine, 1, 0), &received);
    Ok(())
}

// An engine that keeps no action, before its first step.
fn unkept<'a, L: Ledger>(
    alloc: Global,
    sched: &'a Sched,
    costs: LogGops,
    blank: Blank,
) -> Result<Engine<'a, LogGops, Unkept>, EngineFault>
    requires name { blank.name ≡ L.name }
    requires parts { blank.parts ≡ L.parts }
    requires some { 0 < blank.parts }
{
    let mut steps = Steps::<L>::new(blank);
    Engine::start_counted(alloc, sched, costs, &mut steps)
}

// The same with an engine that keeps no actions.
#[test]
fn a_large_message_unkept(rt: HostRuntime) -> Result<(), Fail> {
    let sched = large_message(rt.alloc())?;
    let mut engine = unkept::<Brand>(rt.alloc(), &sched, costs()?, Blank::new(1))?;
    engine.run();
    let received = (Some(0), Some(405_210), id(0, 0));
    same(&rt, &told(&rt, &engine, 1, 0), &received);
    Ok(())
}

// The largest size of a message, in bytes.
const LARGEST: u64 = (1 << 40) - 1;

fn greatest_costs() -> Result<LogGops, Fail> {
    Ok(LogGops {
        params: Params::new(2500, 1500, 1000, 1_048_575, 1_048_575, 65535)?,
    })
}

// Two messages of the largest size at the largest costs of a byte.
#[test]
fn a_budget_that_is_over(rt: HostRuntime) -> Result<(), Fail> {
    let kinds = [send(LARGEST, 1), send(LARGEST, 1)];
    let sends = plan(rt.alloc(), &kinds, &[])?;
    let receives = plan(rt.alloc(), &[recv(LARGEST, Some(0))], &[])?;
    let sched = Sched::build(rt.alloc(), vec![in rt.alloc(); sends, receives]?)?;
    let fault = Engine::new(rt.alloc(), &sched, greatest_costs()?).err();
    let sum = 11_529_204_050_931_256_500;
    same(&rt, &fault, &Some(EngineFault::Budget { sum }));
    Ok(())
}
