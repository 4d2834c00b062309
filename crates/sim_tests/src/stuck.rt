//! Runs that get stuck, with their lines.
use crate::plans::{dep, plan};
use crate::same::same_list;
use goal_graph::{Dep, Kind, Sched, Stuck, When};
use sim_events::Engine;
use sim_params::{LogGops, Params};
use sim_stuck::{explain, stuck_text};
use std::alloc::Global;
use std::process::Abort;
use std::test::Fail;

// The stuck operations of a complete run.
fn stuck(alloc: Global, sched: &Sched) -> Result<Vec<Stuck>, Fail> {
    let costs = LogGops {
        params: Params::new(2500, 1500, 1000, 6, 0, 65535)?,
    };
    let mut engine = Engine::new(alloc, sched, costs)?;
    engine.run();
    Ok(explain(alloc, sched, &engine)?)
}

// The schedule of two ranks, each with these dependencies.
fn two_ranks(alloc: Global, first: &[Kind], second: &[Kind], deps: &[Dep]) -> Result<Sched, Fail> {
    let first = plan(alloc, first, deps)?;
    let second = plan(alloc, second, deps)?;
    Ok(Sched::build(alloc, vec![in alloc; first, second]?)?)
}

// Checks that the stuck operations of a complete run have these lines.
fn leaves(rt: &impl Abort, alloc: Global, sched: &Sched, lines: &str) -> Result<(), Fail> {
    let list = stuck(alloc, sched)?;
    let text = stuck_text(alloc, &list)?;
    same_list(rt, text.as_slice(), lines.as_bytes());
    Ok(())
}

// A receive whose message another one has taken.
#[test]
fn a_message_that_is_taken(rt: HostRuntime) -> Result<(), Fail> {
    let send = Kind::Send {
        bytes: 10,
        to: 1,
        tag: 7,
    };
    let any = Kind::Recv {
        bytes: 10,
        from: None,
        tag: None,
    };
    let exact = Kind::Recv {
        bytes: 10,
        from: Some(0),
        tag: Some(7),
    };
    let sched = two_ranks(rt.alloc(), &[send], &[any, exact], &[])?;
    leaves(&rt, rt.alloc(), &sched, "stuck 1 1 alone\n")
}

// Two rendezvous sends, each of which waits for a receive after the other's send.
#[test]
fn large_sends_face_to_face(rt: HostRuntime) -> Result<(), Fail> {
    let send = |to| Kind::Send {
        bytes: 100_000,
        to,
        tag: 0,
    };
    let recv = |from| Kind::Recv {
        bytes: 100_000,
        from: Some(from),
        tag: Some(0),
    };
    let need = dep(1, 0, When::AfterEnd);
    let sched = two_ranks(
        rt.alloc(),
        &[send(1), recv(1)],
        &[send(0), recv(0)],
        &[need],
    )?;
    let lines =
        "stuck 0 0 for partner 1 1\nstuck 0 1 for op 0 0\nstuck 1 0 for partner 0 1\nstuck 1 1 for op 1 0\n";
    leaves(&rt, rt.alloc(), &sched, lines)
}
