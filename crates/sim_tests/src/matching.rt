//! Messages that wait for their receives, and receives that wait for their messages.
ghost use Rattle.std.specs.Prelude.{◌≡◌, ◌<◌, ℕ};
ghost use Rattle.goal_graph.specs.Schedule.{IsSend, IsReceive};

use goal_graph::{Kind, Op, OpId, RankPlan, Sched};
use goal_limits::NoMemory;
use sim_match::Matcher;
use std::alloc::Global;
use std::test::Fail;

fn plan_of(alloc: Global, ops: Vec<Op>) -> RankPlan
    ensures { result.ops ≡ ops.items }
{
    RankPlan {
        ops,
        deps: Vec::new(alloc),
        notes: Vec::new(alloc),
    }
}

// A send to rank 1.
fn send(tag: u32) -> Op
    ensures { result ≡ record { kind = Kind.Send 8 1 tag; cpu = 0; nic = 0 } }
{
    Op {
        kind: Kind::Send {
            bytes: 8,
            to: 1,
            tag,
        },
        cpu: 0,
        nic: 0,
    }
}

fn recv(from: Option<u32>, tag: Option<u32>) -> Op
    ensures { result ≡ record { kind = Kind.Recv 8 from tag; cpu = 0; nic = 0 } }
{
    Op {
        kind: Kind::Recv {
            bytes: 8,
            from,
            tag,
        },
        cpu: 0,
        nic: 0,
    }
}

// What the matcher returns if rank 1 posts two receives, the four messages of rank 0 arrive, and rank 1 posts a third
// receive.
fn answers(alloc: Global, sched: &Sched) -> Result<[Option<OpId>; 7], NoMemory>
    requires sends { (i : ℕ) → i < 4 → IsSend sched.now (record { rank = 0; op = i }) }
    requires receives { (i : ℕ) → i < 3 → IsReceive sched.now (record { rank = 1; op = i }) }
{
    let mut matcher = Matcher::new(alloc, sched)?;
    let a = matcher.post(OpId { rank: 1, op: 0 });
    let b = matcher.post(OpId { rank: 1, op: 1 });
    let c = matcher.arrive(OpId { rank: 0, op: 0 });
    let d = matcher.arrive(OpId { rank: 0, op: 3 });
    let e = matcher.arrive(OpId { rank: 0, op: 2 });
    let f = matcher.arrive(OpId { rank: 0, op: 1 });
    let g = matcher.post(OpId { rank: 1, op: 2 });
    Ok([a, b, c, d, e, f, g])
}

#[test]
fn pairs_by_order_of_posts_and_arrivals(rt: HostRuntime) -> Result<(), Fail> {
    let sends = vec![in rt.alloc(); send(5), send(5), send(6), send(7)]?;
    let receives = vec![in rt.alloc(); recv(None, None), recv(Some(0), Some(5)), recv(None, None)]?;
    let plans = vec![in rt.alloc(); plan_of(rt.alloc(), sends), plan_of(rt.alloc(), receives)]?;
    let sched = Sched::build(rt.alloc(), plans)?;
    let answers = answers(rt.alloc(), &sched)?;
    assert_eq!(
        rt;
        answers,
        [
            None,
            None,
            // both receives fit, and the first was posted first
            Some(OpId { rank: 1, op: 0 }),
            None,
            None,
            // the second receive does not take messages of other tags
            Some(OpId { rank: 1, op: 1 }),
            // of the messages that wait, tag 7 arrived first
            Some(OpId { rank: 0, op: 3 }),
        ]
    );
    Ok(())
}
