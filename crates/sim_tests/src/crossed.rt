//! Messages that arrive in the order of falling tags, and receives that are posted in the order of rising ones. A
//! matcher that scans its lists does not end within the minute that a test may take.
ghost use Rattle.std.specs.Prelude.{◌≡◌, Some, IfSome};
ghost use Rattle.goal_graph.specs.Schedule.{kind_at};

use crate::plans::plan;
use crate::same::same;
use goal_graph::{Kind, OpId, Sched};
use goal_limits::NoMemory;
use sim_match::Matcher;
use std::alloc::Global;
use std::test::Fail;

const COUNT: u32 = 520_000;

fn schedule(alloc: Global) -> Result<Sched, Fail> {
    let mut sends = Vec::new(alloc);
    let mut receives = Vec::new(alloc);
    for tag in 0..COUNT {
        sends.push(Kind::Send {
            bytes: 1,
            to: 1,
            tag: COUNT - 1 - tag,
        })?;
        receives.push(Kind::Recv {
            bytes: 1,
            from: Some(0),
            tag: Some(tag),
        })?;
    }
    let plans = vec![in alloc; plan(alloc, &sends, &[])?, plan(alloc, &receives, &[])?]?;
    Ok(Sched::build(alloc, plans)?)
}

fn kind_of(sched: &Sched, id: OpId) -> Option<Kind>
    ensures { IfSome result (λ kind. kind_at sched.now id ≡ Some kind) }
{
    if id.rank as usize >= sched.plans().len() {
        return None;
    }
    if id.op >= sched.op_count(id.rank) {
        return None;
    }
    Some(sched.op(id).kind)
}

// Whether no receive finds a message if all are posted first, and each message that arrives then finds its receive.
fn find_their_receives(alloc: Global, sched: &Sched) -> Result<bool, NoMemory> {
    let mut matcher = Matcher::new(alloc, sched)?;
    'posts: for op in 0..COUNT {
        let id = OpId { rank: 1, op };
        let Some(Kind::Recv { .. }) = kind_of(sched, id) else {
            return Ok(false);
        };
        if matcher.post(id).is_some() {
            return Ok(false);
        }
    }
    'arrivals: for op in 0..COUNT {
        let id = OpId { rank: 0, op };
        let Some(Kind::Send { .. }) = kind_of(sched, id) else {
            return Ok(false);
        };
        let wanted = OpId {
            rank: 1,
            op: COUNT - 1 - op,
        };
        if matcher.arrive(id) != Some(wanted) {
            return Ok(false);
        }
    }
    Ok(true)
}

#[test]
fn many_messages(rt: HostRuntime) -> Result<(), Fail> {
    let sched = schedule(rt.alloc())?;
    same(&rt, &find_their_receives(rt.alloc(), &sched)?, &true);
    Ok(())
}
