//! What the contracts do not say: that the calls succeed. The counts are computed by hand, and the draws by another
//! program.
use crate::same::same;
use goal_blocks::Collective;
use goal_collectives::{GenFault, generate, probe_plan};
use goal_graph::{Kind, Sched};
use std::alloc::Global;
use std::test::Fail;

// The number of operations of the schedule, with messages of eight bytes.
fn count(rt: &HostRuntime, what: Collective, ranks: u32) -> Result<u32, Fail> {
    if !what.is_made_by_generate() {
        return Err(Fail::from("none of the five"));
    }
    let sched = generate(rt.alloc(), what, ranks, 8)
        .ok()
        .ok_or("there is a schedule")?;
    Ok(sched.count())
}

#[test]
fn few_ranks(rt: HostRuntime) -> Result<(), Fail> {
    same(&rt, &count(&rt, Collective::Bcast { root: 3 }, 5)?, &8);
    same(&rt, &count(&rt, Collective::Barrier, 5)?, &45);
    same(&rt, &count(&rt, Collective::Allgather, 4)?, &24);
    same(&rt, &count(&rt, Collective::Allreduce, 4)?, &24);
    same(&rt, &count(&rt, Collective::Alltoall, 1)?, &1);
    Ok(())
}

#[test]
fn most_ranks(rt: HostRuntime) -> Result<(), Fail> {
    same(
        &rt,
        &count(&rt, Collective::Bcast { root: 65_535 }, 65_536)?,
        &131_070,
    );
    same(&rt, &count(&rt, Collective::Barrier, 16_384)?, &688_128);
    same(&rt, &count(&rt, Collective::Allgather, 512)?, &523_264);
    same(&rt, &count(&rt, Collective::Alltoall, 512)?, &523_776);
    Ok(())
}

#[test]
fn no_schedule(rt: HostRuntime) -> Result<(), Fail> {
    let fault = generate(rt.alloc(), Collective::Allgather, 513, 8).err();
    same(&rt, &fault, &Some(GenFault::Ranks { limit: 512 }));
    let fault = generate(rt.alloc(), Collective::Bcast { root: 4 }, 4, 8).err();
    same(&rt, &fault, &Some(GenFault::Root));
    let fault = generate(rt.alloc(), Collective::Allreduce, 6, 8).err();
    same(&rt, &fault, &Some(GenFault::NotPowerOfTwo));
    Ok(())
}

fn probe(alloc: Global) -> Result<Sched, Fail> {
    Ok(probe_plan(alloc, 500, 1).ok().ok_or("there is memory")?)
}

// The first round is (22, 25, 1196, 92870).
#[test]
fn probe_rounds(rt: HostRuntime) -> Result<(), Fail> {
    let sched = probe(rt.alloc())?;
    same(&rt, &sched.count(), &1_500);
    let plan = sched.plans().get(22).ok_or("64 ranks")?;
    same(&rt, &plan.ops.len(), &24);
    same(&rt, &plan.deps.len(), &15);
    let calc = plan.ops.first().ok_or("a calc")?;
    same(&rt, &calc.kind, &Kind::Calc { nanos: 1_196 });
    Ok(())
}

// The eighth round, (17, 32, 607, 87538), has a receive from any source.
#[test]
fn a_receive_of_a_probe(rt: HostRuntime) -> Result<(), Fail> {
    let sched = probe(rt.alloc())?;
    let plan = sched.plans().get(32).ok_or("64 ranks")?;
    let receive = plan.ops.get(1).ok_or("a receive")?;
    let kind = Kind::Recv {
        bytes: 87_538,
        from: None,
        tag: Some(7),
    };
    same(&rt, &receive.kind, &kind);
    Ok(())
}
