//! What the contracts do not say: that the calls succeed. The counts are computed by hand from the rounds.
use crate::same::same;
use goal_blocks::Collective;
use goal_rooted::{RootedFault, generate_rooted};
use std::test::Fail;

// The number of operations of the schedule, with messages of eight bytes.
fn count(rt: &HostRuntime, what: Collective, ranks: u32) -> Result<u32, Fail> {
    if what.is_made_by_generate() {
        return Err(Fail::from("none of the five"));
    }
    let sched = generate_rooted(rt.alloc(), what, ranks, 8)
        .ok()
        .ok_or("there is a schedule")?;
    Ok(sched.count())
}

#[test]
fn few_ranks(rt: HostRuntime) -> Result<(), Fail> {
    same(&rt, &count(&rt, Collective::Reduce { root: 3 }, 5)?, &12);
    same(&rt, &count(&rt, Collective::Gather { root: 5 }, 7)?, &12);
    same(&rt, &count(&rt, Collective::Scatter { root: 5 }, 7)?, &12);
    same(&rt, &count(&rt, Collective::ReduceScatter, 3)?, &18);
    same(&rt, &count(&rt, Collective::Scan, 3)?, &6);
    Ok(())
}

#[test]
fn most_ranks(rt: HostRuntime) -> Result<(), Fail> {
    same(
        &rt,
        &count(&rt, Collective::Reduce { root: 65_535 }, 65_536)?,
        &196_605,
    );
    same(
        &rt,
        &count(&rt, Collective::Gather { root: 1 }, 65_536)?,
        &131_070,
    );
    same(
        &rt,
        &count(&rt, Collective::Scatter { root: 1 }, 65_536)?,
        &131_070,
    );
    same(&rt, &count(&rt, Collective::ReduceScatter, 128)?, &48_768);
    same(&rt, &count(&rt, Collective::Scan, 2_048)?, &6_141);
    Ok(())
}

#[test]
fn no_schedule(rt: HostRuntime) -> Result<(), Fail> {
    let fault = generate_rooted(rt.alloc(), Collective::Scan, 2_049, 8).err();
    same(&rt, &fault, &Some(RootedFault::Ranks { limit: 2_048 }));
    let fault = generate_rooted(rt.alloc(), Collective::Gather { root: 4 }, 4, 8).err();
    same(&rt, &fault, &Some(RootedFault::Root));
    Ok(())
}
