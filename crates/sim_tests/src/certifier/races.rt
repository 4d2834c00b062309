//! Races of schedules of one rank.
use crate::plans::{CALC, dep, one_rank};
use crate::same::same;
use goal_blocks::{CertFault, Collective};
use goal_certify::certify;
use goal_graph::{Dep, Note, PlanFault, When};
use std::alloc::Global;
use std::test::Fail;

fn adds(op: u32, from: u32, to: u32) -> Note {
    Note::Adds { op, from, to }
}

// The fault of a schedule of one rank with three calcs, as a barrier. None of them touches slot 0, which a barrier
// needs.
fn fault_of(alloc: Global, deps: &[Dep], notes: &[Note]) -> Result<Option<CertFault>, PlanFault> {
    let sched = one_rank(alloc, &[CALC, CALC, CALC], deps, notes)?;
    Ok(certify(alloc, &sched, Collective::Barrier).err())
}

fn race(first: u32, second: u32, slot: u32) -> Option<CertFault> {
    Some(CertFault::Race {
        rank: 0,
        first,
        second,
        slot,
    })
}

#[test]
fn reads_do_not_race(rt: HostRuntime) -> Result<(), Fail> {
    let notes = [adds(0, 7, 1), adds(1, 7, 2), adds(2, 7, 3)];
    same(&rt, &fault_of(rt.alloc(), &[], &notes)?, &None);
    Ok(())
}

#[test]
fn the_least_race_is_told(rt: HostRuntime) -> Result<(), Fail> {
    let notes = [adds(2, 9, 5), adds(1, 5, 3), adds(0, 9, 3), adds(1, 9, 9)];
    same(&rt, &fault_of(rt.alloc(), &[], &notes)?, &race(0, 1, 3));
    let ordered = [dep(0, 1, When::AfterEnd)];
    same(
        &rt,
        &fault_of(rt.alloc(), &ordered, &notes)?,
        &race(1, 2, 5),
    );
    Ok(())
}

// The last of three calcs follows the first through the second one.
#[test]
fn an_end_that_is_required_on_the_way(rt: HostRuntime) -> Result<(), Fail> {
    let notes = [adds(0, 1, 2), adds(2, 2, 3)];
    let ended = [dep(2, 1, When::AfterStart), dep(1, 0, When::AfterEnd)];
    same(&rt, &fault_of(rt.alloc(), &ended, &notes)?, &None);
    let started = [dep(2, 1, When::AfterEnd), dep(1, 0, When::AfterStart)];
    same(
        &rt,
        &fault_of(rt.alloc(), &started, &notes)?,
        &race(0, 2, 2),
    );
    Ok(())
}
