//! Small schedules of two ranks, each with its first fault.
ghost use Rattle.std.specs.Prelude.{◌<◌};

use crate::plans::{CALC, noted_plan, one_rank};
use crate::same::same;
use goal_blocks::{CertFault, Collective};
use goal_certify::{AtOnceFault, SegmentFault, certify, certify_at_once, certify_segments};
use goal_graph::{Kind, Note, Op, OpId, PlanFault, RankPlan, Sched};
use std::alloc::Global;
use std::test::Fail;

mod races;

fn send(bytes: u64, to: u32, tag: u32) -> Op {
    Op {
        kind: Kind::Send { bytes, to, tag },
        cpu: 0,
        nic: 0,
    }
}

fn receive(from: Option<u32>, tag: Option<u32>) -> Op {
    Op {
        kind: Kind::Recv {
            bytes: 8,
            from,
            tag,
        },
        cpu: 0,
        nic: 0,
    }
}

fn moves(lo: u32, hi: u32) -> Note {
    Note::Moves { op: 0, lo, hi }
}

fn at(rank: u32, op: u32) -> OpId {
    OpId { rank, op }
}

fn two(alloc: Global, first: RankPlan, second: RankPlan) -> Result<Sched, PlanFault> {
    let mut plans = Vec::new(alloc);
    plans.push(first)?;
    plans.push(second)?;
    Sched::build(alloc, plans)
}

// The first fault of a schedule of two ranks, as a scatter from rank 0.
fn fault(alloc: Global, first: RankPlan, second: RankPlan) -> Result<Option<CertFault>, PlanFault> {
    let sched = two(alloc, first, second)?;
    Ok(certify(alloc, &sched, Collective::Scatter { root: 0 }).err())
}

// The first fault of a message of `bytes` bytes and `sent` slots, with a receive of `received` slots.
fn message(
    alloc: Global,
    bytes: u64,
    sent: u32,
    received: u32,
) -> Result<Option<CertFault>, PlanFault> {
    let first = noted_plan(alloc, &[send(bytes, 1, 7)], &[moves(1, sent)])?;
    let second = noted_plan(alloc, &[receive(Some(0), Some(7))], &[moves(1, received)])?;
    fault(alloc, first, second)
}

#[test]
fn tells_the_least_rank_that_is_too_large(rt: HostRuntime) -> Result<(), Fail> {
    let fits = message(rt.alloc(), 8, 65_535, 65_535)?;
    same(&rt, &fits, &None);
    let high = message(rt.alloc(), 8, 65_535, 65_536)?;
    same(&rt, &high, &Some(CertFault::TooLarge { rank: 1 }));
    Ok(())
}

#[test]
fn tells_the_first_wildcard_before_other_faults(rt: HostRuntime) -> Result<(), Fail> {
    let sends = noted_plan(rt.alloc(), &[send(8, 1, 0), send(8, 1, 0)], &[])?;
    let receives = [receive(Some(0), Some(0)), receive(Some(0), None)];
    let found = fault(rt.alloc(), sends, noted_plan(rt.alloc(), &receives, &[])?)?;
    same(&rt, &found, &Some(CertFault::Wildcard { op: at(1, 1) }));
    Ok(())
}

#[test]
fn tells_the_least_second_of_a_channel_and_its_first(rt: HostRuntime) -> Result<(), Fail> {
    let sends = [send(8, 1, 1), send(8, 1, 0), send(8, 1, 0), send(8, 1, 1)];
    let sends = noted_plan(rt.alloc(), &sends, &[])?;
    let found = fault(rt.alloc(), sends, noted_plan(rt.alloc(), &[], &[])?)?;
    let first = at(0, 1);
    let second = at(0, 2);
    same(
        &rt,
        &found,
        &Some(CertFault::DoubleChannel { first, second }),
    );
    Ok(())
}

#[test]
fn tells_the_least_unpaired_operation(rt: HostRuntime) -> Result<(), Fail> {
    let sends = noted_plan(rt.alloc(), &[send(8, 1, 0), send(8, 1, 2)], &[])?;
    let receives = [receive(Some(0), Some(1)), receive(Some(0), Some(0))];
    let found = fault(rt.alloc(), sends, noted_plan(rt.alloc(), &receives, &[])?)?;
    same(&rt, &found, &Some(CertFault::Unpaired { op: at(0, 1) }));
    Ok(())
}

// The numbers of slots must be equal, whatever the bytes.
#[test]
fn tells_lengths_that_differ(rt: HostRuntime) -> Result<(), Fail> {
    let alike = message(rt.alloc(), 100, 3, 3)?;
    same(&rt, &alike, &None);
    let longer = message(rt.alloc(), 8, 3, 4)?;
    let send = at(0, 0);
    let recv = at(1, 0);
    same(&rt, &longer, &Some(CertFault::Lengths { send, recv }));
    Ok(())
}

// The fault of a message of slot 0 from rank 0 to rank 1, as this collective.
fn verdict(alloc: Global, what: Collective) -> Result<Option<CertFault>, PlanFault> {
    let sends = noted_plan(alloc, &[send(8, 1, 7)], &[moves(0, 0)])?;
    let receives = noted_plan(alloc, &[receive(Some(0), Some(7))], &[moves(0, 0)])?;
    let sched = two(alloc, sends, receives)?;
    Ok(certify(alloc, &sched, what).err())
}

// With rank 1 as the root, rank 0 does not get its value.
#[test]
fn certifies_a_broadcast_of_two_from_its_root_alone(rt: HostRuntime) -> Result<(), Fail> {
    let from_first = verdict(rt.alloc(), Collective::Bcast { root: 0 })?;
    same(&rt, &from_first, &None);
    let from_second = verdict(rt.alloc(), Collective::Bcast { root: 1 })?;
    same(
        &rt,
        &from_second,
        &Some(CertFault::Wrong { rank: 0, slot: 0 }),
    );
    Ok(())
}

// Rank 0 sends each of its slots from `lo` to `hi` alone, and rank 1 receives them into the slots from `into` on.
fn slot_by_slot(alloc: Global, lo: u32, hi: u32, into: u32) -> Result<Sched, PlanFault>
    requires within { hi < 100 }
    requires low { into < 100 }
{
    let mut first = noted_plan(alloc, &[], &[])?;
    let mut second = noted_plan(alloc, &[], &[])?;
    for slot in lo..hi + 1 {
        let op = slot - lo;
        let there = into + op;
        first.ops.push(send(8, 1, slot))?;
        first.notes.push(Note::Moves {
            op,
            lo: slot,
            hi: slot,
        })?;
        second.ops.push(receive(Some(0), Some(slot)))?;
        second.notes.push(Note::Moves {
            op,
            lo: there,
            hi: there,
        })?;
    }
    two(alloc, first, second)
}

// Four segments of a broadcast, and a fifth that is missing.
#[test]
fn certifies_segments_of_a_broadcast(rt: HostRuntime) -> Result<(), Fail> {
    let what = Collective::Bcast { root: 0 };
    let whole = slot_by_slot(rt.alloc(), 0, 3, 0)?;
    same(
        &rt,
        &certify_segments(rt.alloc(), &whole, what, 1, 4),
        &Ok(()),
    );
    same(
        &rt,
        &certify_segments(rt.alloc(), &whole, what, 1, 0),
        &Ok(()),
    );
    let fault = CertFault::Wrong { rank: 1, slot: 4 };
    let short = certify_segments(rt.alloc(), &whole, what, 1, 5);
    same(&rt, &short, &Err(SegmentFault { block: 4, fault }));
    Ok(())
}

// Four segments, each of which is received into the slot after its own.
#[test]
fn tells_segments_that_are_one_too_late(rt: HostRuntime) -> Result<(), Fail> {
    let late = slot_by_slot(rt.alloc(), 0, 3, 1)?;
    let found = certify_segments(rt.alloc(), &late, Collective::Bcast { root: 0 }, 1, 4);
    let fault = CertFault::Wrong { rank: 1, slot: 0 };
    same(&rt, &found, &Err(SegmentFault { block: 0, fault }));
    Ok(())
}

// Two segments of two slots each: rank 0 has the slots 0 and 1 of a scatter, and sends the second to rank 1.
#[test]
fn certifies_blocks_of_slots(rt: HostRuntime) -> Result<(), Fail> {
    let what = Collective::Scatter { root: 0 };
    let sends = [send(8, 1, 0), send(8, 1, 1)];
    let receives = [receive(Some(0), Some(0)), receive(Some(0), Some(1))];
    let notes = [
        moves(1, 1),
        Note::Moves {
            op: 1,
            lo: 3,
            hi: 3,
        },
    ];
    let first = noted_plan(rt.alloc(), &sends, &notes)?;
    let second = noted_plan(rt.alloc(), &receives, &notes)?;
    let sched = two(rt.alloc(), first, second)?;
    same(
        &rt,
        &certify_segments(rt.alloc(), &sched, what, 2, 2),
        &Ok(()),
    );
    let other = certify_segments(rt.alloc(), &sched, what, 3, 2);
    let fault = CertFault::Wrong { rank: 1, slot: 4 };
    same(&rt, &other, &Err(SegmentFault { block: 1, fault }));
    Ok(())
}

// Four segments of a broadcast that keep apart; a block without slots holds none.
#[test]
fn certifies_segments_at_once(rt: HostRuntime) -> Result<(), Fail> {
    let what = Collective::Bcast { root: 0 };
    let whole = slot_by_slot(rt.alloc(), 0, 3, 0)?;
    same(
        &rt,
        &certify_at_once(rt.alloc(), &whole, what, 1, 4),
        &Ok(()),
    );
    same(
        &rt,
        &certify_at_once(rt.alloc(), &whole, what, 0, 4),
        &Err(AtOnceFault::Narrow),
    );
    Ok(())
}

// One rank adds slot 0 to slot 1: each segment of an allreduce is certified by itself, and both are not at once.
#[test]
fn tells_what_one_segment_adds_to_another(rt: HostRuntime) -> Result<(), Fail> {
    let what = Collective::Allreduce;
    let adds = Note::Adds {
        op: 0,
        from: 0,
        to: 1,
    };
    let mixed = one_rank(rt.alloc(), &[CALC], &[], &[adds])?;
    same(
        &rt,
        &certify_segments(rt.alloc(), &mixed, what, 1, 2),
        &Ok(()),
    );
    let from = 0;
    let found = certify_at_once(rt.alloc(), &mixed, what, 1, 2);
    same(
        &rt,
        &found,
        &Err(AtOnceFault::Stray {
            from,
            rank: 0,
            slot: 1,
        }),
    );
    Ok(())
}
