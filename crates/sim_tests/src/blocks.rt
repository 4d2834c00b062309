//! What the contracts do not say: that the calls succeed. The values are computed by hand.
ghost use Rattle.std.specs.Prelude.{◌≡◌, ◌<◌, ◌≤◌, IfOk};

use crate::plans::{noted_plan, op};
use crate::same::{same, same_list};
use goal_blocks::{Adding, Collective, SlotIter, SlotTable, Slots, Store, initial_size};
use goal_graph::{Kind, Note, Sched};
use std::alloc::Global;
use std::test::Fail;

// Rank 0 sends its slots 1, 2 and 0 to rank 1, which receives them into its slot 0 and then 4 and 5, and adds 4 to 0.
fn two_ranks(alloc: Global) -> Result<Sched, Fail> {
    let send = op(Kind::Send {
        bytes: 8,
        to: 1,
        tag: 0,
    });
    let recv = op(Kind::Recv {
        bytes: 8,
        from: Some(0),
        tag: Some(0),
    });
    let calc = op(Kind::Calc { nanos: 0 });
    let sent = [
        Note::Moves {
            op: 0,
            lo: 1,
            hi: 2,
        },
        Note::Moves {
            op: 0,
            lo: 0,
            hi: 0,
        },
    ];
    let taken = [
        Note::Moves {
            op: 0,
            lo: 0,
            hi: 0,
        },
        Note::Adds {
            op: 1,
            from: 4,
            to: 0,
        },
        Note::Moves {
            op: 0,
            lo: 4,
            hi: 5,
        },
    ];
    let mut plans = Vec::new(alloc);
    plans.push(noted_plan(alloc, [send].as_slice(), sent.as_slice())?)?;
    plans.push(noted_plan(alloc, [recv, calc].as_slice(), taken.as_slice())?)?;
    Ok(Sched::build(alloc, plans).ok().ok_or("it breaks no rule")?)
}

// The slots that are left.
fn listed(alloc: Global, slots: SlotIter) -> Result<Vec<u32>, Fail> {
    let mut slots = slots;
    let mut list = Vec::new(alloc);
    while let Some(slot) = slots.next() {
        list.push(slot)?;
    }
    Ok(list)
}

#[test]
fn slots_and_sums(rt: HostRuntime) -> Result<(), Fail> {
    let sched = two_ranks(rt.alloc())?;
    let table = SlotTable::new(rt.alloc(), &sched).ok().ok_or("memory")?;
    let ids = sched.operations();
    assert_eq!(rt; ids.len(), 3);
    let sent = Slots::of(rt.alloc(), &sched, ids[0]).ok().ok_or("memory")?;
    let read = listed(rt.alloc(), sent.iter())?;
    same_list(&rt, read.as_slice(), [1, 2, 0].as_slice());
    let read = listed(rt.alloc(), SlotIter::new(table.slots_of(ids[0])))?;
    same_list(&rt, read.as_slice(), [1, 2, 0].as_slice());
    let read = listed(rt.alloc(), SlotIter::new(table.slots_of(ids[1])))?;
    same_list(&rt, read.as_slice(), [0, 4, 5].as_slice());
    same(&rt, &table.slots_of(ids[2]).len(), &0);
    same_list(
        &rt,
        table.adds_of(ids[2]),
        [Adding { from: 4, to: 0 }].as_slice(),
    );
    same(&rt, &table.adds_of(ids[1]).len(), &0);
    Ok(())
}

// A store of few contributions.
fn store(alloc: Global, ranks: u32, what: Collective) -> Result<Store, Fail>
    requires some { 1 ≤ ranks }
    requires few { ranks ≤ 65536 }
    ensures { IfOk result (λ s. s.ranks ≡ ranks) }
{
    if initial_size(ranks, what) > 1 << 24 {
        return Err(Fail::from("too many contributions"));
    }
    Ok(Store::new(alloc, ranks, what).ok().ok_or("memory")?)
}

// Adds the value of one slot of rank 0 to that of another.
fn add(store: &mut Store, from: u32, to: u32) -> Result<(), Fail>
    requires some { 0 < store.old.ranks }
    ensures { store.new.ranks ≡ store.old.ranks }
{
    if store.held() > 1 << 24 {
        return Err(Fail::from("too many contributions"));
    }
    store.add(0, from, to).ok().ok_or("memory")?;
    Ok(())
}

#[test]
fn contributions_add_up(rt: HostRuntime) -> Result<(), Fail> {
    let mut values = store(rt.alloc(), 2, Collective::Alltoall)?;
    same(&rt, &values.held(), &4);
    add(&mut values, 1, 0)?;
    same(&rt, &values.size_at(0, 0), &2);
    same(&rt, &values.held(), &5);
    add(&mut values, 0, 0)?;
    same(&rt, &values.size_at(0, 0), &4);
    same(&rt, &values.held(), &7);
    add(&mut values, 7, 0)?;
    same(&rt, &values.held(), &7);
    add(&mut values, 1, u32::MAX)?;
    same(&rt, &values.size_at(0, u32::MAX), &1);
    same(&rt, &values.held(), &8);
    Ok(())
}

#[test]
fn first_wrong_slots(rt: HostRuntime) -> Result<(), Fail> {
    let one = store(rt.alloc(), 1, Collective::Barrier)?;
    same(&rt, &one.first_wrong(Collective::Barrier), &None);
    same(&rt, &one.first_wrong(Collective::Allreduce), &None);
    let two = store(rt.alloc(), 2, Collective::Allgather)?;
    same(&rt, &two.first_wrong(Collective::Allgather), &Some((0, 1)));
    same(&rt, &two.first_wrong(Collective::Scan), &Some((1, 0)));
    same(&rt, &two.first_wrong(Collective::Alltoall), &Some((0, 2)));
    same(
        &rt,
        &two.first_wrong(Collective::Gather { root: 5 }),
        &Some((0, 0)),
    );
    same(
        &rt,
        &two.first_wrong(Collective::Bcast { root: 0 }),
        &Some((1, 0)),
    );
    Ok(())
}

// Rank 1 receives what rank 0 has sent.
fn hand_over(alloc: Global, values: &mut Store, sched: &Sched) -> Result<(), Fail>
    requires { values.old.ranks ≡ 2 }
    ensures { values.new.ranks ≡ 2 }
{
    let ids = sched.operations();
    if ids.len() < 2 {
        return Err(Fail::from("no message"));
    }
    let sent = Slots::of(alloc, sched, ids[0]).ok().ok_or("memory")?;
    let taken = Slots::of(alloc, sched, ids[1]).ok().ok_or("memory")?;
    if sent.len() != taken.len() || sent.len() > 1 << 24 {
        return Err(Fail::from("other slots"));
    }
    if values.held() > 1 << 23 || values.payload_size(0, &sent) > 1 << 23 {
        return Err(Fail::from("too many contributions"));
    }
    let payload = values.read(0, &sent).ok().ok_or("memory")?;
    values.write(1, &taken, payload).ok().ok_or("memory")?;
    Ok(())
}

#[test]
fn payloads_overwrite(rt: HostRuntime) -> Result<(), Fail> {
    let sched = two_ranks(rt.alloc())?;
    let mut values = store(rt.alloc(), 2, Collective::Allreduce)?;
    same(
        &rt,
        &values.first_wrong(Collective::Bcast { root: 0 }),
        &Some((1, 0)),
    );
    hand_over(rt.alloc(), &mut values, &sched)?;
    same(&rt, &values.size_at(1, 0), &0);
    same(&rt, &values.size_at(1, 5), &1);
    same(&rt, &values.held(), &2);
    Ok(())
}
