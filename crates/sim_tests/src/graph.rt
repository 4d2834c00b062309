//! Plans with one fault each, and the lists that a schedule keeps.
use crate::plans::{CALC, dep, one_rank};
use crate::same::{same, same_list};
use goal_graph::{Need, Note, Op, OpId, PlanFault, Sched, When};
use std::test::Fail;

fn need(op: u32, when: When) -> Need {
    Need { op, when }
}

#[test]
fn tells_the_first_fault(rt: HostRuntime) -> Result<(), Fail> {
    let alloc = rt.alloc();
    let none = Sched::build(alloc, Vec::new(alloc));
    let found = PlanFault::Count {
        found: 0,
        limit: 65_536,
    };
    same(&rt, &none.err(), &Some(found));

    let on_nic = Op { nic: 1, ..CALC };
    let value = one_rank(alloc, &[on_nic], &[], &[]);
    same(
        &rt,
        &value.err(),
        &Some(PlanFault::Value { rank: 0, op: 0 }),
    );

    let absent = one_rank(alloc, &[CALC], &[dep(0, 1, When::AfterEnd)], &[]);
    same(
        &rt,
        &absent.err(),
        &Some(PlanFault::DepRange { rank: 0, dep: 0 }),
    );

    let moves = Note::Moves {
        op: 0,
        lo: 0,
        hi: 0,
    };
    let misfit = one_rank(alloc, &[CALC], &[], &[moves]);
    same(
        &rt,
        &misfit.err(),
        &Some(PlanFault::NoteMisfit { rank: 0, note: 0 }),
    );

    let itself = one_rank(alloc, &[CALC], &[dep(0, 0, When::AfterEnd)], &[]);
    same(
        &rt,
        &itself.err(),
        &Some(PlanFault::Cycle { rank: 0, op: 0 }),
    );
    Ok(())
}

// The first operation without a depth only follows the two that wait for one another.
#[test]
fn tells_the_first_operation_without_a_depth(rt: HostRuntime) -> Result<(), Fail> {
    let both_ways = [dep(0, 1, When::AfterEnd), dep(1, 0, When::AfterStart)];
    let two = one_rank(rt.alloc(), &[CALC, CALC], &both_ways, &[]);
    same(&rt, &two.err(), &Some(PlanFault::Cycle { rank: 0, op: 0 }));

    let behind = [
        dep(1, 2, When::AfterEnd),
        dep(2, 3, When::AfterEnd),
        dep(3, 2, When::AfterEnd),
    ];
    let follows = one_rank(rt.alloc(), &[CALC, CALC, CALC, CALC], &behind, &[]);
    same(
        &rt,
        &follows.err(),
        &Some(PlanFault::Cycle { rank: 0, op: 1 }),
    );
    Ok(())
}

#[test]
fn keeps_the_order_of_dependencies(rt: HostRuntime) -> Result<(), Fail> {
    let deps = [
        dep(2, 0, When::AfterEnd),
        dep(1, 0, When::AfterStart),
        dep(2, 1, When::AfterEnd),
        dep(2, 0, When::AfterEnd),
    ];
    let sched = one_rank(rt.alloc(), &[CALC, CALC, CALC], &deps, &[])
        .ok()
        .ok_or("a fault")?;
    same(&rt, &sched.count(), &3);

    let ids = sched.operations();
    assert!(rt; ids.len() == 3);
    let first = ids[0];
    let last = ids[2];
    same(&rt, &first, &OpId { rank: 0, op: 0 });
    same(&rt, &last, &OpId { rank: 0, op: 2 });
    let needed = [
        need(0, When::AfterEnd),
        need(1, When::AfterEnd),
        need(0, When::AfterEnd),
    ];
    same_list(&rt, sched.needs(last), needed.as_slice());
    let waiting = [
        need(2, When::AfterEnd),
        need(1, When::AfterStart),
        need(2, When::AfterEnd),
    ];
    same_list(&rt, sched.waiting_on(first), waiting.as_slice());
    same(&rt, &sched.index(last), &2);
    same(&rt, &sched.op(last).cpu, &0);
    Ok(())
}
