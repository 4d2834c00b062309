//! Twelve slots are put, and four of them removed. In a `TopHeap`, three are put and one is taken.
ghost use Rattle.std.specs.Prelude.{◌≡◌, ◌<◌, None, length, replicate};
ghost use Rattle.goal_graph.specs.declared.action.Class.TheVariants.{Begin};

use crate::same::same;
use goal_graph::{Class, Kind, Op, OpId, RankPlan, Sched};
use goal_limits::NoMemory;
use sim_order::{CompactKey, Counted, Steps};
use sim_queue::{EventQueue, RankedQueue, SlotHeap, TopHeap, VecQueue, row_28};
use std::alloc::{AllocError, Global};
use std::marker::Brand;
use std::sync::ledger::{Blank, Ledger};
use std::test::Fail;

const KEYS: [u64; 12] = [1, 10, 2, 11, 12, 3, 21, 13, 14, 15, 16, 5];

// The least of a queue of twelve slots, after twelve were put and four removed.
fn least_of<Q: EventQueue<Counted<u64>>, L: Ledger>(
    queue: &mut Q,
    blank: Blank,
) -> Option<(u32, Counted<u64>)>
    requires name { blank.name ≡ L.name }
    requires parts { blank.parts ≡ L.parts }
    requires some { 0 < blank.parts }
    requires slots { length (Q.keys queue.old) ≡ 12 }
{
    let mut steps = Steps::<L>::new(blank);
    'puts: for (slot, key) in KEYS.iter().enumerate() {
        queue.put(slot as u32, Counted(*key), &mut steps);
    }
    for slot in [7, 0, 2, 5] {
        queue.drop_slot(slot, &mut steps);
    }
    queue.least(&mut steps)
}

fn least_alone<Q: EventQueue<Counted<u64>>, L: Ledger>(
    queue: &Q,
    blank: Blank,
) -> Option<(u32, Counted<u64>)>
    requires name { blank.name ≡ L.name }
    requires parts { blank.parts ≡ L.parts }
    requires some { 0 < blank.parts }
{
    let mut steps = Steps::<L>::new(blank);
    queue.least(&mut steps)
}

#[test]
fn the_least_of_a_vec_queue(rt: HostRuntime) -> Result<(), Fail> {
    let mut queue = VecQueue::new(rt.alloc(), 12)?;
    let none = least_alone::<VecQueue<Counted<u64>>, Brand>(&queue, Blank::new(1));
    same(&rt, &none, &None);
    let least = least_of::<VecQueue<Counted<u64>>, Brand>(&mut queue, Blank::new(1));
    same(&rt, &least, &Some((11, Counted(5))));
    Ok(())
}

#[test]
fn the_least_of_a_heap(rt: HostRuntime) -> Result<(), Fail> {
    let mut queue = SlotHeap::new(rt.alloc(), 12)?;
    let none = least_alone::<SlotHeap<Counted<u64>>, Brand>(&queue, Blank::new(1));
    same(&rt, &none, &None);
    let least = least_of::<SlotHeap<Counted<u64>>, Brand>(&mut queue, Blank::new(1));
    same(&rt, &least, &Some((11, Counted(5))));
    Ok(())
}

// The plan of a rank with `count` calcs.
fn calcs(alloc: Global, count: usize) -> Result<RankPlan, AllocError> {
    let calc = Op {
        kind: Kind::Calc { nanos: 1 },
        cpu: 0,
        nic: 0,
    };
    Ok(RankPlan {
        ops: vec![in alloc; calc; count]?,
        deps: Vec::new(alloc),
        notes: Vec::new(alloc),
    })
}

#[test]
fn the_least_of_a_ranked_queue(rt: HostRuntime) -> Result<(), Fail> {
    let alloc = rt.alloc();
    let plans = vec![in alloc; calcs(alloc, 5)?, calcs(alloc, 0)?, calcs(alloc, 7)?]?;
    let sched = Sched::build(alloc, plans)?;
    let mut queue = RankedQueue::new(alloc, &sched)?;
    let none = least_alone::<RankedQueue<Counted<u64>>, Brand>(&queue, Blank::new(1));
    same(&rt, &none, &None);
    assert_eq!(rt; sched.count(), 12);
    let least = least_of::<RankedQueue<Counted<u64>>, Brand>(&mut queue, Blank::new(1));
    same(&rt, &least, &Some((11, Counted(5))));
    Ok(())
}

// The key of a Begin at a time in nanoseconds.
fn begin(time: u64) -> CompactKey
    ensures { result ≡ record { time = time; class = Begin; op = record { rank = 0; op = 0 } } }
{
    CompactKey::new(time, Class::Begin, OpId { rank: 0, op: 0 })
}

// The least of three slots that are put, and that of the two that are left.
fn first_and_second<L: Ledger>(
    heap: &mut TopHeap,
    blank: Blank,
) -> (Option<(u32, CompactKey)>, Option<(u32, CompactKey)>)
    requires name { blank.name ≡ L.name }
    requires parts { blank.parts ≡ L.parts }
    requires some { 0 < blank.parts }
    requires none { heap.old ≡ replicate 3 None }
{
    let mut steps = Steps::<L>::new(blank);
    heap.put(0, begin(4), &mut steps);
    heap.put(1, begin(2), &mut steps);
    heap.put(2, begin(3), &mut steps);
    let first = heap.least();
    heap.take(1, &mut steps);
    (first, heap.least())
}

#[test]
fn the_least_of_a_top_heap(rt: HostRuntime) -> Result<(), Fail> {
    let mut heap = TopHeap::new(rt.alloc(), 3)?;
    same(&rt, &heap.least(), &None);
    let (first, second) = first_and_second::<Brand>(&mut heap, Blank::new(1));
    same(&rt, &first, &Some((1, begin(2))));
    same(&rt, &second, &Some((2, begin(3))));
    Ok(())
}

// The least of a heap that is created with twelve keys.
fn least_of_twelve<L: Ledger>(
    alloc: Global,
    blank: Blank,
) -> Result<Option<(u32, Counted<u64>)>, NoMemory>
    requires name { blank.name ≡ L.name }
    requires parts { blank.parts ≡ L.parts }
    requires some { 0 < blank.parts }
{
    let mut steps = Steps::<L>::new(blank);
    let heap = row_28(alloc, &mut steps)?;
    Ok(heap.least(&mut steps))
}

#[test]
fn the_least_of_twelve_keys(rt: HostRuntime) -> Result<(), Fail> {
    let least = least_of_twelve::<Brand>(rt.alloc(), Blank::new(1))?;
    same(&rt, &least, &Some((0, Counted(1))));
    Ok(())
}
