//! A heap of operations per rank, and a heap of ranks.
ghost use Rattle.std.specs.Prelude.{◌≡◌, ◌+◌, ◌*◌, ◌^◌, ◌<◌, ◌≤◌, ◌↔◌, ℕ, All, IfOk, IfSome, IsNone, Some, None, length, map, replicate, slice_index, slice_set, sum, take};
ghost use Rattle.goal_graph.specs.Schedule.{operations};
ghost use Rattle.sim_queue.specs.Map.{IsEmptyMap, IsLeast, no_keys};
ghost use Rattle.sim_queue.specs.Ranked.{size_of};
ghost use Rattle.sim_queue.specs.Ranks.{home_of, IsTold};
ghost use Rattle.sim_queue.specs.Groups.{heap_at};

use crate::{EventQueue, PlaceInGroup, SlotHeap};
use goal_graph::Sched;
use goal_limits::NoMemory;
use sim_order::{EventOrder, Steps};
use std::alloc::Global;
use std::marker::Model;
use std::sync::ledger::Ledger;

/// A queue whose slots are the operations of a schedule, in their order. The operations of a rank are in their own
/// heap, and the least of each rank is in a heap of ranks. With at most 2^k operations per rank and at most 2^j ranks,
/// a put or a drop needs at most 2k + 2j + 4 comparisons, and reading the least needs none.
#[derive(Drop)]
pub struct RankedQueue<K: EventOrder> {
    // the home of each operation's key
    homes: Vec<PlaceInGroup>,
    // the slot of the first operation of each rank
    starts: Vec<u32>,
    heaps: Vec<SlotHeap<K>>,
    heads: SlotHeap<K>,
}

impl<K: EventOrder> Model for RankedQueue<K> {
    ghost use Rattle.sim_queue.specs.Ranked.{Ranked};
    ghost use Rattle.sim_queue.specs.Ranks.{ranked, IsRanked};

    ghost Value = { Ranked K };

    ghost view = { λ q. ranked q.homes.items q.heaps.items };

    ghost invariant = { λ q. IsRanked K.before q.homes.items q.starts.items q.heaps.items q.heads };
}

// Returns the homes of all operations.
fn homes_of(alloc: Global, sched: &Sched) -> Result<Vec<PlaceInGroup>, NoMemory>
    ensures { IfOk result (λ homes. homes.items ≡ map home_of (operations sched.now)) }
{
    let homes = sched.operations().iter().map(|id| PlaceInGroup {
        group: id.rank,
        place: id.op,
    });
    Ok(homes.collect(alloc)?)
}

// Returns the number of operations of each rank.
fn sizes_of(alloc: Global, sched: &Sched) -> Result<Vec<u32>, NoMemory>
    ensures sizes { IfOk result (λ sizes. sizes.items ≡ map size_of sched.now) }
    ensures ranks { IfOk result (λ sizes. length sizes.items < 2 ^ 32) }
    ensures few { IfOk result (λ sizes. sum sizes.items < 2 ^ 32) }
{
    let ranks = sched.plans().len() as u32;
    let mut sizes = Vec::with_capacity(alloc, ranks as usize)?;
    'ranks: for rank in 0..ranks {
        sizes.push(sched.op_count(rank))?;
    }
    Ok(sizes)
}

// Returns the place of the first operation of each rank, from the numbers of operations of the ranks.
fn starts_of(alloc: Global, sizes: &[u32]) -> Result<Vec<u32>, NoMemory>
    requires { sum sizes.now < 2 ^ 32 }
    ensures each { IfOk result (λ starts. length starts.items ≡ length sizes.now) }
    ensures starts { IfOk result (λ starts. (rank : ℕ) → rank < length sizes.now → slice_index starts.items rank ≡ sum (take rank sizes.now)) }
{
    let mut starts = Vec::with_capacity(alloc, sizes.len())?;
    let mut next = 0;
    'ranks: for size in sizes {
        starts.push(next)?;
        next += *size;
    }
    Ok(starts)
}

// Creates heaps with these numbers of slots, without keys.
fn heaps<K: EventOrder + Copy>(alloc: Global, sizes: &[u32]) -> Result<Vec<SlotHeap<K>>, NoMemory>
    ensures { IfOk result (λ heaps. heaps.items ≡ map no_keys sizes.now) }
{
    let mut heaps = Vec::with_capacity(alloc, sizes.len())?;
    'ranks: for size in sizes {
        heaps.push(SlotHeap::new(alloc, *size)?)?;
    }
    Ok(heaps)
}

// Updates the head of a rank.
fn tell<K: EventOrder + Copy, L: Ledger>(
    heaps: &[SlotHeap<K>],
    heads: &mut SlotHeap<K>,
    rank: u32,
    steps: &mut Steps<L>,
)
    requires exists { rank < length heaps.now }
    requires each { length heads.old ≡ length heaps.now }
    ensures told { IsTold K.before (heap_at heaps.now rank) heads.old heads.new rank }
    ensures counted { (j : ℕ) → length heads.old ≤ 2 ^ j → steps.new ≤ steps.old + (2 * j + 1) }
    ensures onward { steps.old ≤ steps.new }
{
    match heaps[rank as usize].least(steps) {
        Some((_, key)) => heads.put(rank, key, steps),
        None => heads.drop_slot(rank, steps),
    }
}

impl<K: EventOrder + Copy> RankedQueue<K> {
    /// Creates a queue with a slot for each operation of a schedule, without keys. It allocates all its memory here.
    /// `Err` means out of memory.
    pub fn new(alloc: Global, sched: &Sched) -> Result<RankedQueue<K>, NoMemory>
        ensures { IfOk result (λ q. q ≡ record { keys = replicate (length (operations sched.now)) None; sizes = map size_of sched.now }) }
    {
        let homes = homes_of(alloc, sched)?;
        let sizes = sizes_of(alloc, sched)?;
        let starts = starts_of(alloc, &sizes)?;
        let heaps = heaps(alloc, &sizes)?;
        let heads = SlotHeap::new(alloc, sizes.len() as u32)?;
        Ok(RankedQueue {
            homes,
            starts,
            heaps,
            heads,
        })
    }
}

impl<K: EventOrder + Copy> EventQueue<K> for RankedQueue<K> {
    ghost keys = { λ q. q.keys };

    fn put<L: Ledger>(&mut self, slot: u32, key: K, steps: &mut Steps<L>)
        requires { slot < length self.old.keys }
        ensures put { self.new ≡ record self.old { keys = slice_set self.old.keys slot (Some key) } }
        ensures counted { (k j : ℕ) → All (λ size. size ≤ 2 ^ k) self.old.sizes → length self.old.sizes ≤ 2 ^ j → steps.new ≤ steps.old + (2 * k + 2 * j + 4) }
        ensures onward { steps.old ≤ steps.new }
    {
        let home = self.homes[slot as usize];
        self.heaps[home.group as usize].put(home.place, key, steps);
        tell(&self.heaps, &mut self.heads, home.group, steps);
    }

    fn drop_slot<L: Ledger>(&mut self, slot: u32, steps: &mut Steps<L>)
        ensures dropped { self.new ≡ record self.old { keys = slice_set self.old.keys slot None } }
        ensures counted { (k j : ℕ) → All (λ size. size ≤ 2 ^ k) self.old.sizes → length self.old.sizes ≤ 2 ^ j → steps.new ≤ steps.old + (2 * k + 2 * j + 4) }
        ensures onward { steps.old ≤ steps.new }
    {
        if slot as usize >= self.homes.len() {
            return;
        }
        let home = self.homes[slot as usize];
        self.heaps[home.group as usize].drop_slot(home.place, steps);
        tell(&self.heaps, &mut self.heads, home.group, steps);
    }

    fn least<L: Ledger>(&self, steps: &mut Steps<L>) -> Option<(u32, K)>
        ensures none { IsNone result ↔ IsEmptyMap self.now.keys }
        ensures least { IfSome result (λ r. IsLeast K.before self.now.keys r.0 r.1) }
        ensures counted { steps.new ≡ steps.old }
    {
        let (rank, _) = self.heads.least(steps)?;
        let (place, key) = self.heaps[rank as usize].least(steps)?;
        Some((self.starts[rank as usize] + place, key))
    }
}
