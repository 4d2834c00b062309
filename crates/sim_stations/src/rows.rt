//! Which stations wait at which resource.
ghost use Rattle.std.specs.Prelude.{◌≡◌, ◌+◌, ◌*◌, ◌^◌, ◌<◌, ◌≤◌, ◌↔◌, ℕ, All, IfOk, IfSome, IsNone, Some, None, false, not, length, max, replicate, slice_get, slice_index, slice_set};
ghost use Rattle.goal_graph.specs.declared.action.Timed.{Timed};
ghost use Rattle.sim_queue.specs.declared.heap_item.TheConstants.{MAX_SLOTS};
ghost use Rattle.sim_queue.specs.Groups.{IsEmptyGroup};
ghost use Rattle.sim_queue.specs.Map.{key_at, IsEmptyMap};
ghost use Rattle.sim_stations.specs.Stations.{both_free, pair_at, held_by, AreTimesOf, AreKnown, DoExist};
ghost use Rattle.sim_stations.specs.Rows.{sides, place_in, side_of, turned_at, IsFirst, IsTold, AreBothTold};

use crate::known_times::KnownTimes;
use crate::slot_groups::SlotGroups;
use goal_limits::NoMemory;
use sim_order::{CompactKey, Steps};
use sim_queue::{EventQueue, SlotHeap};
use sim_resources::Pair;
use std::alloc::Global;
use std::marker::Model;
use std::sync::ledger::Ledger;

/// The least key of each station, kept with time 0, if the station has any. A station waits at one of its two
/// resources, and its key counts at the time at which that resource is free. So when this time changes, the keys of all
/// stations that wait there are raised together.
#[derive(Drop)]
pub struct Rows {
    // the stations that wait at each resource: station s has the slots 2s, for its cpu, and 2s+1, for its side
    rows: SlotGroups,
    // the least key of each row, at the time at which the resource is free
    heads: SlotHeap<CompactKey>,
    pairs: Vec<Pair>,
    // whether each station waits at its side
    turned: Vec<bool>,
    // for proofs only
    free: KnownTimes,
}

impl Model for Rows {
    ghost use Rattle.sim_stations.specs.Rows.{Rowed, seen, IsInRows, AreHeads};

    ghost Value = { Rowed };

    ghost view = { λ q. record { keys = seen q.turned.items q.rows.keys; pairs = q.pairs.items; turned = q.turned.items; free = q.free.times } };

    ghost invariant = { λ q. IsInRows q.rows q.pairs.items q.turned.items q.free.times × AreHeads q.rows q.heads q.free.times };
}

// Returns the resources of the slots of the rows.
fn sides(alloc: Global, pairs: &[Pair]) -> Result<Vec<u32>, NoMemory>
    requires { 2 * length pairs.now < 2 ^ 32 }
    ensures { IfOk result (λ v. v.items ≡ sides pairs.now) }
{
    let mut numbers = Vec::with_capacity(alloc, 2 * pairs.len())?;
    'stations: for pair in pairs {
        numbers.push(pair.cpu)?;
        numbers.push(pair.side)?;
    }
    Ok(numbers)
}

// Returns the place of a station in the rows.
fn place_in(station: u32, turned: bool) -> u32
    requires { 2 * station + 1 < 2 ^ 32 }
    ensures { result ≡ place_in station turned }
{
    2 * station + u32::from(turned)
}

// Returns the resource at which a station of this pair waits.
fn side_of(pair: Pair, turned: bool) -> u32
    ensures { result ≡ side_of pair turned }
{
    if turned { pair.side } else { pair.cpu }
}

// Updates the head of a resource.
fn tell<L: Ledger>(
    rows: &SlotGroups,
    heads: &mut SlotHeap<CompactKey>,
    free: &[u64],
    resource: u32,
    steps: &mut Steps<L>,
)
    requires exists { resource < length heads.old }
    requires known { resource < length free.now }
    requires at_zero { (slot : ℕ) (k : Timed) → key_at rows.now.keys slot ≡ Some k → k.time ≡ 0 }
    ensures told { IsTold rows.now free.now heads.old heads.new resource }
    ensures counted { (k : ℕ) → length heads.old ≤ 2 ^ k → steps.new ≤ steps.old + (2 * k + 1) }
    ensures onward { steps.old ≤ steps.new }
{
    match rows.least_of(resource, steps) {
        Some(key) => heads.put(resource, key.at(free[resource as usize]), steps),
        None => heads.drop_slot(resource, steps),
    }
}

// Updates the heads of the resources of a pair.
fn tell_both<L: Ledger>(
    rows: &SlotGroups,
    heads: &mut SlotHeap<CompactKey>,
    free: &[u64],
    pair: Pair,
    steps: &mut Steps<L>,
)
    requires cpu { pair.cpu < length heads.old }
    requires side { pair.side < length heads.old }
    requires known_cpu { pair.cpu < length free.now }
    requires known_side { pair.side < length free.now }
    requires at_zero { (slot : ℕ) (k : Timed) → key_at rows.now.keys slot ≡ Some k → k.time ≡ 0 }
    ensures told { AreBothTold rows.now free.now heads.old heads.new pair }
    ensures counted { (k : ℕ) → length heads.old ≤ 2 ^ k → steps.new ≤ steps.old + (4 * k + 2) }
    ensures onward { steps.old ≤ steps.new }
{
    tell(rows, heads, free, pair.cpu, steps);
    if pair.side != pair.cpu {
        tell(rows, heads, free, pair.side, steps);
    }
}

// Updates the head of a resource whose row is unchanged: if nothing waits there, it has none to drop.
#[inline(always)]
fn raise<L: Ledger>(
    rows: &SlotGroups,
    heads: &mut SlotHeap<CompactKey>,
    free: &[u64],
    resource: u32,
    steps: &mut Steps<L>,
)
    requires exists { resource < length heads.old }
    requires known { resource < length free.now }
    requires at_zero { (slot : ℕ) (k : Timed) → key_at rows.now.keys slot ≡ Some k → k.time ≡ 0 }
    requires empty { IsEmptyGroup rows.now resource → key_at heads.old resource ≡ None }
    ensures told { IsTold rows.now free.now heads.old heads.new resource }
    ensures counted { (k : ℕ) → length heads.old ≤ 2 ^ k → steps.new ≤ steps.old + (2 * k + 1) }
    ensures onward { steps.old ≤ steps.new }
{
    if let Some(key) = rows.least_of(resource, steps) {
        heads.put(resource, key.at(free[resource as usize]), steps);
    }
}

// Updates the heads of the resources of a pair whose rows are unchanged.
#[inline(always)]
fn raise_both<L: Ledger>(
    rows: &SlotGroups,
    heads: &mut SlotHeap<CompactKey>,
    free: &[u64],
    pair: Pair,
    steps: &mut Steps<L>,
)
    requires cpu { pair.cpu < length heads.old }
    requires side { pair.side < length heads.old }
    requires known_cpu { pair.cpu < length free.now }
    requires known_side { pair.side < length free.now }
    requires at_zero { (slot : ℕ) (k : Timed) → key_at rows.now.keys slot ≡ Some k → k.time ≡ 0 }
    requires empty_cpu { IsEmptyGroup rows.now pair.cpu → key_at heads.old pair.cpu ≡ None }
    requires empty_side { IsEmptyGroup rows.now pair.side → key_at heads.old pair.side ≡ None }
    ensures told { AreBothTold rows.now free.now heads.old heads.new pair }
    ensures counted { (k : ℕ) → length heads.old ≤ 2 ^ k → steps.new ≤ steps.old + (4 * k + 2) }
    ensures onward { steps.old ≤ steps.new }
{
    raise(rows, heads, free, pair.cpu, steps);
    if pair.side != pair.cpu {
        raise(rows, heads, free, pair.side, steps);
    }
}

// Gives a slot of the rows a key, with time 0, or none.
fn write<L: Ledger>(rows: &mut SlotGroups, slot: u32, key: Option<CompactKey>, steps: &mut Steps<L>)
    requires slot_in { slot < length rows.old.keys }
    requires at_zero { IfSome key (λ k. k.time ≡ 0) }
    ensures written { rows.new ≡ record rows.old { keys = slice_set rows.old.keys slot key } }
    ensures counted { (k : ℕ) → length rows.old.keys ≤ 2 ^ k → steps.new ≤ steps.old + (2 * k + 1) }
    ensures onward { steps.old ≤ steps.new }
{
    match key {
        Some(key) => rows.put(slot, key, steps),
        None => rows.drop_slot(slot, steps),
    }
}

impl Rows {
    /// Creates the stations of these pairs of resources, which are below `resources` and free at 0. None of them has a
    /// key. It allocates all its memory here. `Err` means out of memory.
    pub fn new(alloc: Global, pairs: &[Pair], resources: u32) -> Result<Rows, NoMemory>
        requires exist { DoExist pairs.now resources }
        requires few { 2 * length pairs.now ≤ MAX_SLOTS }
        ensures { IfOk result (λ q. q ≡ record { keys = replicate (length pairs.now) None; pairs = pairs.now; turned = replicate (length pairs.now) false; free = replicate resources 0 }) }
    {
        let numbers = sides(alloc, pairs)?;
        Ok(Rows {
            rows: SlotGroups::new(alloc, &numbers, resources)?,
            heads: SlotHeap::new(alloc, resources)?,
            pairs: Vec::from_slice(alloc, pairs)?,
            turned: vec![in alloc; false; pairs.len()]?,
            free: KnownTimes::new(resources),
        })
    }

    /// Returns when both resources of a station are free, in nanoseconds. `times` says when each of the two is free.
    pub fn free<L: Ledger>(&self, times: &[u64], station: u32, steps: &mut Steps<L>) -> u64
        requires exists { station < length self.now.pairs }
        requires times { AreTimesOf times.now self.now.free (pair_at self.now.pairs station) }
        ensures free { result ≡ both_free self.now.free (pair_at self.now.pairs station) }
        ensures counted { steps.new ≡ steps.old + 1 }
    {
        let pair = self.pairs[station as usize];
        steps.tick();
        times[pair.cpu as usize].max(times[pair.side as usize])
    }

    /// Returns the least key of the stations, or `None` if none has a key. The key of a station is at the time at which
    /// the resource where it waits is free.
    pub fn least<L: Ledger>(&self, steps: &mut Steps<L>) -> Option<CompactKey>
        ensures none { IsNone result ↔ IsEmptyMap self.now.keys }
        ensures least { IfSome result (IsFirst self.now) }
        ensures counted { steps.new ≡ steps.old }
    {
        let (_, key) = self.heads.least(steps)?;
        Some(key)
    }

    /// Gives a station another key, with time 0, or none.
    pub fn tell<L: Ledger>(
        &mut self,
        times: &[u64],
        station: u32,
        key: Option<CompactKey>,
        steps: &mut Steps<L>,
    )
        requires exists { station < length self.old.pairs }
        requires times { AreTimesOf times.now self.old.free (pair_at self.old.pairs station) }
        requires at_zero { IfSome key (λ k. k.time ≡ 0) }
        ensures told { self.new ≡ record self.old { keys = slice_set self.old.keys station key } }
        ensures counted { (k : ℕ) → 2 * length self.old.pairs ≤ 2 ^ k → length self.old.free ≤ 2 ^ k → steps.new ≤ steps.old + (4 * k + 2) }
        ensures onward { steps.old ≤ steps.new }
    {
        let pair = self.pairs[station as usize];
        let turned = self.turned[station as usize];
        write(&mut self.rows, place_in(station, turned), key, steps);
        let resource = side_of(pair, turned);
        tell(&self.rows, &mut self.heads, times, resource, steps);
    }

    /// Switches a station to its other resource. `key` is the key that it has.
    #[inline(never)]
    pub fn turn<L: Ledger>(
        &mut self,
        times: &[u64],
        station: u32,
        key: CompactKey,
        steps: &mut Steps<L>,
    )
        requires exists { station < length self.old.pairs }
        requires times { AreTimesOf times.now self.old.free (pair_at self.old.pairs station) }
        requires has { key_at self.old.keys station ≡ Some key }
        ensures turned { self.new ≡ record self.old { turned = slice_set self.old.turned station (not (turned_at self.old.turned station)) } }
        ensures counted { (k : ℕ) → 2 * length self.old.pairs ≤ 2 ^ k → length self.old.free ≤ 2 ^ k → steps.new ≤ steps.old + (8 * k + 4) }
        ensures onward { steps.old ≤ steps.new }
    {
        let pair = self.pairs[station as usize];
        let turned = self.turned[station as usize];
        self.rows.drop_slot(place_in(station, turned), steps);
        self.rows.put(place_in(station, !turned), key, steps);
        self.turned[station as usize] = !turned;
        tell_both(&self.rows, &mut self.heads, times, pair, steps);
    }

    /// Sets when the resources of a station are free: from now on as `times` says. The keys of stations that wait there
    /// move to these times.
    pub fn hold<L: Ledger>(&mut self, times: &[u64], station: u32, steps: &mut Steps<L>)
        requires exists { station < length self.old.pairs }
        requires known { AreKnown times.now (pair_at self.old.pairs station) }
        ensures held { self.new ≡ record self.old { free = held_by self.old.free (pair_at self.old.pairs station) times.now } }
        ensures counted { (k : ℕ) → length self.old.free ≤ 2 ^ k → steps.new ≤ steps.old + (4 * k + 2) }
        ensures onward { steps.old ≤ steps.new }
    {
        let pair = self.pairs[station as usize];
        self.free = self.free.with(pair, times);
        raise_both(&self.rows, &mut self.heads, times, pair, steps);
    }

    /// Does the same as `hold`, and gives the station another key, with time 0, or none.
    pub fn leave<L: Ledger>(
        &mut self,
        times: &[u64],
        station: u32,
        key: Option<CompactKey>,
        steps: &mut Steps<L>,
    )
        requires exists { station < length self.old.pairs }
        requires known { AreKnown times.now (pair_at self.old.pairs station) }
        requires at_zero { IfSome key (λ k. k.time ≡ 0) }
        ensures held { self.new ≡ record { keys = slice_set self.old.keys station key; pairs = self.old.pairs; turned = self.old.turned; free = held_by self.old.free (pair_at self.old.pairs station) times.now } }
        ensures counted { (k : ℕ) → 2 * length self.old.pairs ≤ 2 ^ k → length self.old.free ≤ 2 ^ k → steps.new ≤ steps.old + (6 * k + 3) }
        ensures onward { steps.old ≤ steps.new }
    {
        let pair = self.pairs[station as usize];
        let turned = self.turned[station as usize];
        write(&mut self.rows, place_in(station, turned), key, steps);
        self.free = self.free.with(pair, times);
        tell_both(&self.rows, &mut self.heads, times, pair, steps);
    }
}
