//! A queue whose slots wait with their stations.
ghost use Rattle.std.specs.Prelude.{◌≡◌, ◌≢◌, ◌⊎◌, ◌+◌, ◌*◌, ◌^◌, ◌<◌, ◌≤◌, ◌↔◌, ℕ, All, IfOk, IfSome, IsNone, IsTrue, List, Some, None, count_by, false, true, is_some, length, max, replicate, slice_get, slice_index, slice_set};
ghost use Rattle.std.specs.Option.{option_map};
ghost use Rattle.goal_limits.specs.declared.limits.TheConstants.{MAX_OPS};
ghost use Rattle.goal_graph.specs.Schedule.{operations};
ghost use Rattle.sim_order.specs.Events.{event_before};
ghost use Rattle.sim_queue.specs.Map.{key_at, IsEmptyMap, IsLeast, IsSoleLeast};
ghost use Rattle.goal_graph.specs.declared.action.Timed.{Timed};
ghost use Rattle.sim_stations.specs.declared.key_place.KeyPlace.TheVariants.{Nowhere};
ghost use Rattle.sim_stations.specs.Stations.{holds_cpu, at_time, both_free, earliest, when_free, pair_at, pair_of, held_by, DoExist, IsLaterBy, AreKnown, AreTimesOf, AreOfSlots, count_ahead, cost_of_waiting, cost_of_moves};
ghost use Rattle.sim_stations.specs.Moves.{HaveReturned, HaveMoved, held_once_more};
ghost use Rattle.sim_stations.specs.Rows.{IsFirst};
ghost use Rattle.sim_stations.specs.Kept.{has_key, is_waiting, seen_of, AreShown, IsKept, IsFound, IsFirstOfAll, IsDeparted, IsBeforeAll, HasOneBefore};

use crate::KeyPlace;
use crate::groups::Groups;
use crate::rows::Rows;
use goal_graph::{Class, Sched};
use goal_limits::NoMemory;
use sim_order::{CompactKey, EventOrder, Steps};
use sim_queue::RunHeap;
use sim_resources::Pair;
use std::alloc::Global;
use std::marker::Model;
use std::sync::ledger::Ledger;

// Returns whether actions of a class hold a cpu, and so wait until it is free.
fn holds_cpu(class: Class) -> bool
    ensures { result ≡ holds_cpu class }
{
    match class {
        Class::Begin | Class::Data | Class::Serve => true,
        Class::Arrive | Class::Post => false,
    }
}

// Returns whether a slot with this place has a key.
fn has_key(stand: KeyPlace) -> bool
    ensures { result ≡ has_key stand }
{
    match stand {
        KeyPlace::Nowhere => false,
        KeyPlace::Ahead | KeyPlace::Waiting => true,
    }
}

// Returns whether a slot with this place waits.
fn is_waiting(stand: KeyPlace) -> bool
    ensures { result ≡ is_waiting stand }
{
    match stand {
        KeyPlace::Waiting => true,
        KeyPlace::Nowhere | KeyPlace::Ahead => false,
    }
}

// Returns the slot of a result.
fn slot_of(least: &Option<(u32, CompactKey)>) -> Option<u32>
    ensures { result ≡ option_map (λ (r : ℕ × Timed). r.0) least.now }
{
    match least {
        Some((slot, _)) => Some(*slot),
        None => None,
    }
}

// Returns the least key of those ahead.
fn first_ahead(ahead: &RunHeap) -> Option<CompactKey>
    ensures none { IsNone result ↔ IsEmptyMap ahead.now }
    ensures least { IfSome result (λ key. (slot : ℕ) × IsLeast event_before ahead.now slot key) }
{
    let (_, key) = ahead.least()?;
    Some(key)
}

// The key that is tried first.
#[derive(Clone, Copy)]
struct Look {
    key: CompactKey,
    // whether it is ahead
    is_ahead: bool,
}

// Returns the key that is tried first: that of a slot that is ahead, or one that a station shows.
fn first<L: Ledger>(ahead: &RunHeap, rows: &Rows, steps: &mut Steps<L>) -> Option<Look>
    ensures none { IsNone result ↔ (IsEmptyMap ahead.now × IsEmptyMap rows.now.keys) }
    ensures first { IfSome result (λ r. IsFirstOfAll ahead.now rows.now r.key r.is_ahead) }
    ensures counted { steps.new ≤ steps.old + 1 }
    ensures onward { steps.old ≤ steps.new }
{
    let Some(key) = first_ahead(ahead) else {
        let key = rows.least(steps)?;
        return Some(Look {
            key,
            is_ahead: false,
        });
    };
    let Some(head) = rows.least(steps) else {
        return Some(Look {
            key,
            is_ahead: true,
        });
    };
    if head.before(&key, steps) {
        Some(Look {
            key: head,
            is_ahead: false,
        })
    } else {
        Some(Look {
            key,
            is_ahead: true,
        })
    }
}

// Returns whether the action of a slot's key can happen only later, since it waits for the resources of its station.
fn is_held_up<L: Ledger>(
    waiting: &Groups,
    rows: &Rows,
    times: &[u64],
    slot: u32,
    key: CompactKey,
    steps: &mut Steps<L>,
) -> bool
    requires slot_in { slot < length waiting.now.groups }
    requires within { slice_index waiting.now.groups slot < length rows.now.pairs }
    requires times { AreTimesOf times.now rows.now.free (pair_at rows.now.pairs (slice_index waiting.now.groups slot)) }
    ensures held_up { result ≡ true → (holds_cpu key.class ≡ true) × (key.time < both_free rows.now.free (pair_at rows.now.pairs (slice_index waiting.now.groups slot))) }
    ensures due { result ≡ false → when_free rows.now.free (pair_at rows.now.pairs (slice_index waiting.now.groups slot)) key ≡ key }
    ensures counted { steps.new ≤ steps.old + 2 }
    ensures onward { steps.old ≤ steps.new }
{
    if !holds_cpu(key.class()) {
        return false;
    }
    let free = rows.free(times, waiting.group(slot), steps);
    steps.tick();
    key.time() < free
}

// Returns whether a slot's new key is to wait with its station: if it could happen only later, if others of the station
// already wait at its time, or if the time is 0.
fn may_wait<L: Ledger>(
    waiting: &Groups,
    rows: &Rows,
    times: &[u64],
    slot: u32,
    key: CompactKey,
    steps: &mut Steps<L>,
) -> bool
    requires slot_in { slot < length waiting.now.groups }
    requires within { slice_index waiting.now.groups slot < length rows.now.pairs }
    requires times { AreTimesOf times.now rows.now.free (pair_at rows.now.pairs (slice_index waiting.now.groups slot)) }
    ensures waits { result ≡ true → holds_cpu key.class ≡ true }
    ensures late { result ≡ true → key.time ≤ both_free rows.now.free (pair_at rows.now.pairs (slice_index waiting.now.groups slot)) }
    ensures counted { steps.new ≤ steps.old + 3 }
    ensures onward { steps.old ≤ steps.new }
{
    if !holds_cpu(key.class()) {
        return false;
    }
    let station = waiting.group(slot);
    let free = rows.free(times, station, steps);
    steps.tick();
    if key.time() < free {
        return true;
    }
    steps.tick();
    key.time() == free && (free == 0 || waiting.least_of(station).is_some())
}

// Returns whether a key is before every key that waits with a station.
fn is_first<L: Ledger>(
    waiting: &Groups,
    station: u32,
    key: CompactKey,
    steps: &mut Steps<L>,
) -> bool
    ensures first { result ≡ true → IsBeforeAll waiting.now station key }
    ensures not_first { result ≡ false → HasOneBefore waiting.now station key }
    ensures counted { steps.new ≤ steps.old + 1 }
    ensures onward { steps.old ≤ steps.new }
{
    match waiting.least_of(station) {
        Some(least) => key.before(&least, steps),
        None => true,
    }
}

// Lets a slot that has no key wait with its station.
fn join<L: Ledger>(
    waiting: &mut Groups,
    rows: &mut Rows,
    times: &[u64],
    slot: u32,
    key: CompactKey,
    steps: &mut Steps<L>,
)
    requires slot_in { slot < length waiting.old.keys }
    requires grouped { length waiting.old.groups ≡ length waiting.old.keys }
    requires within { (station : ℕ) → slice_get waiting.old.groups slot ≡ Some station → station < length rows.old.pairs }
    requires free { key_at waiting.old.keys slot ≡ None }
    requires shown { AreShown waiting.old rows.old.keys (length rows.old.pairs) }
    requires keyed { length rows.old.keys ≡ length rows.old.pairs }
    requires times { AreTimesOf times.now rows.old.free (pair_at rows.old.pairs (slice_index waiting.old.groups slot)) }
    ensures put { waiting.new ≡ record waiting.old { keys = slice_set waiting.old.keys slot (Some (at_time 0 key)) } }
    ensures shown { AreShown waiting.new rows.new.keys (length rows.new.pairs) }
    ensures keyed { length rows.new.keys ≡ length rows.new.pairs }
    ensures pairs { rows.new.pairs ≡ rows.old.pairs }
    ensures turned { rows.new.turned ≡ rows.old.turned }
    ensures free { rows.new.free ≡ rows.old.free }
    ensures counted { (k : ℕ) → length waiting.old.keys ≤ 2 ^ k → length rows.old.pairs ≤ 2 ^ k → length rows.old.free ≤ 2 ^ (k + 1)
        → steps.new ≤ steps.old + (6 * k + 8) }
    ensures onward { steps.old ≤ steps.new }
{
    let station = waiting.group(slot);
    let key = key.at(0);
    if is_first(waiting, station, key, steps) {
        waiting.put(slot, key, steps);
        rows.tell(times, station, Some(key), steps);
    } else {
        waiting.put(slot, key, steps);
    }
}

// Lets a slot wait with its station. Its key must be before every other that is ahead, and its time not after the time
// at which both resources are free. It is not inlined: the loop that calls it usually ends at the first key tried, and
// is cheaper to enter without it.
#[inline(never)]
fn begin_to_wait<L: Ledger>(
    ahead: &mut RunHeap,
    waiting: &mut Groups,
    rows: &mut Rows,
    times: &[u64],
    stands: &mut [KeyPlace],
    slot: u32,
    key: CompactKey,
    steps: &mut Steps<L>,
)
    requires kept { IsKept ahead.old waiting.old rows.old stands.old }
    requires sole { IsSoleLeast event_before ahead.old slot }
    requires key { key_at ahead.old slot ≡ Some key }
    requires waits { holds_cpu key.class ≡ true }
    requires late { (station : ℕ) → slice_get waiting.old.groups slot ≡ Some station → key.time ≤ both_free rows.old.free (pair_at rows.old.pairs station) }
    requires times { AreTimesOf times.now rows.old.free (pair_at rows.old.pairs (slice_index waiting.old.groups slot)) }
    ensures kept { IsKept ahead.new waiting.new rows.new stands.new }
    ensures seen { seen_of ahead.new waiting.new rows.new ≡ seen_of ahead.old waiting.old rows.old }
    ensures groups { waiting.new.groups ≡ waiting.old.groups }
    ensures pairs { rows.new.pairs ≡ rows.old.pairs }
    ensures turned { rows.new.turned ≡ rows.old.turned }
    ensures free { rows.new.free ≡ rows.old.free }
    ensures fewer { count_ahead stands.new + 1 ≡ count_ahead stands.old }
    ensures counted { (k : ℕ) → length waiting.old.keys ≤ 2 ^ k → steps.new ≤ steps.old + (8 * k + 9) }
    ensures onward { steps.old ≤ steps.new }
{
    ahead.take(slot, steps);
    join(waiting, rows, times, slot, key, steps);
    stands[slot as usize] = KeyPlace::Waiting;
}

// Lets slots wait and stations switch until the key that is tried first is at the earliest time of its action. That is
// the least key, and is returned with its slot.
fn settle<L: Ledger, R: Ledger>(
    ahead: &mut RunHeap,
    waiting: &mut Groups,
    rows: &mut Rows,
    times: &[u64],
    stands: &mut [KeyPlace],
    sched: &Sched,
    steps: &mut Steps<L>,
    moves: &mut Steps<R>,
) -> Option<(u32, CompactKey)>
    requires kept { IsKept ahead.old waiting.old rows.old stands.old }
    requires of_slots { AreOfSlots (operations sched.now) (seen_of ahead.old waiting.old rows.old) }
    requires times { (slot : ℕ) → slot < length waiting.old.keys → AreTimesOf times.now rows.old.free (pair_at rows.old.pairs (slice_index waiting.old.groups slot)) }
    ensures kept { IsKept ahead.new waiting.new rows.new stands.new }
    ensures seen { seen_of ahead.new waiting.new rows.new ≡ seen_of ahead.old waiting.old rows.old }
    ensures groups { waiting.new.groups ≡ waiting.old.groups }
    ensures pairs { rows.new.pairs ≡ rows.old.pairs }
    ensures free { rows.new.free ≡ rows.old.free }
    ensures none { IsNone result ↔ IsEmptyMap (seen_of ahead.old waiting.old rows.old) }
    ensures least { IfSome result (λ r. IsLeast event_before (seen_of ahead.old waiting.old rows.old) r.0 r.1) }
    ensures found { IfSome result (λ r. IsFound ahead.new waiting.new (Some r.0)) }
    ensures counted { (k : ℕ) → length waiting.old.keys ≤ 2 ^ k
        → steps.new + cost_of_waiting k stands.new + cost_of_moves k moves.old ≤ steps.old + cost_of_waiting k stands.old + cost_of_moves k moves.new + 3 }
    ensures moved { (holds returns : List ℕ) → HaveReturned rows.old.pairs rows.old.turned rows.old.free holds returns
        → HaveMoved rows.old.pairs rows.old.free holds rows.old.turned rows.new.turned returns moves.old moves.new }
{
    'looks: while let Some(look) = first(ahead, rows, steps) {
        let Look { key, is_ahead } = look;
        let slot = sched.index(key.id());
        if !is_held_up(waiting, rows, times, slot, key, steps) {
            return Some((slot, key));
        }
        if is_ahead {
            begin_to_wait(ahead, waiting, rows, times, stands, slot, key, steps);
        } else {
            let station = waiting.group(slot);
            rows.turn(times, station, key.at(0), steps);
            moves.tick();
        }
    }
    None
}

// Removes the key of the slot that was found, and sets the times from which the resources of its station are free.
fn depart<L: Ledger>(
    ahead: &mut RunHeap,
    waiting: &mut Groups,
    rows: &mut Rows,
    times: &[u64],
    stands: &[KeyPlace],
    slot: u32,
    steps: &mut Steps<L>,
)
    requires kept { IsKept ahead.old waiting.old rows.old stands.now }
    requires found { IsFound ahead.old waiting.old (Some slot) }
    requires slot_in { slot < length waiting.old.keys }
    requires known { AreKnown times.now (pair_at rows.old.pairs (slice_index waiting.old.groups slot)) }
    requires later { IsLaterBy rows.old.free (pair_at rows.old.pairs (slice_index waiting.old.groups slot)) times.now }
    ensures departed { IsDeparted ahead.old waiting.old rows.old stands.now slot (slice_index times.now (pair_at rows.old.pairs (slice_index waiting.old.groups slot)).cpu) (slice_index times.now (pair_at rows.old.pairs (slice_index waiting.old.groups slot)).side) ahead.new waiting.new rows.new }
    ensures counted { (k : ℕ) → length waiting.old.keys ≤ 2 ^ k → steps.new ≤ steps.old + (8 * k + 10) }
    ensures onward { steps.old ≤ steps.new }
{
    let station = waiting.group(slot);
    if is_waiting(stands[slot as usize]) {
        waiting.take(slot, steps);
        let least = waiting.least_of(station);
        rows.leave(times, station, least, steps);
    } else {
        ahead.take(slot, steps);
        rows.hold(times, station, steps);
    }
}

/// A map from slots to the keys of events, whose slots are in stations. Each station needs two resources, whose free
/// times each call borrows. The key of an action that waits for them is at the earliest time at which it can happen, so
/// not before both are free. If these become free later, the keys of all that wait for them are raised together: a
/// change of free times compares a few keys of heaps, however many slots wait.
///
/// A waiting slot waits with its station, and a station waits at that of its two resources which is free later, as far
/// as is known (`turned`). It switches only when its key becomes the head. So nothing moves when the other resource of
/// a waiting station is held.
#[derive(Drop)]
pub struct StationQueue {
    // keys at their own times
    ahead: RunHeap,
    // keys that wait, with time 0
    waiting: Groups,
    // the least key of each station, where it waits
    rows: Rows,
    // the place of each slot's key
    stands: Vec<KeyPlace>,
    // the slot of the least key, if known
    found: Option<u32>,
}

impl Model for StationQueue {
    ghost use Rattle.sim_stations.specs.Stations.{Stationed};
    ghost use Rattle.sim_stations.specs.Kept.{seen_of, IsKept, IsFound};

    ghost Value = { Stationed };

    ghost view = { λ q. record { keys = seen_of q.ahead q.waiting q.rows; stations = q.waiting.groups; stands = q.stands.items; pairs = q.rows.pairs; turned = q.rows.turned; free = q.rows.free; found = q.found } };

    ghost invariant = { λ q. IsKept q.ahead q.waiting q.rows q.stands.items × IsFound q.ahead q.waiting q.found };
}

impl StationQueue {
    /// Creates a queue without keys. `numbers` has the station of each slot, and `pairs` the resources of each station,
    /// which are below `resources`. All resources are free at 0. It allocates all its memory here. `Err` means out of
    /// memory.
    pub fn new(
        alloc: Global,
        numbers: &[u32],
        pairs: &[Pair],
        resources: u32,
    ) -> Result<StationQueue, NoMemory>
        requires few { length numbers.now ≤ MAX_OPS }
        requires few_stations { length pairs.now ≤ length numbers.now }
        requires few_resources { resources ≤ 2 * length numbers.now }
        requires within { All (λ station. station < length pairs.now) numbers.now }
        requires exist { DoExist pairs.now resources }
        ensures queue { IfOk result (λ q. q ≡ record { keys = replicate (length numbers.now) None; stations = numbers.now; stands = replicate (length numbers.now) Nowhere; pairs = pairs.now; turned = replicate (length pairs.now) false; free = replicate resources 0; found = None }) }
        ensures returned { IfOk result (λ q. HaveReturned q.pairs q.turned q.free (replicate resources 0) (replicate (length pairs.now) 0)) }
    {
        Ok(StationQueue {
            ahead: RunHeap::new(alloc, numbers.len() as u32)?,
            waiting: Groups::new(alloc, numbers, pairs.len() as u32)?,
            rows: Rows::new(alloc, pairs, resources)?,
            stands: vec![in alloc; KeyPlace::Nowhere; numbers.len()]?,
            found: None,
        })
    }

    /// A property of every queue, for proofs: at most as many slots are ahead as have a key. The call does nothing.
    pub fn known(&self)
        ensures { count_ahead self.now.stands ≤ count_by is_some self.now.keys }
    {
        let _found = &self.found;
    }

    /// Returns whether a slot has a key.
    pub fn has(&self, slot: u32) -> bool
        requires { slot < length self.now.keys }
        ensures { result ≡ is_some (key_at self.now.keys slot) }
    {
        has_key(self.stands[slot as usize])
    }

    /// Returns whether no slot has a key.
    pub fn is_empty<L: Ledger>(&self, steps: &mut Steps<L>) -> bool
        ensures empty { IsTrue result ↔ IsEmptyMap self.now.keys }
        ensures counted { steps.new ≤ steps.old + 1 }
    {
        first(&self.ahead, &self.rows, steps).is_none()
    }

    /// Gives a slot that has no key one, at the earliest time at which its action can happen. `times` says when the
    /// resources of the slot are free.
    pub fn put<L: Ledger>(
        &mut self,
        times: &[u64],
        slot: u32,
        key: CompactKey,
        steps: &mut Steps<L>,
    )
        requires times { AreTimesOf times.now self.old.free (pair_of self.old slot) }
        requires slot_in { slot < length self.old.keys }
        requires free { key_at self.old.keys slot ≡ None }
        ensures put { self.new.keys ≡ slice_set self.old.keys slot (Some (when_free self.old.free (pair_of self.old slot) key)) }
        ensures stations { self.new.stations ≡ self.old.stations }
        ensures pairs { self.new.pairs ≡ self.old.pairs }
        ensures turned { self.new.turned ≡ self.old.turned }
        ensures free { self.new.free ≡ self.old.free }
        ensures counted { (k : ℕ) → length self.old.keys ≤ 2 ^ k → steps.new + cost_of_waiting k self.new.stands ≤ steps.old + cost_of_waiting k self.old.stands + (10 * k + 16) }
    {
        self.found = None;
        if may_wait(&self.waiting, &self.rows, times, slot, key, steps) {
            join(&mut self.waiting, &mut self.rows, times, slot, key, steps);
            self.stands[slot as usize] = KeyPlace::Waiting;
        } else {
            self.ahead.put(slot, key, steps);
            self.stands[slot as usize] = KeyPlace::Ahead;
        }
    }

    /// Returns the least key with its slot, or `None` if no slot has a key. No key of the map is before it, and none is
    /// changed. On the way slots may begin to wait, and stations may switch to their other resource, which `moves`
    /// counts. `times` says when the resources of all slots are free.
    ///
    /// - `counted`: its comparisons are at most the cost of the slots that begin to wait and of the stations that
    ///   switch.
    /// - `moved`: the number of switches is bounded by how often the resources were held.
    pub fn least<L: Ledger, R: Ledger>(
        &mut self,
        times: &[u64],
        sched: &Sched,
        steps: &mut Steps<L>,
        moves: &mut Steps<R>,
    ) -> Option<(u32, CompactKey)>
        requires times { (slot : ℕ) → slot < length self.old.keys → AreTimesOf times.now self.old.free (pair_of self.old slot) }
        requires of_slots { AreOfSlots (operations sched.now) self.old.keys }
        ensures none { IsNone result ↔ IsEmptyMap self.old.keys }
        ensures least { IfSome result (λ r. IsLeast event_before self.old.keys r.0 r.1) }
        ensures found { IfSome result (λ r. self.new.found ≡ Some r.0) }
        ensures keys { self.new.keys ≡ self.old.keys }
        ensures stations { self.new.stations ≡ self.old.stations }
        ensures pairs { self.new.pairs ≡ self.old.pairs }
        ensures free { self.new.free ≡ self.old.free }
        ensures counted { (k : ℕ) → length self.old.keys ≤ 2 ^ k
            → steps.new + cost_of_waiting k self.new.stands + cost_of_moves k moves.old ≤ steps.old + cost_of_waiting k self.old.stands + cost_of_moves k moves.new + 3 }
        ensures moved { (holds returns : List ℕ) → HaveReturned self.old.pairs self.old.turned self.old.free holds returns → HaveMoved self.old.pairs self.old.free holds self.old.turned self.new.turned returns moves.old moves.new }
    {
        let least = settle(
            &mut self.ahead,
            &mut self.waiting,
            &mut self.rows,
            times,
            &mut self.stands,
            sched,
            steps,
            moves,
        );
        self.found = slot_of(&least);
        least
    }

    /// Removes the key of a slot. This key must be the one that `least` found, with the queue unchanged since. Its
    /// action must not hold a cpu.
    pub fn take<L: Ledger>(&mut self, slot: u32, steps: &mut Steps<L>)
        requires found { self.old.found ≡ Some slot }
        requires at_once { IfSome (key_at self.old.keys slot) (λ k. holds_cpu k.class ≡ false) }
        ensures keys { self.new.keys ≡ slice_set self.old.keys slot None }
        ensures stations { self.new.stations ≡ self.old.stations }
        ensures pairs { self.new.pairs ≡ self.old.pairs }
        ensures turned { self.new.turned ≡ self.old.turned }
        ensures free { self.new.free ≡ self.old.free }
        ensures counted { (k : ℕ) → length self.old.keys ≤ 2 ^ k → steps.new + cost_of_waiting k self.new.stands ≤ steps.old + cost_of_waiting k self.old.stands + (2 * k + 1) }
    {
        self.found = None;
        self.ahead.take(slot, steps);
        self.stands[slot as usize] = KeyPlace::Nowhere;
    }

    /// Removes the key of a slot, whose action holds the resources of the slot. This key must be the one that `least`
    /// found, with the queue unchanged since. `times` says when the resources are free from now on, which is not
    /// earlier than before. Keys that wait for them are raised.
    pub fn act<L: Ledger>(&mut self, times: &[u64], slot: u32, steps: &mut Steps<L>)
        requires known { AreKnown times.now (pair_of self.old slot) }
        requires found { self.old.found ≡ Some slot }
        requires later { IsLaterBy self.old.free (pair_of self.old slot) times.now }
        ensures each { length self.new.keys ≡ length self.old.keys }
        ensures gone { key_at self.new.keys slot ≡ None }
        ensures raised { (other : ℕ) → other ≢ slot → key_at self.new.keys other ≡ option_map (when_free self.new.free (pair_of self.old other)) (key_at self.old.keys other) }
        ensures stations { self.new.stations ≡ self.old.stations }
        ensures pairs { self.new.pairs ≡ self.old.pairs }
        ensures turned { self.new.turned ≡ self.old.turned }
        ensures free { self.new.free ≡ held_by self.old.free (pair_of self.old slot) times.now }
        ensures counted { (k : ℕ) → length self.old.keys ≤ 2 ^ k → steps.new + cost_of_waiting k self.new.stands ≤ steps.old + cost_of_waiting k self.old.stands + (8 * k + 10) }
        ensures returned { (holds returns : List ℕ) → HaveReturned self.old.pairs self.old.turned self.old.free holds returns → HaveReturned self.new.pairs self.new.turned self.new.free (held_once_more holds (pair_of self.old slot)) returns }
    {
        self.found = None;
        depart(
            &mut self.ahead,
            &mut self.waiting,
            &mut self.rows,
            times,
            &self.stands,
            slot,
            steps,
        );
        self.stands[slot as usize] = KeyPlace::Nowhere;
    }
}
