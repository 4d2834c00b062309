//! Heaps whose slots know their places, in one table.
ghost use Rattle.std.specs.Prelude.{◌≡◌, ◌+◌, ◌*◌, ◌^◌, ◌<◌, ◌≤◌, ℕ, IfOk, IfSome, IsNone, Some, None, length, map, slice_set, sum, take};
ghost use Rattle.sim_order.specs.Events.{event_before};
ghost use Rattle.sim_queue.specs.declared.heap_item.TheConstants.{MAX_SLOTS};
ghost use Rattle.sim_queue.specs.Groups.{heap_at, with_key};
ghost use Rattle.sim_queue.specs.Item.{at_time};
ghost use Rattle.sim_queue.specs.Map.{no_keys, IsEmptyMap, IsLeast};
ghost use Rattle.sim_queue.specs.TopHeap.{placed, IsSlotHeap};

use crate::parts::{Part, no_items, parts};
use goal_limits::NoMemory;
use sim_order::{CompactKey, Steps};
use sim_queue::{AtZero, HeapItem, Noted, PlaceInGroup, place_of, rise, settle};
use std::alloc::Global;
use std::marker::Model;
use std::sync::ledger::Ledger;

/// A heap for each group, whose keys are at time 0. It knows the place of each slot, so that a key can be changed
/// anywhere. Contracts see the maps of the groups.
#[derive(Drop)]
pub struct SlotHeaps {
    parts: Vec<Part>,
    // the items at the places of each part; those of its heap come first
    items: Vec<HeapItem<AtZero>>,
    // in each part, the place of each slot that has a key; that of another slot is any number
    places: Vec<u32>,
}

impl Model for SlotHeaps {
    ghost use Rattle.std.specs.Prelude.{List, Option};
    ghost use Rattle.goal_graph.specs.declared.action.Timed.{Timed};
    ghost use Rattle.sim_order.specs.Events.{event_before};
    ghost use Rattle.sim_stations.specs.Parts.{maps_of_slots, AreSlotHeaps};

    ghost Value = { List (List (Option Timed)) };

    ghost view = { λ h. maps_of_slots h.parts.items h.items.items };

    ghost invariant = { λ h. AreSlotHeaps event_before h.parts.items h.items.items h.places.items };
}

// Writes the item of a slot into the heap in the first `count` places. Returns how many places the heap has then.
#[inline(always)]
fn write<L: Ledger>(
    items: &mut [HeapItem<AtZero>],
    places: &mut [u32],
    count: u32,
    slot: u32,
    item: HeapItem<AtZero>,
    steps: &mut Steps<L>,
) -> u32
    requires heap { IsSlotHeap event_before (take count items.old) places.old (length items.old) }
    requires room { count ≤ length items.old }
    requires slot_in { slot < length places.old }
    requires item { item.slot ≡ slot }
    ensures each { length items.new ≡ length items.old }
    ensures room { result ≤ length items.new }
    ensures heap { IsSlotHeap event_before (take result items.new) places.new (length items.new) }
    ensures put { placed (length places.new) (take result items.new) ≡ slice_set (placed (length places.old) (take count items.old)) slot (Some item.key) }
    ensures counted { (k : ℕ) → length places.old ≤ 2 ^ k → steps.new ≤ steps.old + (2 * k + 1) }
    ensures onward { steps.old ≤ steps.new }
{
    let last = count as usize;
    match place_of(&items[..last], places, slot) {
        Some(place) => {
            let front = &mut items[..last];
            front[place] = item;
            settle::<_, Noted, _>(front, places, place, steps);
            count
        }
        None => {
            let front = &mut items[..last + 1];
            front[last] = item;
            rise::<_, Noted, _>(front, places, last, steps);
            count + 1
        }
    }
}

// Removes the item of a slot, if it has one, from the heap in the first `count` places. Returns how many places the
// heap has then.
#[inline(always)]
fn erase<L: Ledger>(
    items: &mut [HeapItem<AtZero>],
    places: &mut [u32],
    count: u32,
    slot: u32,
    steps: &mut Steps<L>,
) -> u32
    requires heap { IsSlotHeap event_before (take count items.old) places.old (length items.old) }
    requires room { count ≤ length items.old }
    requires slot_in { slot < length places.old }
    ensures each { length items.new ≡ length items.old }
    ensures room { result ≤ length items.new }
    ensures heap { IsSlotHeap event_before (take result items.new) places.new (length items.new) }
    ensures dropped { placed (length places.new) (take result items.new) ≡ slice_set (placed (length places.old) (take count items.old)) slot None }
    ensures counted { (k : ℕ) → length places.old ≤ 2 ^ k → steps.new ≤ steps.old + (2 * k + 1) }
    ensures onward { steps.old ≤ steps.new }
{
    let Some(place) = place_of(&items[..count as usize], places, slot) else {
        return count;
    };
    let left = count - 1;
    if place as u32 == left {
        return left;
    }
    let last = items[left as usize];
    let front = &mut items[..left as usize];
    front[place] = last;
    settle::<_, Noted, _>(front, places, place, steps);
    left
}

impl SlotHeaps {
    /// Creates heaps with as many slots each as `counts` says, without keys. It allocates all its memory here. `Err`
    /// means out of memory.
    pub fn new(alloc: Global, counts: &[u32]) -> Result<SlotHeaps, NoMemory>
        requires { sum counts.now ≤ MAX_SLOTS }
        ensures { IfOk result (λ heaps. heaps ≡ map no_keys counts.now) }
    {
        let (parts, size) = parts(alloc, counts)?;
        let items = no_items(alloc, size as usize)?;
        let places = vec![in alloc; 0; size as usize]?;
        Ok(SlotHeaps {
            parts,
            items,
            places,
        })
    }

    /// Returns the number of heaps.
    pub fn len(&self) -> usize
        ensures { result ≡ length self.now }
    {
        self.parts.len()
    }

    /// Gives a home a key, with time 0, instead of the one that it had, if any.
    pub fn put<L: Ledger>(&mut self, home: PlaceInGroup, key: CompactKey, steps: &mut Steps<L>)
        requires group_in { home.group < length self.old }
        requires place_in { home.place < length (heap_at self.old home.group) }
        ensures put { self.new ≡ with_key self.old home (Some (at_time 0 key)) }
        ensures counted { (k : ℕ) → length (heap_at self.old home.group) ≤ 2 ^ k → steps.new ≤ steps.old + (2 * k + 1) }
        ensures onward { steps.old ≤ steps.new }
    {
        let part = self.parts[home.group as usize];
        let item = HeapItem::new(key, home.place);
        let start = part.start as usize;
        let end = start + part.room as usize;
        let count = write(
            &mut self.items[start..end],
            &mut self.places[start..end],
            part.count,
            home.place,
            item,
            steps,
        );
        self.parts[home.group as usize] = Part { count, ..part };
    }

    /// Removes the key of a home. If it has none, nothing changes.
    pub fn drop_slot<L: Ledger>(&mut self, home: PlaceInGroup, steps: &mut Steps<L>)
        requires group_in { home.group < length self.old }
        requires place_in { home.place < length (heap_at self.old home.group) }
        ensures dropped { self.new ≡ with_key self.old home None }
        ensures counted { (k : ℕ) → length (heap_at self.old home.group) ≤ 2 ^ k → steps.new ≤ steps.old + (2 * k + 1) }
        ensures onward { steps.old ≤ steps.new }
    {
        let part = self.parts[home.group as usize];
        let start = part.start as usize;
        let end = start + part.room as usize;
        let count = erase(
            &mut self.items[start..end],
            &mut self.places[start..end],
            part.count,
            home.place,
            steps,
        );
        self.parts[home.group as usize] = Part { count, ..part };
    }

    /// Returns the least key of a group, or `None` if it has none.
    pub fn least_of(&self, group: u32) -> Option<CompactKey>
        requires { group < length self.now }
        ensures none { IsNone result → IsEmptyMap (heap_at self.now group) }
        ensures least { IfSome result (λ key. (place : ℕ) × IsLeast event_before (heap_at self.now group) place key) }
    {
        let part = self.parts[group as usize];
        if part.count == 0 {
            return None;
        }
        Some(self.items[part.start as usize].key())
    }
}
