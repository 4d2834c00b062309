//! Heaps whose keys are removed only from the top, in one table.
ghost use Rattle.std.specs.Prelude.{◌≡◌, ◌+◌, ◌*◌, ◌^◌, ◌<◌, ◌≤◌, ℕ, IfOk, IfSome, IsNone, Some, None, count_by, is_some, length, replicate, slice_index, slice_set, sum};
ghost use Rattle.goal_limits.specs.declared.limits.TheConstants.{MAX_OPS};
ghost use Rattle.sim_order.specs.Events.{event_before};
ghost use Rattle.sim_queue.specs.Item.{at_time};
ghost use Rattle.sim_queue.specs.Map.{key_at, no_keys, IsEmptyMap, IsLeast, IsSoleLeast};
ghost use Rattle.sim_queue.specs.TopHeap.{placed, IsTopHeap};
ghost use Rattle.sim_queue.specs.Groups.{heap_at, with_key};
ghost use Rattle.sim_stations.specs.AtSlots.{at_home};
ghost use Rattle.sim_stations.specs.Parts.{all_but_last};

use crate::parts::{Part, no_items, parts};
use goal_limits::NoMemory;
use sim_order::{CompactKey, Steps};
use sim_queue::{AtZero, HeapItem, Unnoted, rise, settle};
use std::alloc::Global;
use std::marker::Model;
use std::sync::ledger::Ledger;

/// A heap for each group. Its keys are at time 0; any slot without a key in it may get one, and only the least is
/// removed. Contracts see, for each group, its map over all slots, and for how many keys it has room.
#[derive(Drop)]
pub struct ItemHeaps {
    // the number of slots; any of them may have its key in the heap of any group
    slots: u32,
    parts: Vec<Part>,
    // the items at the places of each part; those of its heap come first
    items: Vec<HeapItem<AtZero>>,
}

impl Model for ItemHeaps {
    ghost use Rattle.goal_graph.specs.declared.action.Timed.{Timed};
    ghost use Rattle.sim_order.specs.Events.{event_before};
    ghost use Rattle.sim_stations.specs.Parts.{Roomed, roomed, AreItemHeaps};

    ghost Value = { Roomed Timed };

    ghost view = { λ h. roomed h.slots h.parts.items h.items.items };

    ghost invariant = { λ h. AreItemHeaps event_before h.slots h.parts.items h.items.items };
}

// Inserts an item of one of `slots` slots; the last place is free for it.
#[inline(always)]
fn enter<L: Ledger>(
    items: &mut [HeapItem<AtZero>],
    slots: u32,
    item: HeapItem<AtZero>,
    steps: &mut Steps<L>,
)
    requires some { 0 < length items.old }
    requires heap { IsTopHeap event_before (all_but_last items.old) slots slots }
    requires slot_in { item.slot < slots }
    requires free { key_at (placed slots (all_but_last items.old)) item.slot ≡ None }
    ensures each { length items.new ≡ length items.old }
    ensures heap { IsTopHeap event_before items.new slots slots }
    ensures put { placed slots items.new ≡ slice_set (placed slots (all_but_last items.old)) item.slot (Some item.key) }
    ensures counted { (k : ℕ) → length items.old ≤ 2 ^ k → steps.new ≤ steps.old + k }
    ensures onward { steps.old ≤ steps.new }
{
    let last = items.len() - 1;
    items[last] = item;
    rise::<_, Unnoted, _>(items, &mut [], last, steps);
}

// Removes the key of one of `slots` slots. This key must be before every other. Then the last place is free.
#[inline(always)]
fn leave<L: Ledger>(items: &mut [HeapItem<AtZero>], slots: u32, slot: u32, steps: &mut Steps<L>)
    requires heap { IsTopHeap event_before items.old slots slots }
    requires least { IsSoleLeast event_before (placed slots items.old) slot }
    ensures each { length items.new ≡ length items.old }
    ensures heap { IsTopHeap event_before (all_but_last items.new) slots slots }
    ensures taken { placed slots (all_but_last items.new) ≡ slice_set (placed slots items.old) slot None }
    ensures counted { (k : ℕ) → length items.old ≤ 2 ^ k → steps.new ≤ steps.old + (2 * k + 1) }
    ensures onward { steps.old ≤ steps.new }
{
    let left = items.len() - 1;
    if left == 0 {
        return;
    }
    let last = items[left];
    let front = &mut items[..left];
    front[0] = last;
    settle::<_, Unnoted, _>(front, &mut [], 0, steps);
}

impl ItemHeaps {
    /// Creates heaps of `slots` slots, with room for as many keys each as `counts` says. No slot has a key. It
    /// allocates all its memory here. `Err` means out of memory.
    pub fn new(alloc: Global, slots: u32, counts: &[u32]) -> Result<ItemHeaps, NoMemory>
        requires few { slots ≤ MAX_OPS }
        requires few_in_all { sum counts.now < 2 ^ 32 }
        ensures { IfOk result (λ heaps. heaps ≡ record { maps = replicate (length counts.now) (no_keys slots); rooms = counts.now }) }
    {
        let (parts, size) = parts(alloc, counts)?;
        let items = no_items(alloc, size as usize)?;
        Ok(ItemHeaps {
            slots,
            parts,
            items,
        })
    }

    /// Returns the number of heaps.
    pub fn len(&self) -> usize
        ensures { result ≡ length self.now.maps }
    {
        self.parts.len()
    }

    /// Gives a key to a slot that has none in a group. The group must have room for it. The key is kept with time 0.
    pub fn put<L: Ledger>(&mut self, group: u32, slot: u32, key: CompactKey, steps: &mut Steps<L>)
        requires group_in { group < length self.old.maps }
        requires slot_in { slot < length (heap_at self.old.maps group) }
        requires free { key_at (heap_at self.old.maps group) slot ≡ None }
        requires room { count_by is_some (heap_at self.old.maps group) < slice_index self.old.rooms group }
        ensures put { self.new ≡ record self.old { maps = with_key self.old.maps (at_home group slot) (Some (at_time 0 key)) } }
        ensures counted { (k : ℕ) → slice_index self.old.rooms group ≤ 2 ^ k → steps.new ≤ steps.old + (2 * k + 1) }
        ensures onward { steps.old ≤ steps.new }
    {
        let part = self.parts[group as usize];
        let start = part.start as usize;
        let count = part.count + 1;
        enter(
            &mut self.items[start..start + count as usize],
            self.slots,
            HeapItem::new(key, slot),
            steps,
        );
        self.parts[group as usize] = Part { count, ..part };
    }

    /// Removes the key of a slot from a group. This key must be before every other key of the group.
    pub fn take<L: Ledger>(&mut self, group: u32, slot: u32, steps: &mut Steps<L>)
        requires group_in { group < length self.old.maps }
        requires least { IsSoleLeast event_before (heap_at self.old.maps group) slot }
        ensures taken { self.new ≡ record self.old { maps = with_key self.old.maps (at_home group slot) None } }
        ensures counted { (k : ℕ) → slice_index self.old.rooms group ≤ 2 ^ k → steps.new ≤ steps.old + (2 * k + 1) }
        ensures onward { steps.old ≤ steps.new }
    {
        let part = self.parts[group as usize];
        let start = part.start as usize;
        leave(
            &mut self.items[start..start + part.count as usize],
            self.slots,
            slot,
            steps,
        );
        let count = part.count - 1;
        self.parts[group as usize] = Part { count, ..part };
    }

    /// Returns the least key of a group, or `None` if it has none.
    pub fn least_of(&self, group: u32) -> Option<CompactKey>
        requires { group < length self.now.maps }
        ensures none { IsNone result → IsEmptyMap (heap_at self.now.maps group) }
        ensures least { IfSome result (λ key. (slot : ℕ) × IsLeast event_before (heap_at self.now.maps group) slot key) }
    {
        let part = self.parts[group as usize];
        if part.count == 0 {
            return None;
        }
        Some(self.items[part.start as usize].key())
    }
}
