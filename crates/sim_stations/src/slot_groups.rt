//! Slots in groups, whose keys can be changed anywhere.
ghost use Rattle.std.specs.Prelude.{◌≡◌, ◌+◌, ◌*◌, ◌^◌, ◌<◌, ◌≤◌, ℕ, All, IfOk, IfSome, IsNone, OnOk, Some, None, length, replicate, slice_set, sum};
ghost use Rattle.sim_order.specs.Events.{event_before};
ghost use Rattle.sim_queue.specs.declared.heap_item.TheConstants.{MAX_SLOTS};
ghost use Rattle.sim_queue.specs.Item.{at_time};
ghost use Rattle.sim_queue.specs.Groups.{IsEmptyGroup, IsLeastOf, AreHomes};

use crate::slot_heaps::SlotHeaps;
use goal_limits::NoMemory;
use sim_order::{CompactKey, Steps};
use sim_queue::PlaceInGroup;
use std::alloc::Global;
use std::marker::Model;
use std::sync::ledger::Ledger;

/// A finite map from slots to keys at time 0, whose slots are in groups, with the least key of each group. A key may be
/// changed, and removed from anywhere. With at most 2^k slots, a put or a drop needs at most 2k + 1 comparisons, and
/// reading a least key needs none.
#[derive(Drop)]
pub struct SlotGroups {
    homes: Vec<PlaceInGroup>,
    heaps: SlotHeaps,
}

impl Model for SlotGroups {
    ghost use Rattle.goal_graph.specs.declared.action.Timed.{Timed};
    ghost use Rattle.sim_queue.specs.Groups.{Grouped, IsHoused, grouped};

    ghost Value = { Grouped Timed };

    ghost view = { λ q. grouped q.homes.items q.heaps };

    ghost invariant = { λ q. IsHoused q.homes.items q.heaps };
}

// Returns where the key of each slot is, given the groups of the slots: the slots of a group are numbered in their
// order. Counts the slots of each group.
fn homes(alloc: Global, numbers: &[u32], counts: &mut [u32]) -> Result<Vec<PlaceInGroup>, NoMemory>
    requires within { All (λ group. group < length counts.old) numbers.now }
    requires zero { All (λ count. count ≡ 0) counts.old }
    requires few { length numbers.now < 2 ^ 32 }
    ensures homes { IfOk result (λ homes. AreHomes numbers.now homes.items counts.new) }
    ensures few { OnOk result (All (λ count. count ≤ length numbers.now) counts.new) }
    ensures all { OnOk result (sum counts.new ≡ length numbers.now) }
{
    let mut homes = Vec::with_capacity(alloc, numbers.len())?;
    'slots: for number in numbers {
        let group = *number;
        let place = counts[group as usize];
        homes.push(PlaceInGroup { group, place })?;
        counts[group as usize] = place + 1;
    }
    Ok(homes)
}

impl SlotGroups {
    /// Creates a map without keys. `numbers` has the group of each slot, which is below `groups`. It allocates all its
    /// memory here. `Err` means out of memory.
    pub fn new(alloc: Global, numbers: &[u32], groups: u32) -> Result<SlotGroups, NoMemory>
        requires within { All (λ group. group < groups) numbers.now }
        requires few { length numbers.now ≤ MAX_SLOTS }
        ensures { IfOk result (λ q. q ≡ record { keys = replicate (length numbers.now) None; groups = numbers.now }) }
    {
        let mut counts = vec![in alloc; 0; groups as usize]?;
        let homes = homes(alloc, numbers, &mut counts)?;
        let heaps = SlotHeaps::new(alloc, &counts)?;
        Ok(SlotGroups { homes, heaps })
    }

    /// Gives a slot a key, which is kept with time 0, instead of the one that it had, if any.
    pub fn put<L: Ledger>(&mut self, slot: u32, key: CompactKey, steps: &mut Steps<L>)
        requires { slot < length self.old.keys }
        ensures put { self.new ≡ record self.old { keys = slice_set self.old.keys slot (Some (at_time 0 key)) } }
        ensures counted { (k : ℕ) → length self.old.keys ≤ 2 ^ k → steps.new ≤ steps.old + (2 * k + 1) }
        ensures onward { steps.old ≤ steps.new }
    {
        let home = self.homes[slot as usize];
        self.heaps.put(home, key, steps);
    }

    /// Removes the key of a slot. If it has none, nothing changes.
    pub fn drop_slot<L: Ledger>(&mut self, slot: u32, steps: &mut Steps<L>)
        requires { slot < length self.old.keys }
        ensures dropped { self.new ≡ record self.old { keys = slice_set self.old.keys slot None } }
        ensures counted { (k : ℕ) → length self.old.keys ≤ 2 ^ k → steps.new ≤ steps.old + (2 * k + 1) }
        ensures onward { steps.old ≤ steps.new }
    {
        let home = self.homes[slot as usize];
        self.heaps.drop_slot(home, steps);
    }

    /// Returns the least key of a group, or `None` if no slot of it has a key or there is no such group.
    pub fn least_of<L: Ledger>(&self, group: u32, steps: &mut Steps<L>) -> Option<CompactKey>
        ensures none { IsNone result → IsEmptyGroup self.now group }
        ensures least { IfSome result (IsLeastOf event_before self.now group) }
        ensures counted { steps.new ≡ steps.old }
    {
        if group as usize >= self.heaps.len() {
            return None;
        }
        self.heaps.least_of(group)
    }
}
