//! Slots in groups.
ghost use Rattle.std.specs.Prelude.{◌≡◌, ◌+◌, ◌*◌, ◌^◌, ◌<◌, ◌≤◌, ℕ, All, IfOk, IfSome, IsNone, Some, None, length, replicate, slice_get, slice_set, sum};
ghost use Rattle.goal_limits.specs.declared.limits.TheConstants.{MAX_OPS};
ghost use Rattle.sim_order.specs.Events.{event_before};
ghost use Rattle.sim_queue.specs.Item.{at_time};
ghost use Rattle.sim_queue.specs.Map.{key_at};
ghost use Rattle.sim_queue.specs.Groups.{IsEmptyGroup, IsLeastOf, IsSoleLeastOf};
ghost use Rattle.sim_stations.specs.AtSlots.{AreCounts};

use crate::item_heaps::ItemHeaps;
use goal_limits::NoMemory;
use sim_order::{CompactKey, Steps};
use std::alloc::Global;
use std::marker::Model;
use std::sync::ledger::Ledger;

/// A finite map from slots to keys, whose slots are in groups, with the least key of each group. With at most 2^k
/// slots, a put or a take needs at most 2k + 1 comparisons, and reading a least key needs none.
#[derive(Drop)]
pub struct Groups {
    // the group of each slot
    groups: Vec<u32>,
    heaps: ItemHeaps,
}

impl Model for Groups {
    ghost use Rattle.goal_graph.specs.declared.action.Timed.{Timed};
    ghost use Rattle.sim_queue.specs.Groups.{Grouped};
    ghost use Rattle.sim_stations.specs.AtSlots.{AreHousedAtSlots, grouped_at_slots};

    ghost Value = { Grouped Timed };

    ghost view = { λ q. grouped_at_slots q.groups.items q.heaps.maps };

    ghost invariant = { λ q. AreHousedAtSlots q.groups.items q.heaps.maps q.heaps.rooms };
}

// Counts the slots of each group, given the groups of all slots.
fn count(numbers: &[u32], counts: &mut [u32])
    requires within { All (λ group. group < length counts.old) numbers.now }
    requires zero { All (λ count. count ≡ 0) counts.old }
    requires few { length numbers.now < 2 ^ 32 }
    ensures counted { AreCounts numbers.now counts.new }
    ensures all { sum counts.new ≡ length numbers.now }
{
    'slots: for number in numbers {
        counts[*number as usize] += 1;
    }
}

impl Groups {
    /// Creates a map without keys. `numbers` has the group of each slot, which is below `groups`. It allocates all its
    /// memory here. `Err` means out of memory.
    pub fn new(alloc: Global, numbers: &[u32], groups: u32) -> Result<Groups, NoMemory>
        requires within { All (λ group. group < groups) numbers.now }
        requires few { length numbers.now ≤ MAX_OPS }
        ensures { IfOk result (λ q. q ≡ record { keys = replicate (length numbers.now) None; groups = numbers.now }) }
    {
        let mut counts = vec![in alloc; 0; groups as usize]?;
        count(numbers, &mut counts);
        let heaps = ItemHeaps::new(alloc, numbers.len() as u32, &counts)?;
        let groups = Vec::from_slice(alloc, numbers)?;
        Ok(Groups { groups, heaps })
    }

    /// Returns the group of a slot.
    pub fn group(&self, slot: u32) -> u32
        requires { slot < length self.now.groups }
        ensures { slice_get self.now.groups slot ≡ Some result }
    {
        self.groups[slot as usize]
    }

    /// Gives a slot that has no key a key, which is kept with time 0.
    pub fn put<L: Ledger>(&mut self, slot: u32, key: CompactKey, steps: &mut Steps<L>)
        requires slot_in { slot < length self.old.keys }
        requires free { key_at self.old.keys slot ≡ None }
        ensures put { self.new ≡ record self.old { keys = slice_set self.old.keys slot (Some (at_time 0 key)) } }
        ensures counted { (k : ℕ) → length self.old.keys ≤ 2 ^ k → steps.new ≤ steps.old + (2 * k + 1) }
        ensures onward { steps.old ≤ steps.new }
    {
        let group = self.groups[slot as usize];
        self.heaps.put(group, slot, key, steps);
    }

    /// Removes the key of a slot. This key must be before every other key of the slot's group.
    pub fn take<L: Ledger>(&mut self, slot: u32, steps: &mut Steps<L>)
        requires { IsSoleLeastOf event_before self.old slot }
        ensures taken { self.new ≡ record self.old { keys = slice_set self.old.keys slot None } }
        ensures counted { (k : ℕ) → length self.old.keys ≤ 2 ^ k → steps.new ≤ steps.old + (2 * k + 1) }
        ensures onward { steps.old ≤ steps.new }
    {
        let group = self.groups[slot as usize];
        self.heaps.take(group, slot, steps);
    }

    /// Returns the least key of a group, or `None` if no slot of it has a key or there is no such group.
    pub fn least_of(&self, group: u32) -> Option<CompactKey>
        ensures none { IsNone result → IsEmptyGroup self.now group }
        ensures least { IfSome result (IsLeastOf event_before self.now group) }
    {
        if group as usize >= self.heaps.len() {
            return None;
        }
        self.heaps.least_of(group)
    }
}
