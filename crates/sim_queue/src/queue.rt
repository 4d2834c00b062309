//! The calls that every event queue has.
ghost use Rattle.std.specs.Prelude.{◌≡◌, ◌<◌, ◌≤◌, ◌↔◌, List, Option, Some, None, IfSome, IsNone, length, slice_set};
ghost use Rattle.sim_queue.specs.Map.{IsEmptyMap, IsLeast};

use sim_order::{EventOrder, Steps};
use std::sync::ledger::Ledger;

/// A finite map from slots to keys, whose least key can be read. The slots are the numbers below a fixed one. The
/// comparisons of a call are counted in its `steps`, which never fall.
pub trait EventQueue<K: EventOrder> {
    /// What each slot has, from slot 0 on: a key or none.
    ghost keys: { Self → List (Option K) };

    /// Gives a slot a key, instead of the one that it had, if any.
    fn put<L: Ledger>(&mut self, slot: u32, key: K, steps: &mut Steps<L>)
        requires { slot < length (keys self.old) }
        ensures put { keys self.new ≡ slice_set (keys self.old) slot (Some key) }
        ensures onward { steps.old ≤ steps.new };

    /// Removes the key of a slot. If it has none, or there is no such slot, nothing changes.
    fn drop_slot<L: Ledger>(&mut self, slot: u32, steps: &mut Steps<L>)
        ensures dropped { keys self.new ≡ slice_set (keys self.old) slot None }
        ensures onward { steps.old ≤ steps.new };

    /// Returns a slot with its key, such that no key of the map is before it, or `None` if the map is empty.
    fn least<L: Ledger>(&self, steps: &mut Steps<L>) -> Option<(u32, K)>
        ensures none { IsNone result ↔ IsEmptyMap (keys self.now) }
        ensures least { IfSome result (λ r. IsLeast K.before (keys self.now) r.0 r.1) }
        ensures onward { steps.old ≤ steps.new };
}
