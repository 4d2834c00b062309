//! The laws of orders: different values compare, and events are in the order of keys. The functions do nothing: a proof
//! cites a law by a call.
ghost use Rattle.std.specs.Prelude.{◌≡◌, ◌≢◌, ◌⊎◌, true};
ghost use Rattle.sim_order.specs.Events.{EventsGoByKey};

use crate::{EventOrder, KeyOrder};

/// Of two different keys one is less than the other.
pub fn laws_of_keys<K: KeyOrder>()
    ensures { (x y : K) → x ≢ y → (K.less x y ≡ true) ⊎ (K.less y x ≡ true) }
{}

/// Of two different events one is before the other.
pub fn laws_of_events<K: EventOrder>()
    ensures { (x y : K) → x ≢ y → (K.before x y ≡ true) ⊎ (K.before y x ≡ true) }
{}

/// Events are in the order of the keys of their actions.
pub fn laws_of_event_keys()
    ensures { EventsGoByKey }
{}
