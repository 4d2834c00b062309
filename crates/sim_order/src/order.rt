//! Orders of events, whose comparisons are counted.
ghost use Rattle.std.specs.Prelude.{◌≡◌, ◌+◌, Bool};
ghost use Rattle.sim_order.specs.Order.{IsOrder};

use crate::{KeyOrder, Steps};
use std::sync::ledger::Ledger;

/// A type of events with a total order, whose comparisons are counted.
pub trait EventOrder {
    /// The first event is before the second.
    ghost before: { Self → Self → Bool };

    /// Returns whether this event is before the other, and counts one step.
    fn before<L: Ledger>(&self, other: &Self, steps: &mut Steps<L>) -> bool
        ensures tells { result ≡ before self.now other.now }
        ensures ticks { steps.new ≡ steps.old + 1 };

    /// No event is before itself, the order is transitive, and of two different events one is before the other.
    ghost laws: { IsOrder before };
}

/// Keys whose comparisons are counted.
#[derive(Clone, Copy, Debug, PartialEq, Eq, Drop)]
pub struct Counted<K>(pub K);

impl<K: KeyOrder> EventOrder for Counted<K> {
    ghost use Rattle.sim_order.specs.OrderLaws.{counted_laws};

    ghost before = { λ x y. K.less x.0 y.0 };

    ghost laws = { counted_laws K.less K.laws };

    fn before<L: Ledger>(&self, other: &Counted<K>, steps: &mut Steps<L>) -> bool {
        steps.tick();
        self.0.less(&other.0)
    }
}
