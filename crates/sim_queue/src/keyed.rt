//! Keys of any type with their slots.
ghost use Rattle.std.specs.Prelude.{◌≡◌};

use crate::sift::Entry;
use sim_order::{EventOrder, Steps};
use std::alloc::AllocError;
use std::marker::Model;
use std::sync::ledger::Ledger;

/// A key and the slot that has it. Items are in the order of their keys.
#[derive(Debug)]
pub struct Keyed<K: EventOrder> {
    key: K,
    slot: u32,
}

impl<K: EventOrder> Model for Keyed<K> {
    ghost use Rattle.sim_queue.specs.Item.{Item};

    ghost Value = { Item K };

    ghost view = { λ x. record { key = x.key; slot = x.slot } };

    ghost inverse = { λ x. record { key = x.key; slot = x.slot } };

    ghost inverse_ok = { λ x h i. x };
}

impl<K: EventOrder + Copy> Copy for Keyed<K> {}

impl<K: EventOrder + Copy> Clone for Keyed<K> {
    ghost is_clone = { λ x y. y ≡ x };

    fn clone(&self) -> Result<Keyed<K>, AllocError> {
        Ok(*self)
    }
}

impl<K: EventOrder + Copy> Keyed<K> {
    /// Returns the item of a key and a slot.
    #[inline(always)]
    pub fn new(key: K, slot: u32) -> Keyed<K>
        ensures { result ≡ record { key = key; slot = slot } }
    {
        Keyed { key, slot }
    }

    /// Returns the key.
    #[inline(always)]
    pub fn key(&self) -> K
        ensures { result ≡ self.now.key }
    {
        self.key
    }
}

impl<K: EventOrder + Copy> Entry for Keyed<K> {
    type Key = K;

    ghost key = { λ x. x.key };

    ghost slot = { λ x. x.slot };

    #[inline(always)]
    fn slot(&self) -> u32 {
        self.slot
    }

    #[inline(always)]
    fn before<L: Ledger>(&self, other: &Keyed<K>, steps: &mut Steps<L>) -> bool {
        self.key.before(&other.key, steps)
    }
}
