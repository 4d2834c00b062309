//! Keys with their slots, in two words or in one.
ghost use Rattle.std.specs.Prelude.{◌≡◌, ℕ, ◌<◌, refl};
ghost use Rattle.sim_queue.specs.Item.{at_time};

use crate::sift::Entry;
use goal_limits::MAX_OPS;
use sim_order::{CompactKey, Steps};
use std::alloc::AllocError;
use std::marker::Model;
use std::sync::ledger::Ledger;

/// The number of slots that an item can name.
pub const MAX_SLOTS: u32 = 2 * MAX_OPS;

const SLOTS: u64 = MAX_SLOTS as u64;

/// The time of an item: a number, or nothing if the keys of all items are at time 0.
pub trait ItemTime: Copy {
    /// The time, in nanoseconds.
    ghost nanoseconds: { Self → ℕ };

    /// The time with this number of nanoseconds, or time 0 if the type has no other.
    ghost of_nanoseconds: { ℕ → Self };

    /// Times with the same number are the same.
    ghost says_itself: { (time : Self) → of_nanoseconds (nanoseconds time) ≡ time };

    /// Returns the time with this number of nanoseconds, or time 0 if the type has no other.
    fn new(time: u64) -> Self
        ensures { result ≡ of_nanoseconds time };

    /// Returns the time, in nanoseconds.
    fn get(self) -> u64
        ensures { result ≡ nanoseconds self };
}

impl ItemTime for u64 {
    ghost nanoseconds = { λ time. time };

    ghost of_nanoseconds = { λ time. time };

    ghost says_itself = { λ time. refl };

    #[inline(always)]
    fn new(time: u64) -> u64 {
        time
    }

    #[inline(always)]
    fn get(self) -> u64 {
        self
    }
}

/// The time 0.
#[derive(Clone, Copy, Debug)]
pub struct AtZero;

impl ItemTime for AtZero {
    ghost nanoseconds = { λ time. 0 };

    ghost of_nanoseconds = { λ time. record {} };

    ghost says_itself = { λ time. refl };

    #[inline(always)]
    fn new(_time: u64) -> AtZero {
        AtZero
    }

    #[inline(always)]
    fn get(self) -> u64 {
        0
    }
}

/// A key and the slot that has it, below 2^21, in 16 bytes, or in 8 if the keys of all items are at time 0. Items are
/// in the order of their keys.
#[derive(Debug)]
pub struct HeapItem<T: ItemTime> {
    time: T,
    // the tail of the key and the slot, as the digits of one number
    tail: u64,
}

impl<T: ItemTime> Model for HeapItem<T> {
    ghost use Rattle.goal_graph.specs.declared.action.Timed.{Timed};
    ghost use Rattle.sim_queue.specs.Item.{Item, item_from, item_tail, item_tail_parts, IsItemTail};

    ghost Value = { Item Timed };

    ghost view = { λ x. item_from (T.nanoseconds x.time) x.tail };

    ghost invariant = { λ x. IsItemTail x.tail };

    ghost inverse = { λ x. record { time = T.of_nanoseconds x.key.time; tail = item_tail x } };

    ghost inverse_ok = { λ x h i. record { time = T.says_itself x.time i; tail = item_tail_parts x.tail h i } };
}

impl<T: ItemTime> Copy for HeapItem<T> {}

impl<T: ItemTime> Clone for HeapItem<T> {
    ghost is_clone = { λ x y. y ≡ x };

    fn clone(&self) -> Result<HeapItem<T>, AllocError> {
        Ok(*self)
    }
}

impl<T: ItemTime> HeapItem<T> {
    /// Returns the item of a key and a slot. Its time is that of the key as far as `T` has it: a number, or 0.
    #[inline(always)]
    pub fn new(key: CompactKey, slot: u32) -> HeapItem<T>
        requires { slot < MAX_SLOTS }
        ensures { result ≡ record { key = at_time (T.nanoseconds (T.of_nanoseconds key.time)) key; slot = slot } }
    {
        HeapItem {
            time: T::new(key.time()),
            tail: key.tail() * SLOTS + u64::from(slot),
        }
    }

    /// Returns the key.
    #[inline(always)]
    pub fn key(&self) -> CompactKey
        ensures { result ≡ self.now.key }
    {
        CompactKey::from_tail(self.time.get(), self.tail / SLOTS)
    }
}

impl<T: ItemTime> Entry for HeapItem<T> {
    type Key = CompactKey;

    ghost key = { λ x. x.key };

    ghost slot = { λ x. x.slot };

    #[inline(always)]
    fn slot(&self) -> u32 {
        (self.tail % SLOTS) as u32
    }

    // Time and tail are compared as one number of 128 bits, without a branch.
    #[inline(always)]
    fn before<L: Ledger>(&self, other: &HeapItem<T>, steps: &mut Steps<L>) -> bool {
        steps.tick();
        let own = (u128::from(self.time.get()) << 64) + u128::from(self.tail / SLOTS);
        let others = (u128::from(other.time.get()) << 64) + u128::from(other.tail / SLOTS);
        own < others
    }
}
