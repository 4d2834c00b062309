//! Keys of events in two words.
ghost use Rattle.std.specs.Prelude.{◌≡◌, ◌<◌};
ghost use Rattle.goal_limits.specs.declared.limits.TheConstants.{MAX_RANKS, MAX_OPS};
ghost use Rattle.goal_graph.specs.Action.{place};
ghost use Rattle.sim_order.specs.Compact.{class_at, timed_of, IsTail};

use crate::{EventOrder, Steps};
use goal_graph::{Class, OpId};
use goal_limits::{MAX_OPS, MAX_RANKS};
use std::marker::Model;
use std::sync::ledger::Ledger;

// The number of ranks that a compact key can name.
const RANKS: u64 = MAX_RANKS as u64;

// The number of operations of a rank that a compact key can name.
const OPS: u64 = MAX_OPS as u64;

/// The key of an event in 16 bytes: its rank is below 2^16, and its number in the rank below 2^20. It has the order of
/// [`crate::EventKey`], and compares in at most two comparisons of words.
#[derive(Clone, Copy, Debug, PartialEq, Eq)]
pub struct CompactKey {
    time: u64,
    // the class, the rank and the number of the operation, as the digits of one number
    tail: u64,
}

impl Model for CompactKey {
    ghost use Rattle.goal_graph.specs.declared.action.Timed.{Timed};
    ghost use Rattle.sim_order.specs.Compact.{timed_of, tail_of, tail_of_parts, IsTail};

    ghost Value = { Timed };

    ghost view = { λ k. timed_of k.time k.tail };

    ghost invariant = { λ k. IsTail k.tail };

    ghost inverse = { λ e. record { time = e.time; tail = tail_of e.class e.op } };

    ghost inverse_ok = { λ k h i. record { time = k.time; tail = tail_of_parts k.tail h i } };
}

// The place of a class in the order of classes.
fn place(class: Class) -> u64
    ensures { result ≡ place class }
{
    match class {
        Class::Arrive => 0,
        Class::Serve => 1,
        Class::Data => 2,
        Class::Post => 3,
        Class::Begin => 4,
    }
}

// The class at a place in the order of classes.
fn class_at(place: u64) -> Class
    ensures { result ≡ class_at place }
{
    match place {
        0 => Class::Arrive,
        1 => Class::Serve,
        2 => Class::Data,
        3 => Class::Post,
        _ => Class::Begin,
    }
}

impl CompactKey {
    /// Returns the key of an action, at a time in nanoseconds.
    pub fn new(time: u64, class: Class, id: OpId) -> CompactKey
        requires rank { id.rank < MAX_RANKS }
        requires number { id.op < MAX_OPS }
        ensures { result ≡ record { time = time; class = class; op = id } }
    {
        let above = place(class) * RANKS + u64::from(id.rank);
        CompactKey {
            time,
            tail: above * OPS + u64::from(id.op),
        }
    }

    /// The key of a tail and a time in nanoseconds.
    #[inline(always)]
    pub fn from_tail(time: u64, tail: u64) -> CompactKey
        requires { IsTail tail }
        ensures { result ≡ timed_of time tail }
    {
        CompactKey { time, tail }
    }

    /// Returns the class and the operation as one number. Keys of the same time have the order of these numbers.
    #[inline(always)]
    pub fn tail(&self) -> u64
        ensures tail { IsTail result }
        ensures tells { timed_of self.now.time result ≡ self.now }
    {
        self.tail
    }

    /// The key of the same action at another time, in nanoseconds.
    pub fn at(&self, time: u64) -> CompactKey
        ensures { result ≡ record { time = time; class = self.now.class; op = self.now.op } }
    {
        CompactKey {
            time,
            tail: self.tail,
        }
    }

    /// The time, in nanoseconds.
    pub fn time(&self) -> u64
        ensures { result ≡ self.now.time }
    {
        self.time
    }

    /// The class of the action.
    pub fn class(&self) -> Class
        ensures { result ≡ self.now.class }
    {
        class_at(self.tail / OPS / RANKS)
    }

    /// The operation.
    pub fn id(&self) -> OpId
        ensures { result ≡ self.now.op }
    {
        OpId {
            rank: (self.tail / OPS % RANKS) as u32,
            op: (self.tail % OPS) as u32,
        }
    }
}

impl EventOrder for CompactKey {
    ghost use Rattle.sim_order.specs.Events.{event_before};
    ghost use Rattle.sim_order.specs.EventLaws.{event_laws};

    ghost before = { event_before };

    ghost laws = { event_laws };

    // Compares the time and the tail as one number of 128 bits, without a branch, since the processor could hardly
    // predict which key is less.
    fn before<L: Ledger>(&self, other: &CompactKey, steps: &mut Steps<L>) -> bool {
        steps.tick();
        let own = (u128::from(self.time) << 64) + u128::from(self.tail);
        let others = (u128::from(other.time) << 64) + u128::from(other.tail);
        own < others
    }
}
