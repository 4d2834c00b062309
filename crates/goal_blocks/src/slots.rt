//! The slots that the operations of a schedule move, and what its calcs add.
ghost use Rattle.std.specs.Prelude.{◌≡◌, ℕ, ◌+◌, ◌-◌, ◌^◌, ◌<◌, ◌≤◌, ◌++◌, ◌==◌, [], ◌∷◌, length, min, slice_index, IfOk, OnOk, MatchOption};
ghost use Rattle.goal_graph.specs.Fault.{IsOp};
ghost use Rattle.goal_blocks.specs.Slots.{slots};
ghost use Rattle.goal_blocks.specs.SlotRanges.{slots_of, slots_in};

use goal_graph::{Note, OpId, Sched};
use goal_limits::NoMemory;
use smallvec::SmallVec;
use std::alloc::{AllocError, Global};
use std::marker::Model;

/// A sum: the value of one slot is added to that of another.
#[derive(Clone, Copy, Debug, PartialEq, Eq)]
pub struct Adding {
    /// The slot that is read.
    pub from: u32,
    /// The slot to which it is added.
    pub to: u32,
}

/// The slots from `lo` to `hi`, both included. There is none if `hi` is less than `lo`.
#[derive(Clone, Copy, Debug, Default, PartialEq, Eq)]
pub struct SlotRange {
    /// The first slot.
    pub lo: u32,
    /// The last slot.
    pub hi: u32,
}

impl SlotRange {
    /// Returns the number of slots in the range, at most 2^32.
    #[must_use]
    pub fn count(self) -> u64
        ensures count { result ≡ length (slots_of self) }
        ensures by_ends { result ≡ self.hi + 1 - self.lo }
        ensures most { result ≤ 2 ^ 32 }
    {
        self.end().saturating_sub(u64::from(self.lo))
    }

    // The slot after the last one.
    fn end(self) -> u64
        ensures end { result ≡ self.hi + 1 }
        ensures low { result ≤ 2 ^ 32 }
    {
        u64::from(self.hi) + 1
    }

    // The slot at this index.
    fn slot(self, i: u64) -> u32
        requires { i < length (slots_of self) }
        ensures { result ≡ slice_index (slots_of self) i }
    {
        self.lo + i as u32
    }
}

/// Returns the number of slots in these ranges, or 2^64-1 if there are more.
#[must_use]
pub fn slot_count(ranges: &[SlotRange]) -> u64
    ensures { result ≡ min (length (slots_in ranges.now)) (2 ^ 64 - 1) }
{
    let mut count: u64 = 0;
    for range in ranges {
        count = count.saturating_add(range.count());
    }
    count
}

/// A list of slots. Contracts see that list.
#[derive(Drop)]
pub struct Slots {
    ranges: SmallVec<SlotRange, 2>,
}

impl Model for Slots {
    ghost use Rattle.std.specs.Prelude.{ℕ, List, length, ◌<◌, ◌^◌};
    ghost use Rattle.goal_blocks.specs.SlotRanges.{slots_in};

    ghost Value = { List ℕ };

    ghost view = { λ s. slots_in s.ranges.items };

    ghost invariant = { λ s. length (slots_in s.ranges.items) < 2 ^ 64 };
}

impl Slots {
    /// Returns the slots that the operation moves, in the order of its rank's notes. `Err` means out of memory.
    pub fn of(alloc: Global, sched: &Sched, id: OpId) -> Result<Slots, NoMemory>
        requires { IsOp sched.now id }
        ensures { IfOk result (λ s. s ≡ slots sched.now id) }
    {
        let mut ranges = SmallVec::new(alloc);
        let plan = &sched.plans()[id.rank as usize];
        for note in &plan.notes {
            match *note {
                Note::Moves { op, lo, hi } if op == id.op => {
                    push_range(&mut ranges, SlotRange { lo, hi })?
                }
                _ => {}
            }
        }
        Ok(Slots { ranges })
    }

    /// Returns the number of slots.
    pub fn len(&self) -> u64
        ensures { result ≡ length self.now }
    {
        slot_count(self.ranges.as_slice())
    }

    /// Returns whether there is no slot.
    pub fn is_empty(&self) -> bool
        ensures { result ≡ (length self.now == 0) }
    {
        self.len() == 0
    }

    /// Returns the slot at this index.
    pub fn get(&self, i: u64) -> u32
        requires { i < length self.now }
        ensures { result ≡ slice_index self.now i }
    {
        let mut left = i;
        for range in self.ranges.as_slice() {
            let count = range.count();
            if left < count {
                return range.slot(left);
            }
            left -= count;
        }
        unreachable!()
    }

    /// Returns the slots, one after another.
    pub fn iter(&self) -> SlotIter<'_>
        ensures { result ≡ self.now }
    {
        SlotIter::new(self.ranges.as_slice())
    }
}

// Appends a range.
fn push_range(ranges: &mut SmallVec<SlotRange, 2>, range: SlotRange) -> Result<(), AllocError>
    ensures more { OnOk result (slots_in ranges.new.items ≡ slots_in ranges.old.items ++ slots_of range) }
    ensures few { length (slots_of range) ≤ 2 ^ 32 }
{
    ranges.push(range)?;
    Ok(())
}

/// The slots of ranges, one after another. Contracts see the list of those that are left.
#[derive(Drop)]
pub struct SlotIter<'a> {
    ranges: &'a [SlotRange],
    next: u64,
    end: u64,
}

impl<'a> Model for SlotIter<'a> {
    ghost use Rattle.std.specs.Prelude.{ℕ, List, ◌++◌, ◌-◌, ◌≤◌, ◌^◌};
    ghost use Rattle.goal_blocks.specs.Slots.{slots_from};
    ghost use Rattle.goal_blocks.specs.SlotRanges.{slots_in};

    ghost Value = { List ℕ };

    ghost view = { λ s. slots_from s.next (s.end - s.next) ++ slots_in s.ranges.now };

    ghost invariant = { λ s. s.end ≤ 2 ^ 32 };
}

impl<'a> SlotIter<'a> {
    /// Starts with the slots of these ranges.
    pub fn new(ranges: &'a [SlotRange]) -> SlotIter<'a>
        ensures { result ≡ slots_in ranges.now }
    {
        SlotIter {
            ranges,
            next: 0,
            end: 0,
        }
    }

    /// Returns the next slot, if any is left.
    pub fn next(&mut self) -> Option<u32>
        ensures { MatchOption result ((self.old ≡ []) × (self.new ≡ [])) (λ slot. self.old ≡ slot ∷ self.new) }
    {
        while self.end <= self.next {
            let Some((range, rest)) = self.ranges.split_first() else {
                return None;
            };
            self.next = u64::from(range.lo);
            self.end = range.end();
            self.ranges = rest;
        }
        let slot = self.next as u32;
        self.next += 1;
        Some(slot)
    }
}
