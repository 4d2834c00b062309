//! The values of all slots, which a schedule changes.
ghost use Rattle.std.specs.Prelude.{◌≡◌, ◌∷◌, [], ℕ, ◌+◌, ◌^◌, ◌<◌, ◌≤◌, false, true, length, map, All, IfOk, OnOk, OnErr, IfSome, IfNone, IsSome, None};
ghost use Rattle.std.specs.List.{sum_by};
ghost use Rattle.goal_limits.specs.Limits.{rank_limit, moved_limit, weight_limit};
ghost use Rattle.goal_blocks.specs.Values.{merge, set_slot, write};
ghost use Rattle.goal_blocks.specs.Weight.{stored};
ghost use Rattle.goal_blocks.specs.Collectives.{initial, wanted};
ghost use Rattle.goal_blocks.specs.Faults.{SlotAt, IsLeast, slot_key};
ghost use Rattle.goal_blocks.specs.Stored.{values, written_at, one_or_none, before, IsSorted, lists_of};

use crate::contribution::Contribution;
use crate::merging::merged;
use crate::slots::Slots;
use crate::wanted::{asked, first_of, initial_size, is_wanted};
use goal_limits::{Collective, NoMemory};
use std::alloc::{AllocError, Global};
use std::collections::BTreeMap;
use std::marker::Model;

/// The values of some slots. Contracts see the list of them.
#[derive(Drop)]
pub struct Payload {
    values: Vec<Vec<Contribution>>,
}

impl Model for Payload {
    ghost use Rattle.std.specs.Prelude.{List, All};
    ghost use Rattle.goal_blocks.specs.declared.contribution.Contribution.{Contribution};
    ghost use Rattle.goal_blocks.specs.Stored.{IsSorted, lists_of};

    ghost Value = { List (List Contribution) };

    ghost view = { λ p. lists_of p.values.items };

    ghost invariant = { λ p. All IsSorted (lists_of p.values.items) };
}

/// The values of the slots of all ranks. Contracts see what it keeps; `values` is the value of each slot of each rank.
#[derive(Drop)]
pub struct Store {
    alloc: Global,
    what: Collective,
    ranks: u32,
    written: BTreeMap<(u32, u32), Vec<Contribution>>,
    held: u64,
}

impl Model for Store {
    ghost use Rattle.goal_blocks.specs.Stored.{Kept, IsSound, entries_of};

    ghost Value = { Kept };

    ghost view = { λ s. record { what = s.what; ranks = s.ranks; written = entries_of s.written.entries } };

    ghost invariant = { λ s. IsSound (record { what = s.what; ranks = s.ranks; written = entries_of s.written.entries }) s.held };
}

// Returns the number of contributions that a slot had: those of `written` if it was set before, else `first`, the
// one that it had at the start, if any.
fn size_before(written: Option<Vec<Contribution>>, first: Option<Contribution>) -> u64
    ensures { result ≡ length (before written first) }
{
    match written {
        Some(value) => value.len() as u64,
        None => first.as_slice().len() as u64,
    }
}

impl Store {
    /// Creates the store of `ranks` ranks at the start. `Err` means out of memory.
    pub fn new(alloc: Global, ranks: u32, what: Collective) -> Result<Store, NoMemory>
        requires some { 1 ≤ ranks }
        requires few { ranks ≤ rank_limit }
        requires light { stored ranks (initial what ranks) ≤ weight_limit }
        ensures values { IfOk result (λ s. values s ≡ initial what ranks) }
        ensures ranks { IfOk result (λ s. s.ranks ≡ ranks) }
    {
        Ok(Store {
            alloc,
            what,
            ranks,
            written: BTreeMap::new(alloc),
            held: initial_size(ranks, what),
        })
    }

    /// Returns the number of contributions in all slots together.
    pub fn held(&self) -> u64
        ensures { result ≡ stored self.now.ranks (values self.now) }
    {
        self.held
    }

    /// Returns the number of contributions in the slot of the rank.
    pub fn size_at(&self, rank: u32, slot: u32) -> u64
        requires rank { rank < self.now.ranks }
        ensures size { result ≡ length (values self.now rank slot) }
        ensures part { result ≤ stored self.now.ranks (values self.now) }
    {
        let first = self.first_at(rank, slot);
        self.value_at(rank, slot, &first).len() as u64
    }

    /// Returns the number of contributions that `read` would copy.
    pub fn payload_size(&self, rank: u32, slots: &Slots) -> u64
        requires rank { rank < self.now.ranks }
        requires few { length slots.now ≤ moved_limit }
        requires light { stored self.now.ranks (values self.now) ≤ weight_limit }
        ensures { result ≡ sum_by (λ k. length (values self.now rank k)) slots.now }
    {
        let mut size = 0;
        let mut left = slots.iter();
        while let Some(slot) = left.next() {
            size += self.size_at(rank, slot);
        }
        size
    }

    /// Returns copies of the values of these slots of the rank. `Err` means out of memory.
    pub fn read(&self, rank: u32, slots: &Slots) -> Result<Payload, NoMemory>
        requires { rank < self.now.ranks }
        ensures { IfOk result (λ p. p ≡ map (values self.now rank) slots.now) }
    {
        let mut copies = Vec::new(self.alloc);
        let mut left = slots.iter();
        while let Some(slot) = left.next() {
            copies.push(self.copy_at(rank, slot)?)?;
        }
        Ok(Payload { values: copies })
    }

    /// Sets these slots of the rank to the values, in order: if a slot occurs twice, the later value stays. On `Err`
    /// (out of memory) all values are unchanged.
    pub fn write(&mut self, rank: u32, slots: &Slots, payload: Payload) -> Result<(), NoMemory>
        requires rank { rank < self.old.ranks }
        requires lengths { length slots.now ≡ length payload }
        requires light { stored self.old.ranks (values self.old) + sum_by (λ v. length v) payload ≤ weight_limit }
        ensures written { OnOk result (values self.new ≡ write rank slots.now payload (values self.old)) }
        ensures unchanged { OnErr result (values self.new ≡ values self.old) }
        ensures ranks { self.new.ranks ≡ self.old.ranks }
    {
        if slots.len() == 1 {
            return self.write_one(rank, slots.get(0), payload.values);
        }
        let mut left = slots.iter();
        while let Some(slot) = left.next() {
            self.make_room(rank, slot)?;
        }
        self.fill(rank, slots, payload.values);
        Ok(())
    }

    /// Adds the value of slot `from` of the rank to that of its slot `to`. On `Err` (out of memory) all values are
    /// unchanged.
    pub fn add(&mut self, rank: u32, from: u32, to: u32) -> Result<(), NoMemory>
        requires rank { rank < self.old.ranks }
        requires light { stored self.old.ranks (values self.old) ≤ weight_limit }
        ensures added { OnOk result (values self.new
            ≡ set_slot rank to (merge (values self.old rank to) (values self.old rank from)) (values self.old)) }
        ensures unchanged { OnErr result (values self.new ≡ values self.old) }
        ensures ranks { self.new.ranks ≡ self.old.ranks }
    {
        let sum = self.sum_of(rank, from, to)?;
        self.put(rank, to, sum)
    }

    /// Returns the least rank and slot that does not hold what the collective wants, or `None` if each slot does.
    pub fn first_wrong(&self, what: Collective) -> Option<(u32, u32)>
        ensures wrong { IfSome result (λ p. IsLeast slot_key
            (λ (a : SlotAt). wanted what self.now.ranks a.rank a.slot (values self.now a.rank a.slot) ≡ false)
            (record { rank = p.0; slot = p.1 })) }
        ensures right { IfNone result ((rank slot : ℕ)
            → wanted what self.now.ranks rank slot (values self.now rank slot) ≡ true) }
    {
        for rank in 0..self.ranks {
            if let Some(slot) = self.first_wrong_of(what, rank) {
                return Some((rank, slot));
            }
        }
        None
    }

    // Returns the least slot of the rank that does not hold what is wanted.
    fn first_wrong_of(&self, what: Collective, rank: u32) -> Option<u32>
        requires { rank < self.now.ranks }
        ensures wrong { IfSome result (λ slot. wanted what self.now.ranks rank slot (values self.now rank slot) ≡ false) }
        ensures first { IfSome result (λ slot. (k : ℕ) → k < slot
            → wanted what self.now.ranks rank k (values self.now rank k) ≡ true) }
        ensures right { IfNone result ((k : ℕ) → wanted what self.now.ranks rank k (values self.now rank k) ≡ true) }
    {
        let (from, to) = asked(what, self.ranks, rank);
        for slot in from..to {
            if !self.is_right(what, rank, slot) {
                return Some(slot);
            }
        }
        None
    }

    // Returns whether the slot holds what is wanted.
    fn is_right(&self, what: Collective, rank: u32, slot: u32) -> bool
        requires { rank < self.now.ranks }
        ensures { result ≡ wanted what self.now.ranks rank slot (values self.now rank slot) }
    {
        let first = self.first_at(rank, slot);
        is_wanted(
            what,
            self.ranks,
            rank,
            slot,
            self.value_at(rank, slot, &first),
        )
    }

    // The one contribution that a slot has at the start, if it is not empty.
    fn first_at(&self, rank: u32, slot: u32) -> Option<Contribution>
        ensures { one_or_none result ≡ initial self.now.what self.now.ranks rank slot }
    {
        first_of(self.what, self.ranks, rank, slot)
    }

    // The value of a slot: its first one if it was never set.
    fn value_at<'a>(
        &'a self,
        rank: u32,
        slot: u32,
        first: &'a Option<Contribution>,
    ) -> &'a [Contribution]
        requires { one_or_none first.now ≡ initial self.now.what self.now.ranks rank slot }
        ensures value { result.now ≡ values self.now rank slot }
        ensures sorted { IsSorted result.now }
    {
        match self.written.get(&(rank, slot)) {
            Some(value) => value.as_slice(),
            None => first.as_slice(),
        }
    }

    // A copy of the value of a slot.
    fn copy_at(&self, rank: u32, slot: u32) -> Result<Vec<Contribution>, NoMemory>
        ensures copy { IfOk result (λ v. v.items ≡ values self.now rank slot) }
        ensures sorted { IfOk result (λ v. IsSorted v.items) }
    {
        let first = self.first_at(rank, slot);
        Ok(Vec::from_slice(self.alloc, self.value_at(rank, slot, &first))?)
    }

    // The merged values of two slots.
    fn sum_of(&self, rank: u32, from: u32, to: u32) -> Result<Vec<Contribution>, NoMemory>
        ensures sum { IfOk result (λ v. v.items ≡ merge (values self.now rank to) (values self.now rank from)) }
        ensures sorted { IfOk result (λ v. IsSorted v.items) }
    {
        let first_own = self.first_at(rank, to);
        let first_other = self.first_at(rank, from);
        let own = self.value_at(rank, to, &first_own);
        let other = self.value_at(rank, from, &first_other);
        merged(self.alloc, own, other)
    }

    // Sets a slot. This can fail (out of memory) only if the slot was never set before. On `Err` it is unchanged.
    fn put(&mut self, rank: u32, slot: u32, value: Vec<Contribution>) -> Result<(), NoMemory>
        requires rank { rank < self.old.ranks }
        requires sorted { IsSorted value.items }
        requires room { stored self.old.ranks (values self.old) + length value.items < 2 ^ 64 }
        ensures set { OnOk result (values self.new ≡ set_slot rank slot value.items (values self.old)) }
        ensures unchanged { OnErr result (values self.new ≡ values self.old) }
        ensures absent { OnErr result (written_at self.old (rank, slot) ≡ None) }
        ensures is_set { OnOk result (IsSome (written_at self.new (rank, slot))) }
        ensures still { (k : ℕ) → IsSome (written_at self.old (rank, k)) → IsSome (written_at self.new (rank, k)) }
        ensures ranks { self.new.ranks ≡ self.old.ranks }
    {
        let first = self.first_at(rank, slot);
        let size = value.len() as u64;
        let old = self.written.insert((rank, slot), value)?;
        self.held = self.held - size_before(old, first) + size;
        Ok(())
    }

    // Stores the value that a slot has if it was never set, so that a later `put` cannot fail. No value changes.
    fn make_room(&mut self, rank: u32, slot: u32) -> Result<(), NoMemory>
        requires rank { rank < self.old.ranks }
        requires light { stored self.old.ranks (values self.old) ≤ weight_limit }
        ensures same { values self.new ≡ values self.old }
        ensures is_set { OnOk result (IsSome (written_at self.new (rank, slot))) }
        ensures still { (k : ℕ) → IsSome (written_at self.old (rank, k)) → IsSome (written_at self.new (rank, k)) }
        ensures ranks { self.new.ranks ≡ self.old.ranks }
    {
        if self.written.contains_key(&(rank, slot)) {
            return Ok(());
        }
        let first = self.first_at(rank, slot);
        let value = Vec::from_slice(self.alloc, first.as_slice())?;
        self.put(rank, slot, value)?;
        Ok(())
    }

    // Sets one slot to the only value of a list.
    fn write_one(
        &mut self,
        rank: u32,
        slot: u32,
        list: Vec<Vec<Contribution>>,
    ) -> Result<(), NoMemory>
        requires rank { rank < self.old.ranks }
        requires one { length list.items ≡ 1 }
        requires sorted { All IsSorted (lists_of list.items) }
        requires light { stored self.old.ranks (values self.old) + sum_by (λ v. length v) (lists_of list.items) ≤ weight_limit }
        ensures written { OnOk result (values self.new ≡ write rank (slot ∷ []) (lists_of list.items) (values self.old)) }
        ensures unchanged { OnErr result (values self.new ≡ values self.old) }
        ensures ranks { self.new.ranks ≡ self.old.ranks }
    {
        let mut list = list;
        match list.pop() {
            Some(value) => self.put(rank, slot, value),
            None => unreachable!(),
        }
    }

    // Sets slots that are set already to other values, in order.
    fn fill(&mut self, rank: u32, slots: &Slots, list: Vec<Vec<Contribution>>)
        requires rank { rank < self.old.ranks }
        requires lengths { length slots.now ≡ length list.items }
        requires sorted { All IsSorted (lists_of list.items) }
        requires set { All (λ k. IsSome (written_at self.old (rank, k))) slots.now }
        requires light { stored self.old.ranks (values self.old) + sum_by (λ v. length v) (lists_of list.items) ≤ weight_limit }
        ensures written { values self.new ≡ write rank slots.now (lists_of list.items) (values self.old) }
        ensures ranks { self.new.ranks ≡ self.old.ranks }
    {
        let mut left = slots.iter();
        for value in list {
            match left.next() {
                Some(slot) => match self.put(rank, slot, value) {
                    Ok(()) => {}
                    Err(_) => unreachable!(),
                },
                None => unreachable!(),
            }
        }
    }
}
