//! The values of the slots of all ranks.
ghost use Rattle.std.specs.Prelude.{◌≡◌, ◌≢◌, ℕ, List, ◌+◌, ◌*◌, ◌^◌, ◌<◌, ◌≤◌, false, true, length, map, take, All, IfOk, OnOk, OnErr, IfErr, IfSome, IfNone, MatchOption};
ghost use Rattle.std.specs.List.{sum_by};
ghost use Rattle.goal_limits.specs.Limits.{rank_limit, weight_limit};
ghost use Rattle.goal_blocks.specs.SlotRanges.{slots_in};
ghost use Rattle.goal_blocks.specs.Values.{Value, merge, set_slot, write};
ghost use Rattle.goal_blocks.specs.Weight.{stored};
ghost use Rattle.goal_blocks.specs.Collectives.{initial};
ghost use Rattle.goal_blocks.specs.Segments.{initial_in, wanted_in};
ghost use Rattle.goal_blocks.specs.Faults.{SlotAt, IsLeast, slot_key};
ghost use Rattle.goal_blocks.specs.Stored.{one_or_none};
ghost use Rattle.goal_values.specs.Kept.{values, first_values};
ghost use Rattle.goal_values.specs.Sums.{meaning, IsBelow, HasGrown};
ghost use Rattle.goal_values.specs.Summed.{Summed, payload_values, IsPayload, lesser};

use crate::rows::SlotTerms;
use crate::sums::{Sums, Term};
use goal_blocks::{
    Collective, Contribution, Segment, SlotIter, SlotRange, asked, first_of, initial_size,
    is_wanted, slot_count,
};
use goal_limits::NoMemory;
use std::alloc::{AllocError, Global};
use std::marker::Model;

/// The values of some slots, none of which was copied. They have a meaning only with the values from which they
/// were read.
#[derive(Drop)]
pub struct TermPayload {
    /// The values, as terms.
    pub terms: Vec<Term>,
}

/// The values of the slots of all ranks, for a collective that is done in a segment. Contracts see what it keeps as
/// `kept`, and the sums that it has made as `sums`.
#[derive(Drop)]
pub struct SlotValues {
    alloc: Global,
    what: Collective,
    ranks: u32,
    segment: Segment,
    written: SlotTerms,
    sums: Sums,
    held: u64,
}

impl Model for SlotValues {
    ghost use Rattle.goal_values.specs.Summed.{Summed, kept_in, IsSound};

    ghost Value = { Summed };

    ghost view = { λ s. record { kept = kept_in s.what s.ranks s.segment s.sums s.written; sums = s.sums } };

    ghost invariant = { λ s. IsSound (record { kept = kept_in s.what s.ranks s.segment s.sums s.written; sums = s.sums }) s.written s.held };
}

// Returns a term for one contribution or none.
fn term_of(first: Option<Contribution>) -> Term
    ensures value { (sums : List Value) → meaning sums result ≡ one_or_none first }
    ensures below { (n : ℕ) → IsBelow n result }
{
    match first {
        Some(contribution) => Term::One(contribution),
        None => Term::Nothing,
    }
}

impl SlotValues {
    /// Creates the values of `ranks` ranks at the start of a segment.
    pub fn new(alloc: Global, ranks: u32, what: Collective, segment: Segment) -> SlotValues
        requires some { 1 ≤ ranks }
        requires few { ranks ≤ rank_limit }
        requires fits { segment.block * segment.width + segment.width ≤ 2 ^ 32 }
        ensures values { values result.kept ≡ initial_in what segment.width segment.block ranks }
        ensures ranks { result.kept.ranks ≡ ranks }
    {
        SlotValues {
            alloc,
            what,
            ranks,
            segment,
            written: SlotTerms::new(alloc),
            sums: Sums::new(alloc),
            held: initial_size(ranks, what),
        }
    }

    /// Returns the number of contributions in all slots together.
    pub fn held(&self) -> u64
        ensures { result ≡ stored self.now.kept.ranks (values self.now.kept) }
    {
        self.held
    }

    /// Returns the number of contributions in the slot of the rank.
    pub fn size_at(&self, rank: u32, slot: u32) -> u64
        requires { rank < self.now.kept.ranks }
        ensures size { result ≡ length (values self.now.kept rank slot) }
        ensures part { result ≤ stored self.now.kept.ranks (values self.now.kept) }
    {
        self.sums.size(self.term_at(rank, slot))
    }

    /// Returns the number of contributions in a payload.
    pub fn payload_size(&self, payload: &TermPayload) -> u64
        requires payload { IsPayload self.now.sums payload.now }
        requires fits { sum_by (λ v. length v) (payload_values self.now.sums payload.now) < 2 ^ 64 }
        ensures { result ≡ sum_by (λ v. length v) (payload_values self.now.sums payload.now) }
    {
        let mut size = 0;
        for term in &payload.terms {
            size += self.sums.size(*term);
        }
        size
    }

    /// Returns the values of the slots in these ranges of the rank. `Err` means out of memory.
    pub fn read(&self, rank: u32, ranges: &[SlotRange]) -> Result<TermPayload, NoMemory>
        requires { rank < self.now.kept.ranks }
        ensures values { IfOk result (λ l. payload_values self.now.sums l ≡ map (values self.now.kept rank) (slots_in ranges.now)) }
        ensures payload { IfOk result (λ l. IsPayload self.now.sums l) }
    {
        let mut terms = Vec::with_capacity(self.alloc, slot_count(ranges) as usize)?;
        let mut slots = SlotIter::new(ranges);
        while let Some(slot) = slots.next() {
            terms.push(self.term_at(rank, slot))?;
        }
        Ok(TermPayload { terms })
    }

    /// Sets the slots in these ranges of the rank to the values, in order: if a slot is named twice, the later value
    /// stays. On `Err` (out of memory) some of the slots may be set; those of other ranks are unchanged.
    pub fn write(
        &mut self,
        rank: u32,
        ranges: &[SlotRange],
        payload: &TermPayload,
    ) -> Result<(), NoMemory>
        requires rank { rank < self.old.kept.ranks }
        requires payload { IsPayload self.old.sums payload.now }
        requires lengths { length (slots_in ranges.now) ≡ length payload.now.terms.items }
        requires light { stored self.old.kept.ranks (values self.old.kept)
            + sum_by (λ v. length v) (payload_values self.old.sums payload.now) ≤ weight_limit }
        ensures written { OnOk result (values self.new.kept
            ≡ write rank (slots_in ranges.now) (payload_values self.old.sums payload.now) (values self.old.kept)) }
        ensures others { (r k : ℕ) → r ≢ rank → values self.new.kept r k ≡ values self.old.kept r k }
        ensures ranks { self.new.kept.ranks ≡ self.old.kept.ranks }
        ensures sums { self.new.sums ≡ self.old.sums }
    {
        let terms = payload.terms.as_slice();
        let mut slots = SlotIter::new(ranges);
        for term in terms {
            match slots.next() {
                Some(slot) => self.put(rank, slot, *term)?,
                None => unreachable!(),
            }
        }
        Ok(())
    }

    /// Adds the value of slot `from` of the rank to that of its slot `to`. On `Err` (out of memory) all values are
    /// unchanged.
    pub fn add(&mut self, rank: u32, from: u32, to: u32) -> Result<(), NoMemory>
        requires rank { rank < self.old.kept.ranks }
        requires light { stored self.old.kept.ranks (values self.old.kept) ≤ weight_limit }
        ensures added { OnOk result (values self.new.kept
            ≡ set_slot rank to (merge (values self.old.kept rank to) (values self.old.kept rank from)) (values self.old.kept)) }
        ensures unchanged { OnErr result (values self.new.kept ≡ values self.old.kept) }
        ensures ranks { self.new.kept.ranks ≡ self.old.kept.ranks }
        ensures grown { HasGrown self.old.sums self.new.sums }
    {
        let own = self.term_at(rank, to);
        let other = self.term_at(rank, from);
        let sum = self.sum_of(own, other)?;
        self.put(rank, to, sum)?;
        Ok(())
    }

    // Returns the sum of two values. The slots are unchanged.
    fn sum_of(&mut self, left: Term, right: Term) -> Result<Term, NoMemory>
        requires left { IsBelow (length self.old.sums) left }
        requires right { IsBelow (length self.old.sums) right }
        requires room { length (meaning self.old.sums left) + length (meaning self.old.sums right) < 2 ^ 64 }
        ensures sum { IfOk result (λ t. meaning self.new.sums t
            ≡ merge (meaning self.old.sums left) (meaning self.old.sums right)) }
        ensures below { IfOk result (λ t. IsBelow (length self.new.sums) t) }
        ensures values { values self.new.kept ≡ values self.old.kept }
        ensures ranks { self.new.kept.ranks ≡ self.old.kept.ranks }
        ensures grown { HasGrown self.old.sums self.new.sums }
    {
        self.sums.add(left, right)
    }

    // The value of a slot.
    fn term_at(&self, rank: u32, slot: u32) -> Term
        ensures value { meaning self.now.sums result ≡ values self.now.kept rank slot }
        ensures below { IsBelow (length self.now.sums) result }
    {
        match self.written.get(rank, slot) {
            Some(term) => term,
            None => self.first_at(rank, slot),
        }
    }

    // The value of a slot at the start.
    fn first_at(&self, rank: u32, slot: u32) -> Term
        ensures value { (sums : List Value) → meaning sums result ≡ first_values self.now.kept rank slot }
        ensures below { (n : ℕ) → IsBelow n result }
    {
        term_of(first_of(self.what, self.ranks, rank, self.segment.exchanged(slot)))
    }

    // Sets a slot. `Err` means out of memory.
    fn put(&mut self, rank: u32, slot: u32, term: Term) -> Result<(), AllocError>
        requires rank { rank < self.old.kept.ranks }
        requires below { IsBelow (length self.old.sums) term }
        requires room { stored self.old.kept.ranks (values self.old.kept) + length (meaning self.old.sums term) < 2 ^ 64 }
        ensures set { OnOk result (values self.new.kept ≡ set_slot rank slot (meaning self.old.sums term) (values self.old.kept)) }
        ensures unchanged { OnErr result (values self.new.kept ≡ values self.old.kept) }
        ensures ranks { self.new.kept.ranks ≡ self.old.kept.ranks }
        ensures sums { self.new.sums ≡ self.old.sums }
    {
        let size = self.sums.size(term);
        let first = self.first_at(rank, slot);
        let old = self.written.insert(rank, slot, term)?;
        let before = self.sums.size(old.unwrap_or(first));
        self.held = self.held - before + size;
        Ok(())
    }

    /// Returns the least rank and slot that does not hold what the collective wants in the segment, or `None` if each
    /// slot does. `Err` means out of memory.
    pub fn first_wrong(
        &self,
        what: Collective,
        segment: Segment,
    ) -> Result<Option<(u32, u32)>, NoMemory>
        requires { segment.block * segment.width + segment.width ≤ 2 ^ 32 }
        ensures { IfOk result (λ found. MatchOption found
            ((rank slot : ℕ) → wanted_in what segment.width segment.block self.now.kept.ranks rank slot
            (values self.now.kept rank slot) ≡ true)
            (λ p. IsLeast slot_key (λ (a : SlotAt). wanted_in what segment.width segment.block self.now.kept.ranks a.rank a.slot
            (values self.now.kept a.rank a.slot) ≡ false) (record { rank = p.0; slot = p.1 }))) }
    {
        for rank in 0..self.ranks {
            if let Some(slot) = self.first_wrong_of(what, segment, rank)? {
                return Ok(Some((rank, slot)));
            }
        }
        Ok(None)
    }

    // Returns the least slot of the rank that does not hold what is wanted.
    fn first_wrong_of(
        &self,
        what: Collective,
        segment: Segment,
        rank: u32,
    ) -> Result<Option<u32>, NoMemory>
        requires fits { segment.block * segment.width + segment.width ≤ 2 ^ 32 }
        requires rank { rank < self.now.kept.ranks }
        ensures wrong { IfOk result (λ found. IfSome found (λ slot. wanted_in what segment.width segment.block
            self.now.kept.ranks rank slot (values self.now.kept rank slot) ≡ false)) }
        ensures first { IfOk result (λ found. IfSome found (λ slot. (k : ℕ) → k < slot
            → wanted_in what segment.width segment.block self.now.kept.ranks rank k (values self.now.kept rank k) ≡ true)) }
        ensures right { IfOk result (λ found. IfNone found ((k : ℕ)
            → wanted_in what segment.width segment.block self.now.kept.ranks rank k (values self.now.kept rank k) ≡ true)) }
    {
        let (from, to) = asked(what, self.ranks, rank);
        let mut least = None;
        for place in from..to {
            let slot = segment.exchanged(place);
            if !self.is_right(what, segment, rank, slot)? {
                least = Some(lesser(least, slot));
            }
        }
        Ok(least)
    }

    // Returns whether the slot holds what is wanted.
    fn is_right(
        &self,
        what: Collective,
        segment: Segment,
        rank: u32,
        slot: u32,
    ) -> Result<bool, NoMemory>
        requires fits { segment.block * segment.width + segment.width ≤ 2 ^ 32 }
        requires rank { rank < self.now.kept.ranks }
        ensures { IfOk result (λ b. b ≡ wanted_in what segment.width segment.block self.now.kept.ranks rank slot
            (values self.now.kept rank slot)) }
    {
        let place = segment.exchanged(slot);
        let term = self.term_at(rank, slot);
        match term {
            Term::Nothing => Ok(is_wanted(what, self.ranks, rank, place, &[])),
            Term::One(one) => Ok(is_wanted(what, self.ranks, rank, place, &[one])),
            Term::Made(_) => {
                let value = self.sums.list(self.alloc, term)?;
                Ok(is_wanted(what, self.ranks, rank, place, &value))
            }
        }
    }
}

// Returns the lesser of two slots; the first may be missing.
fn lesser(least: Option<u32>, slot: u32) -> u32
    ensures { result ≡ lesser least slot }
{
    match least {
        Some(other) if other < slot => other,
        _ => slot,
    }
}
