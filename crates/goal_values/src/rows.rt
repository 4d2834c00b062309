//! The terms of the slots that were set, in a map of slots for each rank.
ghost use Rattle.std.specs.Prelude.{ℕ, ◌≡◌, ◌<◌, [], Some, if◌then◌else◌, ◌==◌, length, IfOk, OnOk, OnErr};
ghost use Rattle.std.specs.Ordering.{nat_cmp};
ghost use Rattle.std.specs.BTreeMap.{get};
ghost use Rattle.goal_values.specs.Rows.{found_in, HasSameSlots, HasSet};

use crate::sums::Term;
use std::alloc::{AllocError, Global};
use std::collections::BTreeMap;
use std::marker::Model;

/// The terms of some slots. A rank usually has few, so a slot is looked up among those of its rank. Contracts see a
/// list of slots with their terms for each of the first ranks.
#[derive(Drop)]
pub(crate) struct SlotTerms {
    alloc: Global,
    of_ranks: Vec<BTreeMap<u32, Term>>,
}

impl Model for SlotTerms {
    ghost use Rattle.std.specs.Prelude.{ℕ, List, map};
    ghost use Rattle.std.specs.BTreeMap.{BTreeMap};
    ghost use Rattle.goal_values.specs.declared.sums.Term.{Term};

    ghost Value = { List (List (ℕ × Term)) };

    ghost view = { λ r. map (λ (row : BTreeMap ℕ Term). row.entries) r.of_ranks.items };
}

impl SlotTerms {
    /// Creates a table in which no slot has a term.
    pub(crate) fn new(alloc: Global) -> SlotTerms
        ensures { result ≡ [] }
    {
        SlotTerms {
            alloc,
            of_ranks: Vec::new(alloc),
        }
    }

    /// Returns the term of a slot, if it has one.
    pub(crate) fn get(&self, rank: u32, slot: u32) -> Option<Term>
        ensures { result ≡ found_in self.now rank slot }
    {
        match self.of_ranks.get(rank as usize) {
            Some(row) => row.get(&slot).copied(),
            None => None,
        }
    }

    /// Sets the term of a slot, and returns the one that it had, if any. `Err` means out of memory.
    pub(crate) fn insert(
        &mut self,
        rank: u32,
        slot: u32,
        term: Term,
    ) -> Result<Option<Term>, AllocError>
        ensures old { IfOk result (λ old. old ≡ found_in self.old rank slot) }
        ensures set { OnOk result (HasSet rank slot term self.old self.new) }
        ensures unchanged { OnErr result (HasSameSlots self.old self.new) }
    {
        self.make_room(rank as usize)?;
        insert_in(&mut self.of_ranks[rank as usize], slot, term)
    }

    // Makes maps up to that of this rank. New ones are empty.
    fn make_room(&mut self, rank: usize) -> Result<(), AllocError>
        ensures same { HasSameSlots self.old self.new }
        ensures room { OnOk result (rank < length self.new) }
    {
        while self.of_ranks.len() <= rank {
            self.of_ranks.push(BTreeMap::new(self.alloc))?;
        }
        Ok(())
    }
}

// Sets the term of a slot in the map of its rank.
fn insert_in(
    row: &mut BTreeMap<u32, Term>,
    slot: u32,
    term: Term,
) -> Result<Option<Term>, AllocError>
    ensures old { IfOk result (λ old. old ≡ get nat_cmp row.old slot) }
    ensures set { OnOk result ((k : ℕ) → get nat_cmp row.new k ≡ (if k == slot then Some term else get nat_cmp row.old k)) }
    ensures unchanged { OnErr result (row.new.entries ≡ row.old.entries) }
{
    let old = row.insert(slot, term)?;
    Ok(old)
}
