//! The labels of a block.
ghost use Rattle.std.specs.Prelude.{◌≡◌, ◌≢◌, ◌<◌, ◌≤◌, List, [], ◌∷◌, ◌++◌, Some, None, IfOk, IfErr, OnOk, length};
ghost use Rattle.goal_limits.specs.Limits.{run_limit};
ghost use Rattle.goal_parser.specs.Items.{Definition, first_unknown};
ghost use Rattle.goal_parser.specs.declared.head.Mention.{Mention};
ghost use Rattle.goal_parser.specs.Faults.{defined_fault};
ghost use Rattle.goal_parser.specs.FaultInText.{fault_in_text};
ghost use Rattle.goal_parser.specs.Slots.{Keeps, Grows, op_in, label_at, op_at};

use crate::token_faults::TokenFault;
use goal_labels::{LabelInfo, LabelMap};
use std::alloc::{AllocError, Global};

/// Returns the number of a slot's operation, if there is a slot and its label is defined.
fn op_in(slot: Option<LabelInfo>) -> Option<u32>
    ensures { result ≡ op_in slot }
{
    match slot {
        Some(slot) => slot.op,
        None => None,
    }
}

/// The labels of a block, in the order of their first appearance.
#[derive(Drop)]
pub struct Labels {
    /// The labels with their slots.
    pub slots: LabelMap,
}

impl Labels {
    /// Creates an empty table.
    pub fn new(alloc: Global) -> Labels
        ensures kept { Keeps result.slots [] [] }
        ensures empty { result.slots ≡ [] }
    {
        Labels {
            slots: LabelMap::new(alloc),
        }
    }

    /// Forgets all labels. Their memory stays for the next block.
    pub fn clear(&mut self)
        ensures kept { Keeps self.new.slots [] [] }
        ensures empty { self.new.slots ≡ [] }
    {
        self.slots.clear();
    }

    /// Defines a label at this place: it precedes operation number `op`.
    ///
    /// # Errors
    ///
    /// `Repeat` if the label is already defined, or `NoMemory`.
    pub fn define(&mut self, label: &[u8], at: u64, op: u32) -> Result<(), TokenFault>
        requires some { 0 < length label.now }
        requires short { length label.now ≤ run_limit }
        ensures ok { OnOk result ((ds : List Definition) (us : List Mention) → Keeps self.old.slots ds us →
            (defined_fault ds (Some (record { label = label.now; at = at })) ≡ None) × Keeps self.new.slots (ds ++ record { label = label.now; op = op } ∷ []) us) }
        ensures grows { OnOk result (Grows self.old.slots self.new.slots) }
        ensures fault { IfErr result (λ f. f ≢ TokenFault.NoMemory → (ds : List Definition) (us : List Mention) → Keeps self.old.slots ds us → defined_fault ds (Some (record { label = label.now; at = at })) ≡ Some (fault_in_text f)) }
    {
        let slot = LabelInfo { op: Some(op), at };
        let before = self.slots.insert(label, slot)?;
        match op_in(before) {
            Some(_) => Err(TokenFault::Repeat { at }),
            None => Ok(()),
        }
    }

    /// Returns the index of a label that is used at this place; it has a slot from now on.
    fn place(&mut self, label: &[u8], at: u64) -> Result<usize, AllocError>
        requires some { 0 < length label.now }
        requires short { length label.now ≤ run_limit }
        ensures kept { OnOk result ((ds : List Definition) (us : List Mention) → Keeps self.old.slots ds us →
            Keeps self.new.slots ds (us ++ record { label = label.now; at = at } ∷ [])) }
        ensures grows { OnOk result (Grows self.old.slots self.new.slots) }
        ensures within { IfOk result (λ slot. slot < length self.new.slots) }
        ensures label { IfOk result (λ slot. label_at self.new.slots slot ≡ label.now) }
    {
        let slot = self.slots.number(label, LabelInfo { op: None, at })?;
        Ok(slot)
    }

    /// Returns the slot of a label that is used at this place. `Err` means out of memory.
    pub fn mention(&mut self, label: &[u8], at: u64) -> Result<u32, AllocError>
        requires some { 0 < length label.now }
        requires short { length label.now ≤ run_limit }
        ensures kept { OnOk result ((ds : List Definition) (us : List Mention) → Keeps self.old.slots ds us →
            Keeps self.new.slots ds (us ++ record { label = label.now; at = at } ∷ [])) }
        ensures grows { OnOk result (Grows self.old.slots self.new.slots) }
        ensures within { IfOk result (λ slot. slot < length self.new.slots) }
        ensures label { IfOk result (λ slot. label_at self.new.slots slot ≡ label.now) }
    {
        let slot = self.place(label, at)?;
        // More slots than 32 bits can number count as out of memory.
        match u32::try_from(slot) {
            Ok(slot) => Ok(slot),
            Err(_) => Err(AllocError),
        }
    }

    /// Returns the number of a slot's operation, or 0 if it has none.
    pub fn op(&self, slot: u32) -> u32
        ensures { result ≡ op_at self.now.slots slot }
    {
        match self.slots.get(slot as usize) {
            Some(slot) => match slot.op {
                Some(op) => op,
                None => 0,
            },
            None => 0,
        }
    }

    /// Returns the place of the first label that is used and not defined, if any.
    pub fn first_unknown(&self) -> Option<u64>
        ensures { (ds : List Definition) (us : List Mention) → Keeps self.now.slots ds us → result ≡ first_unknown ds us }
    {
        for i in 0..self.slots.len() {
            if let Some(slot) = self.slots.get(i) {
                if slot.op.is_none() {
                    return Some(slot.at);
                }
            }
        }
        None
    }
}
