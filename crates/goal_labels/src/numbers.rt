//! Numbers of labels.
ghost use Rattle.std.specs.Prelude.{◌≡◌, ℕ, ◌<◌, ◌≤◌, List, Some, None, length, bytes_eq, if◌then◌else◌, OnOk};
ghost use Rattle.goal_limits.specs.Limits.{run_limit};
ghost use Rattle.goal_labels.specs.Numbers.{number_of, AreFew};

use crate::sorted::Sorted;
use goal_lexer::Label;
use indexmap::IndexMap;
use std::alloc::{AllocError, Global};
use std::collections::BTreeMap;

/// The most labels that are found by their hashes. If all have one hash, a lookup compares each of them.
const MOST_HASHED: usize = 1024;

/// Labels with their numbers, found by their hashes. The author of a text can choose labels with equal hashes, so
/// labels beyond [`MOST_HASHED`] are found in an ordered map.
#[derive(Drop)]
pub struct LabelNumbers {
    /// The first labels, at most [`MOST_HASHED`].
    pub hashed: IndexMap<Label, usize>,
    /// The labels after them.
    pub ordered: BTreeMap<Sorted, usize>,
}

impl LabelNumbers {
    /// Creates an empty table.
    pub fn new(alloc: Global) -> LabelNumbers
        ensures none { (label : List ℕ) → number_of result label ≡ None }
        ensures few { AreFew result }
    {
        LabelNumbers {
            hashed: IndexMap::new(alloc),
            ordered: BTreeMap::new(alloc),
        }
    }

    /// Removes all labels, and keeps their memory.
    pub fn clear(&mut self)
        ensures none { (label : List ℕ) → number_of self.new label ≡ None }
        ensures few { AreFew self.new }
    {
        self.hashed.clear();
        self.ordered.clear();
    }

    /// Returns the number of a label of 1 to 64 bytes, if it has one.
    pub fn get(&self, label: &[u8]) -> Option<usize>
        requires some { 0 < length label.now }
        requires short { length label.now ≤ run_limit }
        ensures { result ≡ number_of self.now label.now }
    {
        if let Some(number) = self.hashed.get(&Label::of(label)) {
            return Some(*number);
        }
        match self.ordered.get(&Sorted::of(label)) {
            Some(number) => Some(*number),
            None => None,
        }
    }

    /// Gives a number to a label of 1 to 64 bytes that has none. `Err` means out of memory.
    pub fn insert(&mut self, label: &[u8], number: usize) -> Result<(), AllocError>
        requires some { 0 < length label.now }
        requires short { length label.now ≤ run_limit }
        requires absent { number_of self.old label.now ≡ None }
        ensures numbered { OnOk result ((other : List ℕ) → number_of self.new other ≡ if bytes_eq label.now other then Some number else number_of self.old other) }
        ensures few { OnOk result (AreFew self.old → AreFew self.new) }
    {
        if self.hashed.len() < MOST_HASHED {
            self.hashed.insert(Label::of(label), number)?;
        } else {
            self.ordered.insert(Sorted::of(label), number)?;
        }
        Ok(())
    }
}
