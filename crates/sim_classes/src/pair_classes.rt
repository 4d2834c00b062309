//! The classes that a machine gives for pairs of nodes.
ghost use Rattle.std.specs.Prelude.{◌≡◌, Some, IfOk, IfSome};
ghost use Rattle.std.specs.Ordering.{nat_cmp};
ghost use Rattle.std.specs.List.Sorted.{IsStrictlySortedBy};
ghost use Rattle.std.specs.Map.{keys_of, lookup};
ghost use Rattle.std.specs.BTreeMap.{is_at};
ghost use Rattle.sim_classes.specs.Parts.{pair_key, pair_class_by};
ghost use Rattle.sim_classes.specs.Rows.{AreStarts, IsRow};

use std::alloc::{AllocError, Global};
use std::collections::BTreeMap;
use std::marker::Model;

/// The classes given for pairs of nodes, each at the key of its pair, in the order of the keys. Contracts see this
/// list.
#[derive(Drop)]
pub(crate) struct PairClasses {
    entries: Vec<(u64, u32)>,
    // the start of the entries from each node, and last the end of all
    starts: Vec<usize>,
}

impl Model for PairClasses {
    ghost use Rattle.std.specs.Prelude.{List, ℕ};

    ghost Value = { List (ℕ × ℕ) };

    ghost view = { λ t. t.entries.items };

    ghost use Rattle.sim_classes.specs.Rows.{AreInRows};

    ghost invariant = { λ t. AreInRows t.entries.items t.starts.items };
}

// Returns the key of a pair of nodes. Keys are in the order of the pairs.
pub(crate) fn pair_key(a: u32, b: u32) -> u64
    ensures { result ≡ pair_key a b }
{
    u64::from(a) * 4_294_967_296 + u64::from(b)
}

// Returns the start of the entries from each node, and last the end of those from the greatest.
fn starts_of(alloc: Global, entries: &[(u64, u32)]) -> Result<Vec<usize>, AllocError>
    requires { IsStrictlySortedBy nat_cmp (keys_of entries.now) }
    ensures { IfOk result (λ starts. AreStarts entries.now starts.items) }
{
    let nodes = match entries.last() {
        Some(entry) => (entry.0 / 4_294_967_296).saturating_add(2),
        None => 0,
    };
    let mut starts = Vec::new(alloc);
    for node in 0..nodes {
        starts.push(entries.partition_point(|entry| entry.0 / 4_294_967_296 < node))?;
    }
    Ok(starts)
}

impl PairClasses {
    /// Builds the table of a map. `Err` means out of memory.
    pub(crate) fn of(alloc: Global, map: BTreeMap<u64, u32>) -> Result<PairClasses, AllocError>
        ensures { IfOk result (λ pair_classes. pair_classes ≡ map.entries) }
    {
        let mut entries = Vec::with_capacity(alloc, map.len())?;
        for entry in map {
            entries.push(entry)?;
        }
        let starts = starts_of(alloc, &entries)?;
        Ok(PairClasses { entries, starts })
    }

    // Returns the places of all entries from a node: the first, and the one after the last.
    fn row(&self, node: u32) -> (usize, usize)
        ensures { IsRow self.now node result.0 result.1 }
    {
        let node = node as usize;
        if node + 1 < self.starts.len() {
            (self.starts[node], self.starts[node + 1])
        } else {
            (0, self.entries.len())
        }
    }

    // Guesses the place of the entry of a pair, as if the entries of the first node were those of successive nodes. The
    // caller must check the guess by the key at that place.
    fn guess(&self, a: u32, b: u32) -> usize {
        let start = self.row(a).0;
        match self.entries.get(start) {
            Some(entry) => start
                .wrapping_add(b as usize)
                .wrapping_sub((entry.0 % 4_294_967_296) as usize),
            None => start,
        }
    }

    // Returns the class at a key, if that is at this place.
    fn class_at(&self, place: usize, key: u64) -> Option<u32>
        ensures { IfSome result (λ class. lookup (is_at (nat_cmp key)) self.now ≡ Some class) }
    {
        match self.entries.get(place) {
            Some(entry) if entry.0 == key => Some(entry.1),
            Some(_) | None => None,
        }
    }

    // Returns the class given for two nodes by binary search in the row of the first.
    fn search(&self, a: u32, b: u32) -> Option<u32>
        ensures { result ≡ pair_class_by self.now a b }
    {
        let (start, end) = self.row(a);
        let row = &self.entries[start..end];
        match row.binary_search_by_key(&pair_key(a, b), |entry| entry.0) {
            Ok(at) => Some(row[at].1),
            Err(_) => None,
        }
    }

    /// Returns the class given for two nodes, if any. It is found without a search if the entries of the first node are
    /// those of all nodes from some node on, with or without itself.
    pub(crate) fn class(&self, a: u32, b: u32) -> Option<u32>
        ensures { result ≡ pair_class_by self.now a b }
    {
        let key = pair_key(a, b);
        let guess = self.guess(a, b);
        match self.class_at(guess, key) {
            Some(class) => Some(class),
            None => match self.class_at(guess.wrapping_sub(1), key) {
                Some(class) => Some(class),
                None => self.search(a, b),
            },
        }
    }
}
