//! A map from labels to what is known of them, in the order of their first appearance.
ghost use Rattle.std.specs.Prelude.{◌≡◌, ℕ, ◌^◌, ◌<◌, ◌≤◌, true, List, [], ◌∷◌, ◌++◌, Some, None, length, slice_get, bytes_eq, IfSome, IfNone, IfOk, OnOk};
ghost use Rattle.std.specs.Map.{lookup};
ghost use Rattle.goal_limits.specs.Limits.{run_limit};
ghost use Rattle.goal_labels.specs.Entries.{Entries, put, is_at, label_of, entries_of, IsAt, IsAbsent, IsHeld, AreUnique, AreHeld};
ghost use Rattle.goal_labels.specs.Numbers.{number_of, AreFew};
ghost use Rattle.goal_labels.specs.Ordered.{label_cmp, AreAscending, AreBefore};
ghost use Rattle.goal_labels.specs.Indexed.{IsMap};

use crate::numbers::LabelNumbers;
use goal_lexer::begin_alike;
use std::alloc::{AllocError, Global};
use std::cmp::Ordering;
use std::marker::Model;

/// What is known of a label.
#[derive(Clone, Copy, PartialEq, Eq)]
pub struct LabelInfo {
    /// The number of its operation, or `None` while it is not defined.
    pub op: Option<u32>,
    /// The place of its first appearance in the text, which matters while it is not defined.
    pub at: u64,
}

/// A label's info, and the place of its bytes among those of all labels.
#[derive(Clone, Copy)]
pub struct LabelEntry {
    /// What is known of the label.
    pub info: LabelInfo,
    /// The place of its first byte.
    pub from: u32,
    /// The number of its bytes, 1 to 64.
    pub len: u32,
}

/// Labels with their infos, in the order of their first appearance. Contracts see the list of them.
///
/// Most texts number their labels and define them in that order. Such labels form an ascending run: a label is appended
/// to it, and binary search finds it. All labels outside the run have an entry in [`LabelNumbers`].
pub struct LabelMap {
    entries: Vec<LabelEntry>,
    // The bytes of all labels, one after another, so that a short label takes little memory.
    bytes: Vec<u8>,
    // The number of the first label of the run.
    first: usize,
    // The number after the last label of the run.
    ascending: usize,
    // The numbers of all other labels.
    numbers: LabelNumbers,
    // The numbers of the last two mentions, the last one first. They only save time: any values are right.
    recent: [usize; 2],
}

// A function, instead of a field by field drop: callers are then shorter to prove.
impl Drop for LabelMap {
    fn drop(self) {
        let LabelMap {
            entries: _entries,
            bytes: _bytes,
            first: _,
            ascending: _,
            numbers: _numbers,
            recent: _,
        } = self;
    }
}

impl Model for LabelMap {
    ghost use Rattle.goal_labels.specs.Entries.{Entries, entries_of, AreHeld};

    ghost Value = { Entries };

    ghost use Rattle.goal_labels.specs.Indexed.{IsMap};

    ghost view = { λ m. entries_of m.bytes.items m.entries.items };

    ghost invariant = { λ m. AreHeld m.bytes.items m.entries.items × IsMap (entries_of m.bytes.items m.entries.items) m.first m.ascending m.numbers };
}

// The label of an entry.
fn label_of<'a>(bytes: &'a [u8], entry: &LabelEntry) -> &'a [u8]
    requires held { IsHeld bytes.now entry.now }
    ensures { result.now ≡ label_of bytes.now entry.now }
{
    let from = entry.from as usize;
    &bytes[from..from + entry.len as usize]
}

// Returns whether two labels of one length are the same. Most are short: up to 8 bytes are compared at once, from both
// ends.
#[inline(always)]
fn are_same(one: &[u8], other: &[u8]) -> bool
    requires { length one.now ≡ length other.now }
    ensures { result ≡ bytes_eq one.now other.now }
{
    let count = one.len();
    if 4 <= count && count <= 8 {
        let far = count - 4;
        return begin_alike(&one[far..], &other[far..]) && begin_alike(one, other);
    }
    if 0 < count && count < 4 {
        let last = count - 1;
        let middle = count / 2;
        return one[last] == other[last] && one[middle] == other[middle] && one[0] == other[0];
    }
    one == other
}

// Returns whether entry `i` has this label. The lengths are compared first, since that is cheapest.
#[inline(always)]
fn is_at(entries: &[LabelEntry], bytes: &[u8], label: &[u8], i: usize) -> bool
    requires held { AreHeld bytes.now entries.now }
    ensures { result ≡ is_at (entries_of bytes.now entries.now) label.now i }
{
    match entries.get(i) {
        Some(entry) => entry.len as usize == label.len() && are_same(label_of(bytes, entry), label),
        None => false,
    }
}

// Returns the last byte of a label, or 0 if it has none.
#[inline(always)]
fn last_of(label: &[u8]) -> usize
    ensures { result < 2 ^ 8 }
{
    match label.last() {
        Some(byte) => usize::from(*byte),
        None => 0,
    }
}

// Guesses the number of a label that is at most 5 labels away from label number `near`. Numbered labels are as far
// apart as their last digits, modulo 10. Any result is right: the caller compares the label there.
#[inline(always)]
fn number_near(entries: &[LabelEntry], bytes: &[u8], label: &[u8], near: usize) -> usize
    requires held { AreHeld bytes.now entries.now }
{
    let Some(entry) = entries.get(near) else {
        return near;
    };
    let here = last_of(label);
    let there = last_of(label_of(bytes, entry));
    let number = near.wrapping_add(here).wrapping_sub(there);
    if here + 5 < there {
        number.wrapping_add(10)
    } else if there + 5 < here {
        number.wrapping_sub(10)
    } else {
        number
    }
}

// Compares labels by their lengths, and those of one length by their bytes.
#[inline(always)]
fn order(one: &[u8], other: &[u8]) -> Ordering
    ensures { result ≡ label_cmp one.now other.now }
{
    match one.len().cmp(&other.len()) {
        Ordering::Equal => one.cmp(other),
        unequal => unequal,
    }
}

// Returns the number of a label, if it is one of those from number `first` up to, but not including, `ascending`.
fn search(
    entries: &[LabelEntry],
    bytes: &[u8],
    first: usize,
    ascending: usize,
    label: &[u8],
) -> Option<usize>
    requires held { AreHeld bytes.now entries.now }
    requires within { ascending ≤ length entries.now }
    requires ascending { AreAscending (entries_of bytes.now entries.now) first ascending }
    ensures found { IfSome result (IsAt (entries_of bytes.now entries.now) label.now) }
    ensures absent { IfNone result ((i : ℕ) → first ≤ i → i < ascending → IsAt (entries_of bytes.now entries.now) label.now i → ⊥) }
{
    let mut low = first;
    let mut high = ascending;
    while low < high {
        let middle = low + (high - low) / 2;
        match order(label_of(bytes, &entries[middle]), label) {
            Ordering::Less => low = middle + 1,
            Ordering::Equal => return Some(middle),
            Ordering::Greater => high = middle,
        }
    }
    None
}

// Returns whether this label comes after the last one: true only if it also comes after every ascending label up to
// that one.
#[inline(always)]
fn comes_after_last(entries: &[LabelEntry], bytes: &[u8], label: &[u8]) -> bool
    requires held { AreHeld bytes.now entries.now }
    ensures { result ≡ true → (first : ℕ) → AreAscending (entries_of bytes.now entries.now) first (length entries.now) → AreBefore (entries_of bytes.now entries.now) first label.now }
{
    let Some(last) = entries.last() else {
        return true;
    };
    match order(label_of(bytes, last), label) {
        Ordering::Less => true,
        Ordering::Equal | Ordering::Greater => false,
    }
}

// Returns the number of a label.
fn find(
    entries: &[LabelEntry],
    bytes: &[u8],
    first: usize,
    ascending: usize,
    numbers: &LabelNumbers,
    label: &[u8],
) -> Option<usize>
    requires some { 0 < length label.now }
    requires short { length label.now ≤ run_limit }
    requires held { AreHeld bytes.now entries.now }
    requires map { IsMap (entries_of bytes.now entries.now) first ascending numbers.now }
    ensures found { IfSome result (IsAt (entries_of bytes.now entries.now) label.now) }
    ensures absent { IfNone result (IsAbsent (entries_of bytes.now entries.now) label.now) }
{
    if 0 < first && ascending == entries.len() && comes_after_last(entries, bytes, label) {
        return numbers.get(label);
    }
    match search(entries, bytes, first, ascending, label) {
        Some(i) => Some(i),
        None => numbers.get(label),
    }
}

// Appends an entry with a label that has none.
#[inline(always)]
fn hold(
    entries: &mut Vec<LabelEntry>,
    bytes: &mut Vec<u8>,
    label: &[u8],
    info: LabelInfo,
) -> Result<(), AllocError>
    requires some { 0 < length label.now }
    requires short { length label.now ≤ run_limit }
    requires held { AreHeld bytes.old.items entries.old.items }
    ensures entries { OnOk result (entries_of bytes.new.items entries.new.items ≡ entries_of bytes.old.items entries.old.items ++ (label.now, info) ∷ []) }
    ensures held { OnOk result (AreHeld bytes.new.items entries.new.items) }
{
    let Ok(from) = u32::try_from(bytes.len()) else {
        return Err(AllocError);
    };
    bytes.extend_from_slice(label)?;
    entries.push(LabelEntry {
        info,
        from,
        len: label.len() as u32,
    })?;
    Ok(())
}

// Returns whether a new label joins the end of the run. If it is out of order and the run is one label, the last of
// all, that label gets a number, and the new label begins a run.
#[inline(always)]
fn join_run(
    entries: &[LabelEntry],
    bytes: &[u8],
    first: &mut usize,
    ascending: usize,
    numbers: &mut LabelNumbers,
    label: &[u8],
    after_all: bool,
) -> Result<bool, AllocError>
    requires held { AreHeld bytes.now entries.now }
    requires map { IsMap (entries_of bytes.now entries.now) first.old ascending numbers.old }
    requires before { after_all ≡ true → AreBefore (entries_of bytes.now entries.now) 0 label.now }
    ensures map { OnOk result (IsMap (entries_of bytes.now entries.now) first.new ascending numbers.new) }
    ensures all { IfOk result (λ joins. joins ≡ true → ascending ≡ length entries.now) }
    ensures before { IfOk result (λ joins. joins ≡ true → AreBefore (entries_of bytes.now entries.now) first.new label.now) }
{
    if ascending != entries.len() {
        return Ok(false);
    }
    if after_all || comes_after_last(entries, bytes, label) {
        return Ok(true);
    }
    if *first + 1 != ascending {
        return Ok(false);
    }
    let number = *first;
    numbers.insert(label_of(bytes, &entries[number]), number)?;
    *first = ascending;
    Ok(true)
}

// Appends a label that has no entry. It joins the run, or gets a number.
#[inline(always)]
fn append(
    entries: &mut Vec<LabelEntry>,
    bytes: &mut Vec<u8>,
    first: &mut usize,
    ascending: &mut usize,
    numbers: &mut LabelNumbers,
    label: &[u8],
    info: LabelInfo,
    after_all: bool,
) -> Result<(), AllocError>
    requires some { 0 < length label.now }
    requires short { length label.now ≤ run_limit }
    requires held { AreHeld bytes.old.items entries.old.items }
    requires map { IsMap (entries_of bytes.old.items entries.old.items) first.old ascending.old numbers.old }
    requires absent { IsAbsent (entries_of bytes.old.items entries.old.items) label.now }
    requires before { after_all ≡ true → AreBefore (entries_of bytes.old.items entries.old.items) 0 label.now }
    ensures entries { OnOk result (entries_of bytes.new.items entries.new.items ≡ entries_of bytes.old.items entries.old.items ++ (label.now, info) ∷ []) }
    ensures held { OnOk result (AreHeld bytes.new.items entries.new.items) }
    ensures map { OnOk result (IsMap (entries_of bytes.new.items entries.new.items) first.new ascending.new numbers.new) }
{
    let number = entries.len();
    let joins = join_run(entries, bytes, first, *ascending, numbers, label, after_all)?;
    hold(entries, bytes, label, info)?;
    if joins {
        *ascending = number + 1;
        return Ok(());
    }
    numbers.insert(label, number)
}

// Removes all labels. Nothing need be known of them: an append that ran out of memory may leave any state.
fn forget(
    entries: &mut Vec<LabelEntry>,
    bytes: &mut Vec<u8>,
    first: &mut usize,
    ascending: &mut usize,
    numbers: &mut LabelNumbers,
)
    ensures entries { entries.new.items ≡ [] }
    ensures first { first.new ≡ 0 }
    ensures ascending { ascending.new ≡ 0 }
    ensures none { (label : List ℕ) → number_of numbers.new label ≡ None }
    ensures few { AreFew numbers.new }
{
    entries.truncate(0);
    bytes.truncate(0);
    *first = 0;
    *ascending = 0;
    numbers.clear();
}

impl LabelMap {
    /// Creates a map without labels.
    pub fn new(alloc: Global) -> LabelMap
        ensures { result ≡ [] }
    {
        LabelMap {
            entries: Vec::new(alloc),
            bytes: Vec::new(alloc),
            first: 0,
            ascending: 0,
            numbers: LabelNumbers::new(alloc),
            recent: [0; 2],
        }
    }

    /// Removes all labels, and keeps their memory.
    pub fn clear(&mut self)
        ensures { self.new ≡ [] }
    {
        forget(
            &mut self.entries,
            &mut self.bytes,
            &mut self.first,
            &mut self.ascending,
            &mut self.numbers,
        );
    }

    /// Returns the number of labels.
    pub fn len(&self) -> usize
        ensures { result ≡ length self.now }
    {
        self.entries.len()
    }

    /// Returns the info of label number `i`, from 0, or `None` if there is no such label.
    pub fn get(&self, i: usize) -> Option<LabelInfo>
        ensures some { IfSome result (λ info. (label : List ℕ) × (slice_get self.now i ≡ Some (label, info)) × (lookup (bytes_eq label) self.now ≡ Some info)) }
        ensures none { IfNone result (length self.now ≤ i) }
    {
        match self.entries.get(i) {
            Some(entry) => Some(entry.info),
            None => None,
        }
    }

    // Returns the number of a label.
    #[inline(never)]
    fn find(&self, label: &[u8]) -> Option<usize>
        requires some { 0 < length label.now }
        requires short { length label.now ≤ run_limit }
        ensures found { IfSome result (IsAt self.now label.now) }
        ensures absent { IfNone result (IsAbsent self.now label.now) }
        ensures unique { AreUnique self.now }
    {
        find(
            &self.entries,
            &self.bytes,
            self.first,
            self.ascending,
            &self.numbers,
            label,
        )
    }

    // Returns whether all labels ascend and this one comes after the last: true only if it comes after all.
    #[inline(always)]
    fn comes_after_all(&self, label: &[u8]) -> bool
        ensures { result ≡ true → AreBefore self.now 0 label.now }
    {
        self.first == 0
            && self.ascending == self.entries.len()
            && comes_after_last(&self.entries, &self.bytes, label)
    }

    // Returns the number of a label near the one mentioned before the last. A dependency mentions two labels, and most
    // continue the last one, as `l4 requires l3` does after `l3 requires l2`.
    #[inline(always)]
    fn find_near(&mut self, label: &[u8]) -> Option<usize>
        ensures found { IfSome result (IsAt self.new label.now) }
        ensures unique { AreUnique self.new }
        ensures kept { self.new ≡ self.old }
    {
        let [last, before] = self.recent;
        let guess = number_near(&self.entries, &self.bytes, label, before);
        if !is_at(&self.entries, &self.bytes, label, guess) {
            return None;
        }
        self.recent = [guess, last];
        Some(guess)
    }

    // Appends a label that has no entry.
    #[inline(always)]
    fn add(&mut self, label: &[u8], info: LabelInfo, after_all: bool) -> Result<(), AllocError>
        requires some { 0 < length label.now }
        requires short { length label.now ≤ run_limit }
        requires absent { IsAbsent self.old label.now }
        requires before { after_all ≡ true → AreBefore self.old 0 label.now }
        ensures { OnOk result (self.new ≡ self.old ++ (label.now, info) ∷ []) }
    {
        let added = append(
            &mut self.entries,
            &mut self.bytes,
            &mut self.first,
            &mut self.ascending,
            &mut self.numbers,
            label,
            info,
            after_all,
        );
        if added.is_err() {
            forget(
                &mut self.entries,
                &mut self.bytes,
                &mut self.first,
                &mut self.ascending,
                &mut self.numbers,
            );
        }
        added
    }

    /// Gives an info to a label of 1 to 64 bytes, and returns the one that it had, if any. On `Err` (out of memory) the
    /// map may lose its labels.
    pub fn insert(&mut self, label: &[u8], info: LabelInfo) -> Result<Option<LabelInfo>, AllocError>
        requires some { 0 < length label.now }
        requires short { length label.now ≤ run_limit }
        ensures old { IfOk result (λ old. old ≡ lookup (bytes_eq label.now) self.old) }
        ensures entries { OnOk result (self.new ≡ put self.old label.now info) }
    {
        if self.comes_after_all(label) {
            self.add(label, info, true)?;
            return Ok(None);
        }
        match self.find(label) {
            Some(i) => {
                let old = self.entries[i].info;
                self.entries[i].info = info;
                Ok(Some(old))
            }
            None => {
                self.add(label, info, false)?;
                Ok(None)
            }
        }
    }

    // Returns the number of a label, wherever it is. A new label gets this info.
    #[inline(never)]
    fn number_anywhere(&mut self, label: &[u8], info: LabelInfo) -> Result<usize, AllocError>
        requires some { 0 < length label.now }
        requires short { length label.now ≤ run_limit }
        ensures old { OnOk result ((there : LabelInfo) → lookup (bytes_eq label.now) self.old ≡ Some there → self.new ≡ self.old) }
        ensures new { OnOk result (lookup (bytes_eq label.now) self.old ≡ None → self.new ≡ put self.old label.now info) }
        ensures number { IfOk result (IsAt self.new label.now) }
    {
        if let Some(i) = self.find(label) {
            self.recent = [i, self.recent[0]];
            return Ok(i);
        }
        let number = self.entries.len();
        self.add(label, info, false)?;
        Ok(number)
    }

    /// Returns the number of a label of 1 to 64 bytes. A new label gets this info. On `Err` (out of memory) the map may
    /// lose its labels.
    pub fn number(&mut self, label: &[u8], info: LabelInfo) -> Result<usize, AllocError>
        requires some { 0 < length label.now }
        requires short { length label.now ≤ run_limit }
        ensures old { OnOk result ((there : LabelInfo) → lookup (bytes_eq label.now) self.old ≡ Some there → self.new ≡ self.old) }
        ensures new { OnOk result (lookup (bytes_eq label.now) self.old ≡ None → self.new ≡ put self.old label.now info) }
        ensures number { IfOk result (IsAt self.new label.now) }
    {
        if let Some(i) = self.find_near(label) {
            return Ok(i);
        }
        self.number_anywhere(label, info)
    }
}
