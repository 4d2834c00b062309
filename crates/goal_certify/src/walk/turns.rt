//! The queue of a walker: a set of places, which finds the least at once.
ghost use Rattle.std.specs.Prelude.{ℕ, ◌≡◌, ◌≢◌, ◌+◌, ◌*◌, ◌/◌, ◌^◌, ◌<◌, ◌≤◌, true, false, nat_lt, IsTrue, Some, None, IfSome, IfNone, IfOk, length, replicate, slice_set, slice_index};
ghost use Rattle.sim_queue.specs.Map.{key_at, IsEmptyMap, IsLeast};
ghost use Rattle.goal_certify.specs.Turns.{is_on};

use goal_limits::NoMemory;
use std::alloc::Global;
use std::marker::Model;

/// A set of places below a count. Each place is a bit of a word, and a bit of `heads` says for each word whether it is
/// 0, so 4,096 places without an element are skipped at once. Contracts see a list with an entry for each place: the
/// place if it is in the set, else `None`.
#[derive(Drop)]
pub struct Turns {
    words: Vec<u64>,
    heads: Vec<u64>,
    count: u32,
}

impl Model for Turns {
    ghost use Rattle.std.specs.Prelude.{ℕ, List, Option};
    ghost use Rattle.goal_certify.specs.Turns.{turns_of, AreTurns};

    ghost Value = { List (Option ℕ) };

    ghost view = { λ t. turns_of t.words.items t.count };

    ghost invariant = { λ t. AreTurns t.words.items t.heads.items t.count };
}

impl Turns {
    /// Creates an empty set for `count` places. It allocates all its memory here. `Err` means out of memory.
    pub fn new(alloc: Global, count: u32) -> Result<Turns, NoMemory>
        ensures { IfOk result (λ q. q ≡ replicate count None) }
    {
        let many = count as usize / 64 + 1;
        let words = vec![in alloc; 0; many]?;
        let heads = vec![in alloc; 0; many / 64 + 1]?;
        Ok(Turns {
            words,
            heads,
            count,
        })
    }

    /// Puts a place into the set.
    pub fn put(&mut self, place: u32)
        requires { place < length self.old }
        ensures { self.new ≡ slice_set self.old place (Some place) }
    {
        let at = place as usize;
        put_bit(&mut self.words, at);
        put_bit(&mut self.heads, at / 64);
    }

    /// Removes a place from the set.
    pub fn take(&mut self, place: u32)
        requires { place < length self.old }
        ensures { self.new ≡ slice_set self.old place None }
    {
        let at = place as usize;
        take_bit(&mut self.words, at);
        if self.words[at / 64] == 0 {
            take_bit(&mut self.heads, at / 64);
        }
    }

    /// Returns the least place in the set.
    pub fn least(&self) -> Option<u32>
        ensures none { IfNone result (IsEmptyMap self.now) }
        ensures least { IfSome result (λ place. IsLeast nat_lt self.now place place) }
    {
        let Some(at) = first_some(&self.heads) else {
            return None;
        };
        let word = lowest(&self.heads, at);
        let place = lowest(&self.words, word);
        Some(place as u32)
    }
}

// The index of the first word that is not 0.
fn first_some(words: &[u64]) -> Option<usize>
    ensures within { IfSome result (λ at. at < length words.now) }
    ensures some { IfSome result (λ at. 0 < slice_index words.now at) }
    ensures first { IfSome result (λ at. (a : ℕ) → a < at → slice_index words.now a ≡ 0) }
    ensures none { IfNone result ((a : ℕ) → slice_index words.now a ≡ 0) }
{
    for at in 0..words.len() {
        if words[at] != 0 {
            return Some(at);
        }
    }
    None
}

// The index of the lowest 1 bit of a word that is not 0.
fn lowest(words: &[u64], word: usize) -> usize
    requires within { word < length words.now }
    requires few { word < 2 ^ 32 }
    requires some { 0 < slice_index words.now word }
    ensures on { is_on words.now result ≡ true }
    ensures of_word { result / 64 ≡ word }
    ensures lowest { (k : ℕ) → k / 64 ≡ word → k < result → is_on words.now k ≡ false }
{
    64 * word + words[word].trailing_zeros() as usize
}

// Sets the bit to 1.
fn put_bit(words: &mut Vec<u64>, at: usize)
    requires { at / 64 < length words.old.items }
    ensures on { is_on words.new.items at ≡ true }
    ensures others { (k : ℕ) → k ≢ at → is_on words.new.items k ≡ is_on words.old.items k }
    ensures words { (w : ℕ) → w ≢ at / 64 → slice_index words.new.items w ≡ slice_index words.old.items w }
    ensures many { length words.new.items ≡ length words.old.items }
{
    words[at / 64] |= 1 << (at % 64);
}

// Sets the bit to 0.
fn take_bit(words: &mut Vec<u64>, at: usize)
    requires { at / 64 < length words.old.items }
    ensures off { is_on words.new.items at ≡ false }
    ensures others { (k : ℕ) → k ≢ at → is_on words.new.items k ≡ is_on words.old.items k }
    ensures words { (w : ℕ) → w ≢ at / 64 → slice_index words.new.items w ≡ slice_index words.old.items w }
    ensures less { slice_index words.new.items (at / 64) ≤ slice_index words.old.items (at / 64) }
    ensures many { length words.new.items ≡ length words.old.items }
{
    words[at / 64] &= !(1 << (at % 64));
}
