//! The order of lists: that in which operations that have them are seen.
ghost use Rattle.std.specs.Prelude.{◌≡◌, ◌<◌, ◌≤◌, ◌+◌, ◌-◌, ◌^◌, [], List, Option, Some, is_some, length, slice_get, IfOk};
ghost use Rattle.std.specs.Option.{IfSome};
ghost use Rattle.sim_match.specs.declared.pattern.Pattern.{Pattern};
ghost use Rattle.sim_match.specs.Patterns.{number, list_number};
ghost use Rattle.sim_match.specs.ListNumbers.{coded};
ghost use Rattle.sim_match.specs.ListOrder.{AreGiven, Grows};

use crate::pattern::{Pattern, Patterns};
use sim_order::Past;
use std::alloc::{AllocError, Global};

/// The code of an operation without a list.
pub const NO_LIST: u32 = u32::MAX;

/// For each pattern of a schedule, by its place, the number of its list, or `NO_LIST` until it gets one. Numbers are
/// given in the order in which operations with these patterns are seen, so that lists that are used one after another
/// are side by side.
#[derive(Drop)]
pub struct ListOrder {
    /// The number of the list of each pattern, or `NO_LIST`.
    pub numbers: Vec<u32>,
    /// How many numbers were given.
    pub count: u32,
    /// The patterns that have a number, in order, for proofs only.
    pub keys: Past<Pattern>,
}

impl ListOrder {
    /// Creates an order in which no pattern has a number. `Err` means out of memory.
    pub fn new(alloc: Global, patterns: &Patterns) -> Result<ListOrder, AllocError>
        ensures given { IfOk result (λ order. AreGiven patterns.now order) }
        ensures none { IfOk result (λ order. order.keys.items ≡ []) }
    {
        Ok(ListOrder {
            numbers: vec![in alloc; NO_LIST; patterns.len()]?,
            count: 0,
            keys: Past::new(),
        })
    }

    // Gives the next number to the pattern at that place, which has none.
    fn add(&mut self, patterns: &Patterns, place: usize) -> u32
        requires given { AreGiven patterns.now self.old }
        requires few { self.old.count + 1 < 2 ^ 32 - 1 }
        requires none { slice_get self.old.numbers.items place ≡ Some NO_LIST }
        ensures given { AreGiven patterns.now self.new }
        ensures number { (p : Pattern) → number patterns.now p ≡ Some place → number self.new.keys.items p ≡ Some result }
        ensures grows { Grows self.old self.new }
    {
        let number = self.count;
        self.numbers[place] = number;
        self.count += 1;
        self.keys.push(patterns.at(place));
        number
    }

    /// Returns the code of the number of the pattern at that place. If it has none, it gets the next one.
    #[inline(always)]
    pub fn give(&mut self, patterns: &Patterns, place: Option<usize>) -> u32
        requires given { AreGiven patterns.now self.old }
        requires within { IfSome place (λ at. at < length patterns.now) }
        requires few { self.old.count + 1 < 2 ^ 32 - 1 }
        ensures given { AreGiven patterns.now self.new }
        ensures number { (p : Option Pattern) → list_number patterns.now p ≡ place → result ≡ coded (list_number self.new.keys.items p) }
        ensures has { (p : Option Pattern) → list_number patterns.now p ≡ place → is_some (list_number self.new.keys.items p) ≡ is_some place }
        ensures grows { Grows self.old self.new }
    {
        match place {
            None => NO_LIST,
            Some(place) => {
                let number = self.numbers[place];
                if number == NO_LIST {
                    self.add(patterns, place)
                } else {
                    number
                }
            }
        }
    }

    /// Returns the code of the number of the pattern at that place.
    #[inline(always)]
    pub fn number(&self, place: Option<usize>) -> u32
        requires { IfSome place (λ at. at < length self.now.numbers.items) }
        ensures { (patterns : List Pattern) (p : Option Pattern) → AreGiven patterns self.now → list_number patterns p ≡ place → result ≡ coded (list_number self.now.keys.items p) }
    {
        match place {
            None => NO_LIST,
            Some(place) => self.numbers[place],
        }
    }
}
