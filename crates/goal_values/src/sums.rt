//! Values that are given by their origin.
ghost use Rattle.std.specs.Prelude.{ℕ, ◌≡◌, ◌+◌, ◌^◌, ◌<◌, ◌++◌, [], length, IfOk, IfSome, OnOk};
ghost use Rattle.goal_values.specs.declared.sums.Term.TheVariants.{One};
ghost use Rattle.goal_blocks.specs.Values.{merge};
ghost use Rattle.goal_blocks.specs.Stored.{IsSorted};
ghost use Rattle.goal_values.specs.Sums.{meaning, IsBelow, HasGrown};
ghost use Rattle.goal_values.specs.Parts.{HasSame, AreSums, values_of_sums};

use goal_blocks::Contribution;
use goal_limits::NoMemory;
use std::alloc::{AllocError, Global};
use std::marker::Model;

/// A value, given by its origin. Its contributions follow from the sums among which it was made.
#[derive(Clone, Copy, Debug)]
pub enum Term {
    /// No contribution.
    Nothing,
    /// This contribution alone.
    One(Contribution),
    /// The sum with this number, from 0, among the sums.
    Made(usize),
}

/// The sum of two values, neither of which is empty, and the number of its contributions.
#[derive(Clone, Copy)]
struct Sum {
    left: Term,
    right: Term,
    size: u64,
}

/// Sums of values, each of values that existed before. Contracts see the list of their values.
#[derive(Drop)]
pub struct Sums {
    list: Vec<Sum>,
}

impl Model for Sums {
    ghost use Rattle.std.specs.Prelude.{List, []};
    ghost use Rattle.goal_blocks.specs.declared.contribution.Contribution.{Contribution};
    ghost use Rattle.goal_values.specs.Parts.{values_of_sums, AreSums};

    ghost Value = { List (List Contribution) };

    ghost view = { λ s. values_of_sums [] s.list.items };

    ghost invariant = { λ s. AreSums s.list.items };
}

impl Sums {
    /// Creates a list without sums.
    pub fn new(alloc: Global) -> Sums
        ensures { result ≡ [] }
    {
        Sums {
            list: Vec::new(alloc),
        }
    }

    /// Returns the number of contributions of a value.
    pub fn size(&self, term: Term) -> u64
        requires { IsBelow (length self.now) term }
        ensures { result ≡ length (meaning self.now term) }
    {
        match term {
            Term::Nothing => 0,
            Term::One(_) => 1,
            Term::Made(number) => self.list[number].size,
        }
    }

    /// Returns the sum of two values, without reading either. All values so far are unchanged. `Err` means out of
    /// memory.
    pub fn add(&mut self, left: Term, right: Term) -> Result<Term, NoMemory>
        requires left { IsBelow (length self.old) left }
        requires right { IsBelow (length self.old) right }
        requires room { length (meaning self.old left) + length (meaning self.old right) < 2 ^ 64 }
        ensures sum { IfOk result (λ t. meaning self.new t ≡ merge (meaning self.old left) (meaning self.old right)) }
        ensures below { IfOk result (λ t. IsBelow (length self.new) t) }
        ensures grown { HasGrown self.old self.new }
    {
        let number = self.list.len();
        let left_size = self.size(left);
        let right_size = self.size(right);
        if left_size == 0 {
            return Ok(right);
        }
        if right_size == 0 {
            return Ok(left);
        }
        let size = left_size + right_size;
        self.list.push(Sum { left, right, size })?;
        Ok(Term::Made(number))
    }

    /// Returns the contributions of a value, sorted. `Err` means out of memory.
    pub fn list(&self, alloc: Global, term: Term) -> Result<Vec<Contribution>, NoMemory>
        requires { IsBelow (length self.now) term }
        ensures list { IfOk result (λ v. v.items ≡ meaning self.now term) }
        ensures sorted { IfOk result (λ v. IsSorted v.items) }
    {
        let _sums = &self.list;
        let mut list = self.gathered(alloc, term)?;
        list.sort()?;
        Ok(list)
    }

    // Returns the contributions of a value, in any order.
    fn gathered(&self, alloc: Global, term: Term) -> Result<Vec<Contribution>, AllocError>
        requires { IsBelow (length self.now) term }
        ensures { IfOk result (λ v. HasSame v.items (meaning self.now term)) }
    {
        let mut list = Vec::with_capacity(alloc, self.size(term) as usize)?;
        gather(alloc, &self.list, term, &mut list)?;
        Ok(list)
    }
}

// Returns the right part of a sum, if it is a single contribution.
fn right_one(sum: &Sum) -> Option<Contribution>
    ensures { IfSome result (λ c. sum.now.right ≡ One c) }
{
    match sum.right {
        Term::One(contribution) => Some(contribution),
        Term::Made(_) | Term::Nothing => None,
    }
}

// Appends the contributions of a value to the list. For each sum that it opens it continues with the right part and
// keeps the number; it returns to the left part once the right one is listed.
fn gather(
    alloc: Global,
    sums: &[Sum],
    term: Term,
    list: &mut Vec<Contribution>,
) -> Result<(), AllocError>
    requires sums { AreSums sums.now }
    requires below { IsBelow (length (values_of_sums [] sums.now)) term }
    ensures { OnOk result (HasSame list.new.items (list.old.items ++ meaning (values_of_sums [] sums.now) term)) }
{
    let mut opened = Vec::new(alloc);
    let mut part = term;
    'parts: loop {
        match part {
            Term::Made(number) => {
                if let Some(contribution) = right_one(&sums[number]) {
                    list.push(contribution)?;
                    part = sums[number].left;
                    continue 'parts;
                }
                opened.push(number)?;
                part = sums[number].right;
            }
            Term::One(contribution) => {
                list.push(contribution)?;
                let Some(number) = opened.pop() else {
                    return Ok(());
                };
                part = sums[number].left;
            }
            Term::Nothing => {
                let Some(number) = opened.pop() else {
                    return Ok(());
                };
                part = sums[number].left;
            }
        }
    }
}
