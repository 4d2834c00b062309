//! The number of each operation's list, found once.
ghost use Rattle.std.specs.Prelude.{ℕ, ◌≡◌, ◌<◌, ◌≤◌, ◌-◌, ◌^◌, [], Option, Some, length, map, IfOk, OnOk};
ghost use Rattle.goal_graph.specs.Schedule.{operations, IsSend, IsReceive};
ghost use Rattle.std.specs.Option.{IfSome};
ghost use Rattle.goal_graph.specs.Fault.{IsOp};
ghost use Rattle.sim_match.specs.Patterns.{number, own_list, wild_list, list_of, lists_for, AreListed, AreTaken};
ghost use Rattle.sim_match.specs.ListNumbers.{coded, IsCodable, AreWild, AreOthers, IsWildAt, AreNumbered};
ghost use Rattle.sim_match.specs.ListOrder.{AreGiven, HaveNumbers};

use crate::list_order::{ListOrder, NO_LIST};
use crate::pattern::{Pattern, Patterns, Wild};
use goal_graph::{Kind, OpId, Sched};
use goal_limits::NoMemory;
use std::alloc::{AllocError, Global};

/// The numbers of those lists of sends whose patterns have a wildcard, by the places of the operations. A kind of
/// pattern that the schedule does not have is `None`.
#[derive(Drop)]
pub struct Others {
    /// The lists with any tag.
    pub any_tag: Option<Vec<u32>>,
    /// The lists with any source.
    pub any_source: Option<Vec<u32>>,
    /// The lists with any source and any tag.
    pub any: Option<Vec<u32>>,
}

/// For each operation, in order, the number of the list of its own pattern: that of a receive, or the one with the
/// source and the tag of a send. It is `NO_LIST` if the schedule does not have that pattern. If there are no patterns,
/// nothing is kept. The other lists of sends are kept only if a pattern has a wildcard. Then lists are numbered in the
/// order in which operations that have them are seen, and otherwise in the order of their patterns.
#[derive(Drop)]
pub struct ListNumbers {
    /// The number of each operation's own list, or `NO_LIST`.
    pub own: Vec<u32>,
    /// The other lists of sends, if a pattern has a wildcard.
    pub others: Option<Others>,
    /// The number of lists.
    pub count: usize,
}

// The code of a number, or of none.
fn coded(number: Option<usize>) -> u32
    requires { IsCodable number }
    ensures { result ≡ coded number }
{
    match number {
        Some(list) => list as u32,
        None => NO_LIST,
    }
}

/// Returns the number with this code, or `None`.
pub fn decoded(kept: u32) -> Option<usize>
    ensures { (number : Option ℕ) → kept ≡ coded number → IsCodable number → result ≡ number }
{
    if kept == NO_LIST {
        None
    } else {
        Some(kept as usize)
    }
}

// Where a pattern was found last, and how far it was from the one before. No contract relies on these numbers: they
// only say where to probe first.
#[derive(Clone, Copy, Debug)]
struct Trail {
    last: usize,
    step: usize,
}

impl Trail {
    // Returns a trail that expects the next pattern at that place.
    fn to(place: usize) -> Trail {
        Trail {
            last: place.wrapping_sub(1),
            step: 1,
        }
    }

    // Returns the place of a pattern, if it is where the trail expects it.
    #[inline(always)]
    fn next(&mut self, patterns: &Patterns, pattern: Pattern) -> Option<usize>
        ensures { IfSome result (λ place. number patterns.now pattern ≡ Some place) }
    {
        let guess = self.last.wrapping_add(self.step);
        if patterns.stands_at(guess, pattern) {
            self.last = guess;
            Some(guess)
        } else {
            None
        }
    }

    // Moves to that place, and expects the next step to be as long as this one.
    fn turn(&mut self, place: usize) {
        self.step = place.wrapping_sub(self.last);
        self.last = place;
    }

    // Returns the place of a pattern, probing first where the trail expects it.
    #[inline(always)]
    fn find(&mut self, patterns: &Patterns, pattern: Pattern) -> Option<usize>
        ensures { result ≡ number patterns.now pattern }
    {
        if let Some(place) = self.next(patterns, pattern) {
            return Some(place);
        }
        let found = patterns.number_near(pattern, self.last);
        if let Some(place) = found {
            self.turn(place);
        }
        found
    }
}

// The trails of the operations: `receives` is that of all receives, `sends` has one for the sends to each rank, and
// `sources` has one for the receives from any source, and then one for the receives from each rank. The pattern of a
// receive is usually next to that of the receive before it, or to that of the last from its source. The sends to a rank
// come in the order of their sources, which is also that of its patterns.
#[derive(Drop)]
struct Trails {
    receives: Trail,
    sends: Vec<Trail>,
    sources: Vec<Trail>,
}

impl Trails {
    // The trails before the first operation.
    fn of(alloc: Global, sched: &Sched, patterns: &Patterns) -> Result<Trails, AllocError> {
        let ranks = sched.plans().len();
        let mut sends = Vec::with_capacity(alloc, ranks)?;
        for rank in 0..ranks {
            sends.push_reserved(Trail::to(patterns.first_of(rank as u32)));
        }
        Ok(Trails {
            receives: Trail::to(0),
            sends,
            sources: vec![in alloc; Trail::to(0); ranks + 1]?,
        })
    }

    // Returns the place of a receive's pattern, probing first next to that of the last from its source.
    #[inline(never)]
    fn find_by_source(&mut self, patterns: &Patterns, pattern: Pattern) -> Option<usize>
        ensures { result ≡ number patterns.now pattern }
    {
        let source = match pattern.from {
            Some(from) => from as usize + 1,
            None => 0,
        };
        if source >= self.sources.len() {
            return patterns.number(pattern);
        }
        let found = self.sources[source].find(patterns, pattern);
        if let Some(place) = found {
            self.receives.turn(place);
        }
        found
    }

    // Returns the number of the list of an operation's own pattern, if the schedule has it.
    #[inline(always)]
    fn own_list(&mut self, patterns: &Patterns, sched: &Sched, id: OpId) -> Option<usize>
        requires { IsOp sched.now id }
        ensures { result ≡ own_list sched.now patterns.now id }
    {
        match sched.op(id).kind {
            Kind::Calc { .. } => None,
            Kind::Recv { from, tag, .. } => {
                let pattern = Pattern::new(id.rank, from, tag);
                match self.receives.next(patterns, pattern) {
                    Some(place) => Some(place),
                    None => self.find_by_source(patterns, pattern),
                }
            }
            Kind::Send { to, tag, .. } => {
                let pattern = Pattern::new(to, Some(id.rank), Some(tag));
                let to = to as usize;
                if to < self.sends.len() {
                    self.sends[to].find(patterns, pattern)
                } else {
                    patterns.number(pattern)
                }
            }
        }
    }
}

// Returns the numbers of all operations. If there are no patterns, nothing is kept.
fn own_numbers(alloc: Global, sched: &Sched, patterns: &Patterns) -> Result<Vec<u32>, AllocError>
    requires { length patterns.now ≤ length (operations sched.now) }
    ensures few { OnOk result (length patterns.now < 2 ^ 32 - 1) }
    ensures numbers { IfOk result (λ numbers. 0 < length patterns.now → numbers.items ≡ map (λ x. coded (own_list sched.now patterns.now x)) (operations sched.now)) }
{
    if patterns.len() == 0 {
        return Ok(Vec::new(alloc));
    }
    let mut numbers = Vec::with_capacity(alloc, sched.count() as usize)?;
    let mut trails = Trails::of(alloc, sched, patterns)?;
    for id in sched.operations() {
        let number = trails.own_list(patterns, sched, *id);
        numbers.push_reserved(coded(number));
    }
    Ok(numbers)
}

// Returns the same, with the lists numbered in the order in which operations that have them are seen.
fn numbers_in_turn(
    alloc: Global,
    sched: &Sched,
    patterns: &Patterns,
    order: &mut ListOrder,
) -> Result<Vec<u32>, AllocError>
    requires given { AreGiven patterns.now order.old }
    requires none { order.old.keys.items ≡ [] }
    ensures given { OnOk result (AreGiven patterns.now order.new) }
    ensures few { OnOk result (order.new.count < 2 ^ 32 - 1) }
    ensures each { OnOk result (HaveNumbers sched.now patterns.now order.new.keys.items (operations sched.now)) }
    ensures numbers { IfOk result (λ numbers. numbers.items ≡ map (λ x. coded (own_list sched.now order.new.keys.items x)) (operations sched.now)) }
{
    let mut numbers = Vec::with_capacity(alloc, sched.count() as usize)?;
    let mut trails = Trails::of(alloc, sched, patterns)?;
    for id in sched.operations() {
        let place = trails.own_list(patterns, sched, *id);
        numbers.push_reserved(order.give(patterns, place));
    }
    Ok(numbers)
}

// Returns the number of the list of a send with the pattern of that kind, if the schedule has it.
fn wild_list(
    patterns: &Patterns,
    taken: &[bool],
    sched: &Sched,
    id: OpId,
    wild: Wild,
) -> Option<usize>
    requires op { IsOp sched.now id }
    requires taken { AreTaken wild patterns.now taken.now }
    ensures { result ≡ wild_list sched.now patterns.now wild id }
{
    match sched.op(id).kind {
        Kind::Send { to, tag, .. } => {
            let pattern = wild.pattern(id.rank, to, tag);
            if taken[pattern.slot(taken.len())] {
                patterns.number(pattern)
            } else {
                None
            }
        }
        Kind::Recv { .. } | Kind::Calc { .. } => None,
    }
}

// Returns the codes of the lists of that kind, by operation, or `None` if no pattern is of that kind.
fn wild_numbers(
    alloc: Global,
    sched: &Sched,
    patterns: &Patterns,
    order: &ListOrder,
    wild: Wild,
) -> Result<Option<Vec<u32>>, AllocError>
    requires { AreGiven patterns.now order.now }
    ensures { IfOk result (λ kept. AreWild sched.now order.now.keys.items wild kept) }
{
    if !patterns.have(wild) {
        return Ok(None);
    }
    let taken = patterns.taken_slots(alloc, wild)?;
    let mut numbers = Vec::with_capacity(alloc, sched.count() as usize)?;
    for id in sched.operations() {
        let place = wild_list(patterns, &taken, sched, *id, wild);
        numbers.push_reserved(order.number(place));
    }
    Ok(Some(numbers))
}

// Returns the codes of the lists of all kinds.
fn all_others(
    alloc: Global,
    sched: &Sched,
    patterns: &Patterns,
    order: &ListOrder,
) -> Result<Others, AllocError>
    requires { AreGiven patterns.now order.now }
    ensures { IfOk result (λ others. AreOthers sched.now order.now.keys.items others) }
{
    Ok(Others {
        any_tag: wild_numbers(alloc, sched, patterns, order, Wild::AnyTag)?,
        any_source: wild_numbers(alloc, sched, patterns, order, Wild::AnySource)?,
        any: wild_numbers(alloc, sched, patterns, order, Wild::Any)?,
    })
}

// Returns the kept number of the list of the operation at that place.
#[inline(always)]
fn wild_at(kept: &Option<Vec<u32>>, place: usize) -> Option<usize>
    requires { IfSome kept.now (λ numbers. place < length numbers.items) }
    ensures { IsWildAt kept.now place result }
{
    match kept {
        None => None,
        Some(numbers) => decoded(numbers[place]),
    }
}

impl ListNumbers {
    /// Returns the numbers of a schedule. Each pattern is looked up here, next to the one before or by binary search.
    /// `Err` means out of memory.
    pub fn of(alloc: Global, sched: &Sched) -> Result<ListNumbers, NoMemory>
        ensures { IfOk result (λ numbers. AreNumbered sched.now numbers) }
    {
        let patterns = Patterns::of(alloc, sched)?;
        if !patterns.name_all() {
            return Ok(ListNumbers::in_turn(alloc, sched, &patterns)?);
        }
        let own = own_numbers(alloc, sched, &patterns)?;
        Ok(ListNumbers {
            own,
            others: None,
            count: patterns.len(),
        })
    }

    // Returns the numbers of a schedule with these patterns, some of which have a wildcard.
    fn in_turn(alloc: Global, sched: &Sched, patterns: &Patterns) -> Result<ListNumbers, AllocError>
        requires { AreListed sched.now patterns.now }
        ensures { IfOk result (λ numbers. AreNumbered sched.now numbers) }
    {
        let mut order = ListOrder::new(alloc, patterns)?;
        let own = numbers_in_turn(alloc, sched, patterns, &mut order)?;
        let others = all_others(alloc, sched, patterns, &order)?;
        Ok(ListNumbers {
            own,
            others: Some(others),
            count: order.count as usize,
        })
    }

    // Returns the code of the own list of an operation. The schedule must have a pattern.
    fn own(&self, sched: &Sched, id: OpId) -> u32
        requires op { IsOp sched.now id }
        requires numbered { AreNumbered sched.now self.now }
        requires some { 0 < self.now.count }
        ensures { (n : AreNumbered sched.now self.now) → result ≡ coded (own_list sched.now n.keys id) }
    {
        self.own[sched.index(id) as usize]
    }

    // Returns the number of the list of an operation's own pattern, if the schedule has it.
    fn own_list(&self, sched: &Sched, id: OpId) -> Option<usize>
        requires op { IsOp sched.now id }
        requires numbered { AreNumbered sched.now self.now }
        ensures { (n : AreNumbered sched.now self.now) → result ≡ own_list sched.now n.keys id }
    {
        if self.count == 0 {
            return None;
        }
        decoded(self.own(sched, id))
    }

    /// Returns the number of the list of a receive.
    pub fn list_of_receive(&self, sched: &Sched, recv: OpId) -> usize
        requires receive { IsReceive sched.now recv }
        requires numbered { AreNumbered sched.now self.now }
        ensures list { (n : AreNumbered sched.now self.now) → list_of sched.now n.keys recv ≡ Some result }
        ensures within { result < self.now.count }
    {
        self.own(sched, recv) as usize
    }

    /// Returns the numbers of the lists of a send: of its own pattern, with any tag, with any source, and with both. A
    /// list whose pattern the schedule does not have is `None`.
    #[inline(always)]
    pub fn lists_of_send(&self, sched: &Sched, send: OpId) -> [Option<usize>; 4]
        requires send { IsSend sched.now send }
        requires numbered { AreNumbered sched.now self.now }
        ensures { (n : AreNumbered sched.now self.now) → result ≡ lists_for sched.now n.keys send }
    {
        let own = self.own_list(sched, send);
        match &self.others {
            None => [own, None, None, None],
            Some(others) => {
                let place = sched.index(send) as usize;
                [
                    own,
                    wild_at(&others.any_tag, place),
                    wild_at(&others.any_source, place),
                    wild_at(&others.any, place),
                ]
            }
        }
    }
}
