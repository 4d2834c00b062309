//! The first operations that fit another.
ghost use Rattle.std.specs.Prelude.{◌≡◌, ◌||◌, List, Some, cond, All, AllPairs, IfOk, OnOk, find};
ghost use Rattle.std.specs.BTreeMap.{get};
ghost use Rattle.goal_graph.specs.declared.action.OpId.{OpId};
ghost use Rattle.goal_graph.specs.Fault.{IsOp};
ghost use Rattle.goal_graph.specs.Matching.{fits};
ghost use Rattle.goal_graph.specs.Order.{IsBefore};
ghost use Rattle.sim_match.specs.declared.pattern.Pattern.{Pattern};
ghost use Rattle.sim_match.specs.Patterns.{pattern_cmp, patterns_for};
ghost use Rattle.sim_stuck.specs.Patterns.{is_for, is_by, least, AreFirsts};

use goal_graph::{Kind, OpId, Sched};
use goal_limits::NoMemory;
use sim_match::Pattern;
use std::alloc::Global;
use std::collections::BTreeMap;

/// The first operations of a list by pattern: the first send that fits the pattern, and the first receive that has it.
#[derive(Drop)]
pub struct Firsts {
    /// The first send for each pattern.
    pub sends: BTreeMap<Pattern, OpId>,
    /// The first receive of each pattern.
    pub receives: BTreeMap<Pattern, OpId>,
}

impl Firsts {
    /// Returns the first of these operations, by pattern. `Err` means out of memory.
    pub fn of(alloc: Global, sched: &Sched, ids: &[OpId]) -> Result<Firsts, NoMemory>
        requires { All (IsOp sched.now) ids.now }
        ensures { IfOk result (AreFirsts sched.now ids.now) }
    {
        let mut firsts = Firsts {
            sends: BTreeMap::new(alloc),
            receives: BTreeMap::new(alloc),
        };
        let mut left = ids.len();
        while left > 0 {
            left -= 1;
            let id = ids[left];
            firsts.put(id, sched.op(id).kind)?;
        }
        Ok(firsts)
    }

    // Puts an operation of this kind before the others.
    fn put(&mut self, id: OpId, kind: Kind) -> Result<(), NoMemory>
        ensures sends { OnOk result ((q : Pattern) → get pattern_cmp self.new.sends q
            ≡ cond (is_for q id (Some kind)) (Some id) (get pattern_cmp self.old.sends q)) }
        ensures receives { OnOk result ((q : Pattern) → get pattern_cmp self.new.receives q
            ≡ cond (is_by q id (Some kind)) (Some id) (get pattern_cmp self.old.receives q)) }
    {
        match kind {
            Kind::Recv { from, tag, .. } => {
                let rank = id.rank;
                self.receives.insert(Pattern { rank, from, tag }, id)?;
            }
            Kind::Send { to, tag, .. } => {
                let [exact, any_tag, any_source, any] = patterns_for(id.rank, to, tag);
                self.sends.insert(exact, id)?;
                self.sends.insert(any_tag, id)?;
                self.sends.insert(any_source, id)?;
                self.sends.insert(any, id)?;
            }
            Kind::Calc { .. } => {}
        }
        Ok(())
    }

    /// Returns the first of the operations that fits `id`: one of the two is a send and the other a receive that takes
    /// its message.
    pub fn first_that_fits(&self, sched: &Sched, id: OpId) -> Option<OpId>
        requires { IsOp sched.now id }
        ensures { (ids : List OpId) → AllPairs IsBefore ids → AreFirsts sched.now ids self.now
            → result ≡ find (λ y. fits sched.now id y || fits sched.now y id) ids }
    {
        match sched.op(id).kind {
            Kind::Recv { from, tag, .. } => {
                let rank = id.rank;
                self.sends.get(&Pattern { rank, from, tag }).copied()
            }
            Kind::Send { to, tag, .. } => self.first_receive(id.rank, to, tag),
            Kind::Calc { .. } => None,
        }
    }

    // The first receive of a pattern.
    fn receive_by(&self, pattern: Pattern) -> Option<OpId>
        ensures { result ≡ get pattern_cmp self.now.receives pattern }
    {
        self.receives.get(&pattern).copied()
    }

    // The first receive that fits a message.
    fn first_receive(&self, source: u32, to: u32, tag: u32) -> Option<OpId>
        ensures { result ≡ least
            (least (get pattern_cmp self.now.receives (record { rank = to; from = Some source; tag = Some tag }))
            (get pattern_cmp self.now.receives (record { rank = to; from = Some source; tag = None })))
            (least (get pattern_cmp self.now.receives (record { rank = to; from = None; tag = Some tag }))
            (get pattern_cmp self.now.receives (record { rank = to; from = None; tag = None }))) }
    {
        let [exact, any_tag, any_source, any] = patterns_for(source, to, tag);
        let of_source = least(self.receive_by(exact), self.receive_by(any_tag));
        let of_any_source = least(self.receive_by(any_source), self.receive_by(any));
        least(of_source, of_any_source)
    }
}

// The lesser of two operations.
fn least(a: Option<OpId>, b: Option<OpId>) -> Option<OpId>
    ensures { result ≡ least a b }
{
    match (a, b) {
        (Some(first), Some(second)) if second < first => b,
        (None, _) => b,
        _ => a,
    }
}

// Returns the patterns of the receives that fit a message.
fn patterns_for(source: u32, to: u32, tag: u32) -> [Pattern; 4]
    ensures { result ≡ patterns_for source to tag }
{
    let asked = |from, tag| Pattern {
        rank: to,
        from,
        tag,
    };
    [
        asked(Some(source), Some(tag)),
        asked(Some(source), None),
        asked(None, Some(tag)),
        asked(None, None),
    ]
}
