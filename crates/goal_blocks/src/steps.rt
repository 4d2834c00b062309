//! Schedules that are given by rank and number: what a step is, and the plans of all ranks.
ghost use Rattle.std.specs.Prelude.{◌≡◌, ℕ, ◌^◌, ◌<◌, [], ◌∷◌, ◌++◌, map, OnOk, IfOk};
ghost use Rattle.std.specs.List.{range_with_len};
ghost use Rattle.goal_graph.specs.declared.plan.When.TheVariants.{AfterEnd};
ghost use Rattle.goal_blocks.specs.Made.{before_round};
ghost use Rattle.goal_blocks.specs.Entries.{Entry, plan_by, made_by};
ghost use Rattle.goal_blocks.specs.Steps.{entry_of, needs_of, notes_from};

use crate::slots::SlotRange;
use goal_graph::{Dep, Kind, Note, Op, RankPlan, When};
use std::alloc::{AllocError, Global};

/// The numbers of the operations whose ends a step needs.
#[derive(Clone, Copy, Debug, PartialEq, Eq)]
pub enum Needs {
    /// None.
    Nothing,
    /// This one.
    One(u32),
    /// These two.
    Two(u32, u32),
    /// All below this number.
    Below(u32),
}

/// The effect of a step on slots.
#[derive(Clone, Copy, Debug, PartialEq, Eq)]
pub enum Effect {
    /// A send reads, or a receive sets, the slots of one range, and then those of a second one, if given.
    Moves {
        first: SlotRange,
        second: Option<SlotRange>,
    },
    /// A calc adds the value of slot `from` to that of slot `to`.
    Adds {
        from: u32,
        to: u32,
    },
}

/// An operation of a rank, with its needs and its effect on slots.
#[derive(Clone, Copy, Debug, PartialEq, Eq)]
pub struct Step {
    /// Its kind.
    pub kind: Kind,
    /// The operations whose ends it needs.
    pub needs: Needs,
    /// Its effect on slots.
    pub effect: Effect,
}

impl Step {
    ghost use Rattle.std.specs.Prelude.{◌≡◌, Some};
    ghost use Rattle.goal_graph.specs.declared.plan.Kind.TheVariants.{Calc, Send, Recv};
    ghost use Rattle.goal_blocks.specs.declared.steps.Needs.TheVariants.{Nothing};
    ghost use Rattle.goal_blocks.specs.declared.steps.Effect.TheVariants.{Adds};

    /// Returns a send of `bytes` bytes.
    #[must_use]
    pub fn send(bytes: u64, to: u32, tag: u32, needs: Needs, effect: Effect) -> Step
        ensures { result ≡ record { kind = Send bytes to tag; needs = needs; effect = effect } }
    {
        let kind = Kind::Send { bytes, to, tag };
        Step {
            kind,
            needs,
            effect,
        }
    }

    /// Returns a receive of `bytes` bytes without needs.
    #[must_use]
    pub fn receive(bytes: u64, from: u32, tag: u32, effect: Effect) -> Step
        ensures { result ≡ record { kind = Recv bytes (Some from) (Some tag); needs = Nothing; effect = effect } }
    {
        let kind = Kind::Recv {
            bytes,
            from: Some(from),
            tag: Some(tag),
        };
        Step {
            kind,
            needs: Needs::Nothing,
            effect,
        }
    }

    /// Returns a calc without duration that adds the slot `from` to the slot `to`.
    #[must_use]
    pub fn sum(needs: Needs, from: u32, to: u32) -> Step
        ensures { result ≡ record { kind = Calc 0; needs = needs; effect = Adds from to } }
    {
        let kind = Kind::Calc { nanos: 0 };
        Step {
            kind,
            needs,
            effect: Effect::Adds { from, to },
        }
    }
}

impl Effect {
    ghost use Rattle.std.specs.Prelude.{◌≡◌, None};
    ghost use Rattle.goal_blocks.specs.declared.steps.Effect.TheVariants.{Moves};

    /// Returns the effect of a send that reads one slot, or of a receive that sets it.
    #[must_use]
    pub fn slot(slot: u32) -> Effect
        ensures { result ≡ Moves (record { lo = slot; hi = slot }) None }
    {
        Effect::Moves {
            first: SlotRange { lo: slot, hi: slot },
            second: None,
        }
    }
}

/// Returns the needs of the first of the three operations of a round: the last one of the round before.
#[must_use]
pub fn before_round(round: u32) -> Needs
    requires { round < 2 ^ 30 }
    ensures { needs_of result ≡ before_round round }
{
    if round == 0 {
        return Needs::Nothing;
    }
    Needs::One(3 * round - 1)
}

// The operation `later` needs the end of the operation `earlier`.
fn push_need(deps: &mut Vec<Dep>, later: u32, earlier: u32) -> Result<(), AllocError>
    ensures { OnOk result (deps.new.items
        ≡ deps.old.items ++ record { later = later; earlier = earlier; when = AfterEnd } ∷ []) }
{
    deps.push(Dep {
        later,
        earlier,
        when: When::AfterEnd,
    })?;
    Ok(())
}

// The operation `later` needs the ends of all operations below `end`.
fn push_needs_below(deps: &mut Vec<Dep>, later: u32, end: u32) -> Result<(), AllocError>
    ensures { OnOk result (deps.new.items ≡ deps.old.items
        ++ map (λ k. record { later = later; earlier = k; when = AfterEnd }) (range_with_len 0 end)) }
{
    for earlier in 0..end {
        push_need(deps, later, earlier)?;
    }
    Ok(())
}

// The operation `later` needs the ends of these.
fn push_needs(deps: &mut Vec<Dep>, later: u32, needs: Needs) -> Result<(), AllocError>
    ensures { OnOk result (deps.new.items ≡ deps.old.items
        ++ map (λ k. record { later = later; earlier = k; when = AfterEnd }) (needs_of needs)) }
{
    match needs {
        Needs::Nothing => Ok(()),
        Needs::One(earlier) => push_need(deps, later, earlier),
        Needs::Two(first, second) => {
            push_need(deps, later, first)?;
            push_need(deps, later, second)
        }
        Needs::Below(end) => push_needs_below(deps, later, end),
    }
}

// The operation `op` moves the slots of a range.
fn push_moves(notes: &mut Vec<Note>, op: u32, range: SlotRange) -> Result<(), AllocError>
    ensures { OnOk result (notes.new.items ≡ notes.old.items ++ Note.Moves op range.lo range.hi ∷ []) }
{
    notes.push(Note::Moves {
        op,
        lo: range.lo,
        hi: range.hi,
    })?;
    Ok(())
}

// The effect of the operation `op` on slots.
fn push_notes(notes: &mut Vec<Note>, op: u32, effect: Effect) -> Result<(), AllocError>
    ensures { OnOk result (notes.new.items ≡ notes.old.items ++ notes_from op effect) }
{
    match effect {
        Effect::Moves { first, second } => {
            push_moves(notes, op, first)?;
            if let Some(second) = second {
                push_moves(notes, op, second)?;
            }
        }
        Effect::Adds { from, to } => notes.push(Note::Adds { op, from, to })?,
    }
    Ok(())
}

/// A schedule that is given by rank and number: the number of operations of each rank, and each operation.
pub trait Formula {
    /// The number of ranks.
    ghost rank_count: { Self → ℕ };

    /// The number of operations of a rank.
    ghost op_count: { Self → ℕ → ℕ };

    /// The operation of a rank with this number.
    ghost entry_at: { Self → ℕ → ℕ → Entry };

    /// Returns the number of ranks.
    fn ranks(&self) -> u32
        ensures { result ≡ rank_count self.now };

    /// Returns the number of operations of a rank.
    fn count(&self, rank: u32) -> u32
        requires { rank < rank_count self.now }
        ensures { result ≡ op_count self.now rank };

    /// Returns the operation of a rank with this number.
    fn step(&self, rank: u32, number: u32) -> Step
        requires rank { rank < rank_count self.now }
        requires number { number < op_count self.now rank }
        ensures { entry_of result ≡ entry_at self.now rank number };
}

// The plan of a rank.
fn plan_of<F: Formula>(alloc: Global, formula: &F, rank: u32) -> Result<RankPlan, AllocError>
    requires { rank < F.rank_count formula.now }
    ensures { IfOk result (λ plan. plan ≡ plan_by (F.op_count formula.now rank) (F.entry_at formula.now rank)) }
{
    let mut ops = Vec::new(alloc);
    let mut deps = Vec::new(alloc);
    let mut notes = Vec::new(alloc);
    for number in 0..formula.count(rank) {
        let Step {
            kind,
            needs,
            effect,
        } = formula.step(rank, number);
        ops.push(Op {
            kind,
            cpu: 0,
            nic: 0,
        })?;
        push_needs(&mut deps, number, needs)?;
        push_notes(&mut notes, number, effect)?;
    }
    Ok(RankPlan { ops, deps, notes })
}

/// Returns the plans of all ranks, made in one pass. `Err` means out of memory.
pub fn plans_of<F: Formula>(alloc: Global, formula: &F) -> Result<Vec<RankPlan>, AllocError>
    ensures { IfOk result (λ plans. plans.items
        ≡ made_by (F.rank_count formula.now) (F.op_count formula.now) (F.entry_at formula.now)) }
{
    let mut plans = Vec::new(alloc);
    for rank in 0..formula.ranks() {
        let plan = plan_of(alloc, formula, rank)?;
        plans.push(plan)?;
    }
    Ok(plans)
}
