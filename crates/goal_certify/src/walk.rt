// The walk: the interleaving in which no send is eager and the first allowed action is always the next.
ghost use Rattle.std.specs.Prelude.{◌≡◌, ◌<◌, [], true, IfSome, IfNone, IfOk};
ghost use Rattle.goal_graph.specs.Action.{Act};
ghost use Rattle.goal_graph.specs.Matching.{pairs, partner};
ghost use Rattle.goal_graph.specs.Allowed.{allowed, has_ended};
ghost use Rattle.goal_graph.specs.Fault.{IsOp, IsAccepted};
ghost use Rattle.goal_graph.specs.Interleaving.{IsInterleaving};
ghost use Rattle.goal_blocks.specs.Walk.{no_send, ComesFirst, TakesFirst, IsWalk};
ghost use Rattle.goal_certify.specs.WalkSoFar.{act_of, with_action, IsLater};

use goal_graph::{OpId, Sched, When};
use goal_limits::NoMemory;
use std::alloc::Global;
use std::marker::Model;

mod action;
mod cursor;
mod entry;
mod follow;
mod outcome;
mod parcel;
mod progress;
mod ready;
mod stalls;
mod state;
mod stray;
mod turns;
mod values;

use action::PlainAction;
use cursor::{Cursor, at_first};
use follow::{fill, follow, next};
pub use outcome::{check_walk, find_stray};
use progress::Progress;
use state::WalkState;
use turns::Turns;

/// Walks through a schedule. Contracts see it as the plans of the schedule and the history so far, newest first.
pub struct Walker<'a> {
    // the history, and the state of each operation
    state: WalkState<'a>,
    // the operations that may act
    queue: Turns,
    // how many needs of each operation have been examined
    cursors: Vec<Cursor>,
}

// One call drops all fields, so that callers that drop a walker are shorter to prove.
impl Drop for Walker<'_> {
    fn drop(self) {
        let Walker {
            state: _state,
            queue: _queue,
            cursors: _cursors,
        } = self;
    }
}

impl<'a> Model for Walker<'a> {
    ghost use Rattle.goal_certify.specs.WalkSoFar.{WalkSoFar};
    ghost use Rattle.goal_certify.specs.WalkQueue.{Follows};

    ghost Value = { WalkSoFar };

    ghost view = { λ w. w.state };

    ghost invariant = { λ w. Follows w.state.plans w.state.history w.queue w.cursors.items };
}

impl<'a> Walker<'a> {
    /// Creates a walker with the empty history. It allocates all memory of the walk; no later call allocates any.
    pub fn new(alloc: Global, sched: &'a Sched) -> Result<Walker<'a>, NoMemory>
        ensures plans { IfOk result (λ w. w.plans ≡ sched.now) }
        ensures empty { IfOk result (λ w. w.history ≡ []) }
    {
        let state = WalkState::new(alloc, sched)?;
        let mut queue = Turns::new(alloc, sched.count())?;
        let cursors = at_first(alloc, sched)?;
        fill(&state, &mut queue);
        Ok(Walker {
            state,
            queue,
            cursors,
        })
    }

    /// Performs the first allowed action, and returns it. If no action is allowed, it returns `None` and changes
    /// nothing: the history is then the walk.
    pub fn next(&mut self) -> Option<PlainAction>
        ensures allowed { IfSome result (λ a. allowed self.old.plans no_send self.old.history a.class a.op ≡ true) }
        ensures first { IfSome result (λ a. (b : Act) → allowed self.old.plans no_send self.old.history b.class b.op ≡ true → ComesFirst (act_of a) b) }
        ensures after { IfSome result (λ a. self.new ≡ with_action self.old a) }
        ensures walk { IfNone result (IsWalk self.old.plans self.old.history) }
        ensures same { IfNone result (self.new ≡ self.old) }
        ensures each { IsInterleaving self.new.plans no_send self.new.history }
    {
        self.known();
        let action = next(&self.state, &self.queue)?;
        self.state.perform(action);
        follow(&self.state, &mut self.queue, &mut self.cursors, action);
        Some(action)
    }

    /// Walks to the end: the history is then the walk.
    pub fn finish(&mut self)
        ensures plans { self.new.plans ≡ self.old.plans }
        ensures walk { IsWalk self.new.plans self.new.history }
        ensures later { IsLater self.old.history self.new.history }
    {
        'steps: while self.next().is_some() {}
    }

    /// Returns the operation that `id` is paired with, once it is.
    pub fn partner(&self, id: OpId) -> Option<OpId>
        requires { IsOp self.now.plans id }
        ensures { result ≡ partner (pairs self.now.plans self.now.history) id }
    {
        self.state.partner(id)
    }

    /// Returns whether an operation has an end.
    pub fn has_ended(&self, id: OpId) -> bool
        requires { IsOp self.now.plans id }
        ensures { result ≡ has_ended self.now.plans no_send id self.now.history }
    {
        self.state.is_met(When::AfterEnd, id)
    }

    /// Returns the schedule.
    pub fn sched(&self) -> &'a Sched
        ensures { result.now ≡ self.now.plans }
    {
        self.state.sched()
    }

    /// States the invariant: the schedule is accepted, the history is an interleaving, and each action was the first
    /// allowed one.
    pub fn known(&self)
        ensures accepted { IsAccepted self.now.plans }
        ensures each { IsInterleaving self.now.plans no_send self.now.history }
        ensures first { TakesFirst self.now.plans self.now.history }
    {
        self.state.known();
    }
}
