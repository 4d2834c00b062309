//! The actions so far, and what may happen next of each operation.
ghost use Rattle.std.specs.Prelude.{◌≡◌, ◌↔◌, [], ◌∷◌, drop, true, false, Some, IfOk, IsTrue};
ghost use Rattle.goal_graph.specs.declared.action.Class.{Class};
ghost use Rattle.goal_graph.specs.declared.action.Class.TheVariants.{Arrive, Serve, Data, Post, Begin};
ghost use Rattle.goal_graph.specs.Action.{happened};
ghost use Rattle.goal_graph.specs.Schedule.{kind_at, IsSend, IsReceive};
ghost use Rattle.goal_graph.specs.Matching.{pairs, partner};
ghost use Rattle.goal_graph.specs.Allowed.{first_class, last_class};
ghost use Rattle.goal_graph.specs.Fault.{IsOp, IsAccepted};
ghost use Rattle.goal_graph.specs.Interleaving.{IsInterleaving};
ghost use Rattle.goal_blocks.specs.Walk.{no_send};
ghost use Rattle.sim_match.specs.PostsAndArrivals.{is_post_or_arrival_class};
ghost use Rattle.goal_certify.specs.WalkSoFar.{act_of, entry_known, with_action, met, more_met};
ghost use Rattle.goal_certify.specs.WalkQueue.{may_act, class_at, IsChoice, IsCursorOf};

use super::action::PlainAction;
use super::cursor::Cursor;
use super::entry::{BLANK, OpProgress, is_done, with_class, write_met};
use super::progress::Progress;
use super::ready::is_ready_uncounted;
use goal_graph::{Class, Kind, Need, OpId, Sched, When, entry_of};
use goal_limits::NoMemory;
use sim_match::Matcher;
use sim_order::Past;
use std::alloc::Global;
use std::marker::Model;

/// A schedule during its walk, in which no send is eager. Contracts see it as the plans of the schedule and the actions
/// so far, the newest first.
pub struct WalkState<'a> {
    sched: &'a Sched,
    // the actions so far, the oldest first
    history: Past<PlainAction>,
    // what is known of each operation, in the order of all
    entries: Vec<OpProgress>,
    // the matcher
    matcher: Matcher<'a>,
}

// It is dropped by a call, as a walker is.
impl Drop for WalkState<'_> {
    fn drop(self) {
        let WalkState {
            sched: _,
            history: _history,
            entries: _entries,
            matcher: _matcher,
        } = self;
    }
}

impl<'a> Model for WalkState<'a> {
    ghost use Rattle.goal_certify.specs.WalkSoFar.{WalkSoFar, acts, Represents};

    ghost Value = { WalkSoFar };

    ghost view = { λ s. record { plans = s.sched.now; history = acts s.history.items } };

    ghost invariant = { λ s. Represents s.sched.now (acts s.history.items) s.entries.items s.matcher };
}

impl<'a> WalkState<'a> {
    /// Creates the state of a schedule before its first action. It allocates all memory of the walk; no later call
    /// allocates any. `Err` means out of memory.
    pub fn new(alloc: Global, sched: &'a Sched) -> Result<WalkState<'a>, NoMemory>
        ensures plans { IfOk result (λ s. s.plans ≡ sched.now) }
        ensures empty { IfOk result (λ s. s.history ≡ []) }
    {
        let _plans = sched.plans();
        let count = sched.count() as usize;
        let entries = vec![in alloc; BLANK; count]?;
        let matcher = Matcher::new(alloc, sched)?;
        Ok(WalkState {
            sched,
            history: Past::new(),
            entries,
            matcher,
        })
    }

    /// Returns the schedule.
    pub fn sched(&self) -> &'a Sched
        ensures { result.now ≡ self.now.plans }
    {
        self.sched
    }

    /// States the invariant: the schedule is accepted, and the actions so far are an interleaving.
    pub fn known(&self)
        ensures accepted { IsAccepted self.now.plans }
        ensures each { IsInterleaving self.now.plans no_send self.now.history }
    {
        let _sched = &self.sched;
    }

    // What is known of an operation.
    fn entry(&self, id: OpId) -> OpProgress
        requires { IsOp self.now.plans id }
        ensures { result ≡ entry_known self.now.plans self.now.history id }
    {
        *entry_of(&self.entries, self.sched, id)
    }

    /// Returns the operation with which another is paired, once it is.
    pub fn partner(&self, id: OpId) -> Option<OpId>
        requires { IsOp self.now.plans id }
        ensures { result ≡ partner (pairs self.now.plans self.now.history) id }
    {
        self.entry(id).paired
    }

    /// Returns the class of the next action of an operation, or `None` if none may happen now. If the operation has not
    /// started, its cursor moves to the first need that is not met, or past all, and the next call starts there.
    pub fn choice(&self, id: OpId, cursor: &mut Cursor) -> Option<Class>
        requires op { IsOp self.now.plans id }
        requires cursor { IsCursorOf self.now.plans self.now.history id cursor.old }
        ensures choice { IsChoice self.now.plans self.now.history id result }
        ensures cursor { IsCursorOf self.now.plans self.now.history id cursor.new }
    {
        let kind = self.sched().op(id).kind;
        let first = first_class(kind);
        if self.may_start(id, first, cursor) {
            return Some(first);
        }
        match kind {
            Kind::Calc { .. } => None,
            Kind::Send { .. } => self.choice_of_send(id),
            Kind::Recv { .. } => self.choice_of_receive(id),
        }
    }

    // The same of a send that may not begin.
    fn choice_of_send(&self, send: OpId) -> Option<Class>
        requires send { IsSend self.now.plans send }
        requires begun { may_act self.now.plans self.now.history Begin send ≡ false }
        ensures { IsChoice self.now.plans self.now.history send result }
    {
        if self.may_arrive(send) {
            return Some(Class::Arrive);
        }
        if self.may_hand_over(send) {
            return Some(Class::Data);
        }
        None
    }

    // The same of a receive that may not be posted.
    fn choice_of_receive(&self, recv: OpId) -> Option<Class>
        requires receive { IsReceive self.now.plans recv }
        requires posted { may_act self.now.plans self.now.history Post recv ≡ false }
        ensures { IsChoice self.now.plans self.now.history recv result }
    {
        if self.may_serve(recv) {
            return Some(Class::Serve);
        }
        None
    }

    /// Returns the class of the next action of the operation of `action`, or `None` if none may happen now. `action`
    /// must be the last action that has happened.
    pub fn choice_after(&self, action: PlainAction) -> Option<Class>
        requires op { IsOp self.now.plans action.op }
        requires newest { self.now.history ≡ act_of action ∷ drop 1 self.now.history }
        ensures { IsChoice self.now.plans self.now.history action.op result }
    {
        self.known();
        match action.class {
            Class::Begin => self.choice_of_begun(action.op),
            Class::Arrive => self.choice_of_arrived(action.op),
            Class::Data => None,
            Class::Post => None,
            Class::Serve => None,
        }
    }

    // The same of a calc or a send that has just begun.
    fn choice_of_begun(&self, id: OpId) -> Option<Class>
        requires op { IsOp self.now.plans id }
        requires newest { self.now.history ≡ record { class = Begin; op = id } ∷ drop 1 self.now.history }
        ensures { IsChoice self.now.plans self.now.history id result }
    {
        self.known();
        match self.sched().op(id).kind {
            Kind::Calc { .. } => None,
            Kind::Send { .. } => Some(Class::Arrive),
            Kind::Recv { .. } => unreachable!(),
        }
    }

    // The same of a send that has just arrived.
    fn choice_of_arrived(&self, send: OpId) -> Option<Class>
        requires newest { self.now.history ≡ record { class = Arrive; op = send } ∷ drop 1 self.now.history }
        ensures { IsChoice self.now.plans self.now.history send result }
    {
        self.known();
        if self.may_hand_over(send) {
            return Some(Class::Data);
        }
        None
    }

    /// Returns the class of the action of an operation that may happen. One must be possible. Its needs are not tested.
    pub fn class_of(&self, id: OpId) -> Class
        requires op { IsOp self.now.plans id }
        requires some { (class : Class) × (may_act self.now.plans self.now.history class id ≡ true) }
        ensures { may_act self.now.plans self.now.history result id ≡ true }
    {
        match self.sched().op(id).kind {
            Kind::Calc { .. } => Class::Begin,
            Kind::Send { .. } => self.class_of_send(id),
            Kind::Recv { .. } => self.class_of_receive(id),
        }
    }

    // The same of a send.
    fn class_of_send(&self, send: OpId) -> Class
        requires send { IsSend self.now.plans send }
        requires some { (class : Class) × (may_act self.now.plans self.now.history class send ≡ true) }
        ensures { may_act self.now.plans self.now.history result send ≡ true }
    {
        if self.may_arrive(send) {
            return Class::Arrive;
        }
        if self.may_hand_over(send) {
            return Class::Data;
        }
        Class::Begin
    }

    // The same of a receive.
    fn class_of_receive(&self, recv: OpId) -> Class
        requires receive { IsReceive self.now.plans recv }
        requires some { (class : Class) × (may_act self.now.plans self.now.history class recv ≡ true) }
        ensures { may_act self.now.plans self.now.history result recv ≡ true }
    {
        if self.may_serve(recv) {
            return Class::Serve;
        }
        Class::Post
    }

    // Whether an operation may start: once it is ready, and only once.
    fn may_start(&self, id: OpId, first: Class, cursor: &mut Cursor) -> bool
        requires op { IsOp self.now.plans id }
        requires first { first ≡ first_class (kind_at self.now.plans id) }
        requires cursor { IsCursorOf self.now.plans self.now.history id cursor.old }
        ensures may { result ≡ may_act self.now.plans self.now.history first id }
        ensures cursor { IsCursorOf self.now.plans self.now.history id cursor.new }
    {
        if is_done(self.entry(id), first) {
            return false;
        }
        is_ready_uncounted(self, id, cursor)
    }

    // Whether a send may arrive: once it has begun.
    fn may_arrive(&self, send: OpId) -> bool
        requires { IsSend self.now.plans send }
        ensures { result ≡ may_act self.now.plans self.now.history Arrive send }
    {
        let entry = self.entry(send);
        !entry.arrived && entry.begun
    }

    // Whether a send may transfer its data: once it is paired.
    fn may_hand_over(&self, send: OpId) -> bool
        requires { IsSend self.now.plans send }
        ensures { result ≡ may_act self.now.plans self.now.history Data send }
    {
        let entry = self.entry(send);
        !entry.sent && entry.paired.is_some()
    }

    // Whether a receive may take its message: once its send has transferred the data.
    fn may_serve(&self, recv: OpId) -> bool
        requires { IsReceive self.now.plans recv }
        ensures { result ≡ may_act self.now.plans self.now.history Serve recv }
    {
        let entry = self.entry(recv);
        let Some(send) = entry.paired else {
            return false;
        };
        !entry.served && self.entry(send).sent
    }

    /// Lets an action happen.
    pub fn perform(&mut self, action: PlainAction)
        requires { may_act self.old.plans self.old.history action.class action.op ≡ true }
        ensures { self.new ≡ with_action self.old action }
    {
        let sched = self.sched;
        let entry = self.entry(action.op);
        let partner = meet(&mut self.matcher, action);
        let done = with_class(entry, action.class);
        write_met(sched, &mut self.entries, action.op, done, partner);
        self.history.push(&action);
    }
}

impl Progress for WalkState<'_> {
    ghost use Rattle.goal_blocks.specs.Walk.{no_send};

    ghost plans = { λ s. s.plans };

    ghost eager = { λ s. no_send };

    ghost actions = { λ s. s.history };

    fn sched(&self) -> &Sched {
        self.sched
    }

    fn needs(&self, id: OpId) -> &[Need] {
        self.sched.needs(id)
    }

    fn is_met(&self, when: When, id: OpId) -> bool {
        let kind = self.sched().op(id).kind;
        is_done(self.entry(id), class_at(when, kind))
    }
}

// Gives an action to the matcher. Returns the operation that this pairs with that of the action.
fn meet(matcher: &mut Matcher, action: PlainAction) -> Option<OpId>
    requires receive { action.class ≡ Post → IsReceive matcher.old.plans action.op }
    requires send { action.class ≡ Arrive → IsSend matcher.old.plans action.op }
    requires fresh { is_post_or_arrival_class action.class ≡ true → happened action.class action.op matcher.old.actions ≡ false }
    ensures plans { matcher.new.plans ≡ matcher.old.plans }
    ensures actions { matcher.new.actions ≡ more_met matcher.old.actions action.class action.op }
    ensures met { result ≡ met matcher.old.plans matcher.old.actions action.class action.op }
{
    match action.class {
        Class::Post => matcher.post(action.op),
        Class::Arrive => matcher.arrive(action.op),
        Class::Serve | Class::Data | Class::Begin => None,
    }
}

// The class of the action that determines the start of an operation of this kind.
fn first_class(kind: Kind) -> Class
    ensures { result ≡ first_class (Some kind) }
{
    match kind {
        Kind::Calc { .. } | Kind::Send { .. } => Class::Begin,
        Kind::Recv { .. } => Class::Post,
    }
}

// The class of the action that determines its end.
fn last_class(kind: Kind) -> Class
    ensures { result ≡ last_class false (Some kind) }
{
    match kind {
        Kind::Calc { .. } => Class::Begin,
        Kind::Send { .. } => Class::Data,
        Kind::Recv { .. } => Class::Serve,
    }
}

// The class of the action that a dependency waits for, at an operation of this kind.
fn class_at(when: When, kind: Kind) -> Class
    ensures { result ≡ class_at when (Some kind) }
{
    match when {
        When::AfterEnd => last_class(kind),
        When::AfterStart => first_class(kind),
    }
}

/// Returns whether a dependency waits for the action of this class, at an operation of this kind.
pub fn is_moment(class: Class, when: When, kind: Kind) -> bool
    ensures { IsTrue result ↔ class_at when (Some kind) ≡ class }
{
    class_at(when, kind) == class
}
