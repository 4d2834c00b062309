//! The queue of a walker: which operations may act, and how it is updated after an action.
ghost use Rattle.std.specs.Prelude.{◌≡◌, [], ◌∷◌, drop, ◌⊎◌, true, IfSome, IfNone, Some, length};
ghost use Rattle.goal_graph.specs.declared.action.OpId.{OpId};
ghost use Rattle.goal_graph.specs.declared.action.Class.{Class};
ghost use Rattle.goal_graph.specs.Action.{Act};
ghost use Rattle.goal_graph.specs.Schedule.{operations};
ghost use Rattle.goal_graph.specs.Matching.{pairs, partner};
ghost use Rattle.goal_graph.specs.Fault.{IsOp};
ghost use Rattle.goal_graph.specs.Interleaving.{IsCompleteInterleaving};
ghost use Rattle.goal_blocks.specs.Walk.{no_send, ComesFirst};
ghost use Rattle.goal_certify.specs.WalkSoFar.{act_of};
ghost use Rattle.goal_certify.specs.WalkQueue.{may_act, IsChoice, IsQueue, IsQueueBut, IsRefreshed, IsMoved, WaitsAt, moves_partner, IsCursorOf, AreCursors};

use super::action::PlainAction;
use super::cursor::Cursor;
use super::state::{WalkState, is_moment};
use super::turns::Turns;
use goal_graph::{Class, OpId, entry_of_mut};

/// Puts the key of each operation that may act before the first action: those without needs.
pub fn fill(state: &WalkState, queue: &mut Turns)
    requires start { state.now.history ≡ [] }
    requires each { length queue.old ≡ length (operations state.now.plans) }
    ensures { IsQueue state.now.plans state.now.history queue.new }
{
    for id in state.sched().operations() {
        fill_one(state, queue, *id);
    }
}

// Puts the key of an operation, before the first action.
fn fill_one(state: &WalkState, queue: &mut Turns, id: OpId)
    requires exists { IsOp state.now.plans id }
    requires start { state.now.history ≡ [] }
    requires each { length queue.old ≡ length (operations state.now.plans) }
    ensures { IsRefreshed state.now.plans state.now.history id queue.old queue.new }
{
    let sched = state.sched();
    let slot = sched.index(id);
    if sched.needs(id).is_empty() {
        queue.put(slot);
        return;
    }
    queue.take(slot);
}

/// Returns the action that happens next, or `None` if none may happen.
pub fn next(state: &WalkState, queue: &Turns) -> Option<PlainAction>
    requires { IsQueue state.now.plans state.now.history queue.now }
    ensures may { IfSome result (λ a. may_act state.now.plans state.now.history a.class a.op ≡ true) }
    ensures first { IfSome result (λ a. (b : Act) → may_act state.now.plans state.now.history b.class b.op ≡ true → ComesFirst (act_of a) b) }
    ensures none { IfNone result (IsCompleteInterleaving state.now.plans no_send state.now.history) }
{
    state.known();
    let Some(slot) = queue.least() else {
        return None;
    };
    let op = state.sched().operations()[slot as usize];
    Some(PlainAction {
        class: state.class_of(op),
        op,
    })
}

/// Updates the keys of the operations whose next action may have changed through this action, the last that has
/// happened: its operation, the partner of that operation, and the operations that wait for the action.
pub fn follow(state: &WalkState, queue: &mut Turns, cursors: &mut [Cursor], action: PlainAction)
    requires exists { IsOp state.now.plans action.op }
    requires newest { state.now.history ≡ act_of action ∷ drop 1 state.now.history }
    requires rest { IsQueueBut state.now.plans state.now.history (λ slot. IsMoved state.now.plans state.now.history action.class action.op) queue.old }
    requires cursors { AreCursors state.now.plans state.now.history cursors.old }
    ensures queue { IsQueue state.now.plans state.now.history queue.new }
    ensures cursors { AreCursors state.now.plans state.now.history cursors.new }
{
    follow_own(state, queue, action);
    follow_partner(state, queue, action);
    follow_waiting(state, queue, cursors, action);
}

// Updates the key of the operation of an action, the last that has happened. Its needs are not tested, because it has
// started.
fn follow_own(state: &WalkState, queue: &mut Turns, action: PlainAction)
    requires exists { IsOp state.now.plans action.op }
    requires each { length queue.old ≡ length (operations state.now.plans) }
    requires newest { state.now.history ≡ act_of action ∷ drop 1 state.now.history }
    ensures { IsRefreshed state.now.plans state.now.history action.op queue.old queue.new }
{
    let slot = state.sched().index(action.op);
    match state.choice_after(action) {
        Some(_) => queue.put(slot),
        None => queue.take(slot),
    }
}

// Whether an action of this class may let the partner act.
fn moves_partner(class: Class) -> bool
    ensures { result ≡ moves_partner class }
{
    match class {
        Class::Data | Class::Post => true,
        Class::Arrive | Class::Serve | Class::Begin => false,
    }
}

// Updates the key of the partner of an action's operation, if it has one and the action may let it act. The action is
// the last that has happened.
fn follow_partner(state: &WalkState, queue: &mut Turns, action: PlainAction)
    requires exists { IsOp state.now.plans action.op }
    requires newest { state.now.history ≡ act_of action ∷ drop 1 state.now.history }
    requires rest { IsQueueBut state.now.plans state.now.history (λ slot y.
        ((moves_partner action.class ≡ true) × (partner (pairs state.now.plans state.now.history) action.op ≡ Some y))
        ⊎ WaitsAt state.now.plans action.class action.op y) queue.old }
    ensures { IsQueueBut state.now.plans state.now.history (λ slot. WaitsAt state.now.plans action.class action.op) queue.new }
{
    state.known();
    if !moves_partner(action.class) {
        return;
    }
    let Some(partner) = state.partner(action.op) else {
        return;
    };
    queue.put(state.sched().index(partner));
}

// Updates the keys of the operations that wait for this action.
fn follow_waiting(state: &WalkState, queue: &mut Turns, cursors: &mut [Cursor], action: PlainAction)
    requires exists { IsOp state.now.plans action.op }
    requires rest { IsQueueBut state.now.plans state.now.history (λ slot. WaitsAt state.now.plans action.class action.op) queue.old }
    requires cursors { AreCursors state.now.plans state.now.history cursors.old }
    ensures queue { IsQueue state.now.plans state.now.history queue.new }
    ensures cursors { AreCursors state.now.plans state.now.history cursors.new }
{
    let kind = state.sched().op(action.op).kind;
    for need in state.sched().waiting_on(action.op) {
        if !is_moment(action.class, need.when, kind) {
            continue;
        }
        let waiting = OpId {
            rank: action.op.rank,
            op: need.op,
        };
        refresh(state, queue, cursors, waiting);
    }
}

// The class of the action of an operation that may happen, if one may. Its needs are tested from its cursor on.
fn choice_from(state: &WalkState, cursors: &mut [Cursor], id: OpId) -> Option<Class>
    requires exists { IsOp state.now.plans id }
    requires cursors { AreCursors state.now.plans state.now.history cursors.old }
    ensures choice { IsChoice state.now.plans state.now.history id result }
    ensures cursors { AreCursors state.now.plans state.now.history cursors.new }
{
    let cursor = entry_of_mut(cursors, state.sched(), id);
    state.choice(id, cursor)
}

// Puts the key of an operation if it may act, and removes the key if it may not.
fn refresh(state: &WalkState, queue: &mut Turns, cursors: &mut [Cursor], id: OpId)
    requires exists { IsOp state.now.plans id }
    requires each { length queue.old ≡ length (operations state.now.plans) }
    requires cursors { AreCursors state.now.plans state.now.history cursors.old }
    ensures queue { IsRefreshed state.now.plans state.now.history id queue.old queue.new }
    ensures cursors { AreCursors state.now.plans state.now.history cursors.new }
{
    let slot = state.sched().index(id);
    match choice_from(state, cursors, id) {
        Some(_) => queue.put(slot),
        None => queue.take(slot),
    }
}
