//! The queue of an engine: what it contains, and how it is updated after an action.
ghost use Rattle.std.specs.Prelude.{◌≡◌, ◌≢◌, ℕ, ◌<◌, ◌≤◌, ◌+◌, ◌*◌, ◌^◌, ◌↔◌, ◌⊎◌, All, IsTrue, IfSome, IsNone, Some, true, length, slice_get};
ghost use Rattle.goal_graph.specs.declared.action.Class.TheVariants.{Arrive, Serve};
ghost use Rattle.goal_graph.specs.Schedule.{operations, needed};
ghost use Rattle.goal_graph.specs.Concerned.{waiting_on};
ghost use Rattle.goal_graph.specs.Fault.{IsOp};
ghost use Rattle.sim_params.specs.Times.{mate, cpu};
ghost use Rattle.sim_params.specs.Run.{IsNext, IsFinished};
ghost use Rattle.sim_queue.specs.Map.{key_at, IsEmptyMap};
ghost use Rattle.sim_stations.specs.Stations.{holds_cpu, pair_of, IsLater, cost_of_waiting, cost_of_moves};
ghost use Rattle.sim_resources.specs.Numbering.{AreStationed};
ghost use Rattle.sim_state.specs.Free.{side};
ghost use Rattle.sim_events.specs.Blanks.{IsBlankOf};
ghost use Rattle.sim_events.specs.Comparisons.{spent};
ghost use Rattle.sim_events.specs.Changes.{AreAtPlaces, HaveChanged, HaveChangedOn};
ghost use Rattle.sim_events.specs.Queue.{IsOfSchedule, IsQueue, IsQueueBut, HasPossibleKeys, IsRefreshed, IsSettledBy, IsDueAfter, Awaits};

use goal_graph::{Class, Need, OpId, Timed};
use sim_order::Steps;
use sim_params::Costs;
use sim_state::{History, RunState, compact, gives};
use sim_stations::StationQueue;
use std::sync::ledger::{Blank, Ledger};

/// For each operation that has a possible action, the key of that action.
pub type Queue = StationQueue;

/// Puts the key of each operation, if it has a possible action. No operation has a key before.
pub fn fill<C: Costs, H: History, L: Ledger>(
    state: &RunState<C, H>,
    queue: &mut Queue,
    steps: &mut Steps<L>,
)
    requires of_it { IsOfSchedule state.now.plans (C.model state.now.costs) state.now.history queue.old }
    requires empty { IsEmptyMap queue.old.keys }
    ensures queue { IsQueue state.now.plans (C.model state.now.costs) state.now.history queue.new }
    ensures placed { AreAtPlaces queue.old queue.new }
    ensures counted { (k : ℕ) → length queue.old.keys ≤ 2 ^ k → steps.new + cost_of_waiting k queue.new.stands ≤ steps.old + cost_of_waiting k queue.old.stands + spent k queue.new }
{
    for id in state.sched().operations() {
        refresh(state, queue, *id, steps);
    }
}

/// Returns the action that happens next, with its slot, or `None` if nothing is possible.
pub fn next<C: Costs, H: History, L: Ledger, R: Ledger>(
    state: &RunState<C, H>,
    queue: &mut Queue,
    steps: &mut Steps<L>,
    moves: &mut Steps<R>,
) -> Option<(u32, Timed)>
    requires queue { IsQueue state.now.plans (C.model state.now.costs) state.now.history queue.old }
    ensures queue { IsQueue state.now.plans (C.model state.now.costs) state.now.history queue.new }
    ensures next { IfSome result (λ r. IsNext state.now.plans (C.model state.now.costs) state.now.history r.1) }
    ensures slot { IfSome result (λ r. slice_get (operations state.now.plans) r.0 ≡ Some r.1.op) }
    ensures key { IfSome result (λ r. key_at queue.new.keys r.0 ≡ Some r.1) }
    ensures found { IfSome result (λ r. queue.new.found ≡ Some r.0) }
    ensures keys { queue.new.keys ≡ queue.old.keys }
    ensures none { IsNone result → IsFinished state.now.plans (C.model state.now.costs) state.now.history }
    ensures counted { (k : ℕ) → length queue.old.keys ≤ 2 ^ k
        → steps.new + cost_of_waiting k queue.new.stands + cost_of_moves k moves.old ≤ steps.old + cost_of_waiting k queue.old.stands + cost_of_moves k moves.new + 3 }
    ensures moved { (all : ℕ) → HaveChanged state.now.plans state.now.history queue.old all → HaveChangedOn state.now.plans state.now.history queue.new all moves.old moves.new }
{
    state.known();
    let (slot, key) = queue.least(state.free_times(), state.sched(), steps, moves)?;
    let action = Timed {
        time: key.time(),
        class: key.class(),
        op: key.id(),
    };
    Some((slot, action))
}

/// Removes the key of an action that has happened. If it holds a cpu, the keys of all operations that wait for what it
/// holds are raised.
pub fn settle<C: Costs, H: History, L: Ledger>(
    state: &RunState<C, H>,
    queue: &mut Queue,
    slot: u32,
    action: Timed,
    steps: &mut Steps<L>,
)
    requires key { key_at queue.old.keys slot ≡ Some action }
    requires found { queue.old.found ≡ Some slot }
    requires stationed { AreStationed state.now.plans queue.old.stations queue.old.pairs }
    requires slot { slice_get (operations state.now.plans) slot ≡ Some action.op }
    requires later { holds_cpu action.class ≡ true → IsLater queue.old.free (pair_of queue.old slot) (cpu state.now.plans (C.model state.now.costs) state.now.history action.op) (side state.now.plans (C.model state.now.costs) state.now.history action.op) }
    ensures settled { IsSettledBy (cpu state.now.plans (C.model state.now.costs) state.now.history action.op) (side state.now.plans (C.model state.now.costs) state.now.history action.op) slot action queue.old queue.new }
    ensures counted { (k : ℕ) → length queue.old.keys ≤ 2 ^ k
        → steps.new + cost_of_waiting k queue.new.stands ≤ steps.old + cost_of_waiting k queue.old.stands + (8 * k + 10) }
{
    match action.class {
        Class::Arrive | Class::Post => queue.take(slot, steps),
        Class::Begin | Class::Data | Class::Serve => {
            queue.act(state.free_times(), slot, steps);
        }
    }
}

/// Puts the keys of the operations whose next action may have become possible by an action: its operation, the partner,
/// and the operations that need the start or end that it gives.
pub fn follow<C: Costs, H: History, L: Ledger>(
    state: &RunState<C, H>,
    queue: &mut Queue,
    action: Timed,
    waiting: &[Need],
    steps: &mut Steps<L>,
)
    requires whom { action.class ≢ Arrive → waiting.now ≡ waiting_on state.now.plans action.op }
    requires exist { action.class ≢ Arrive → All (λ need. IsOp state.now.plans (needed action.op need)) waiting.now }
    requires exists { IsOp state.now.plans action.op }
    requires rest { IsQueueBut state.now.plans (C.model state.now.costs) state.now.history (IsDueAfter state.now.plans (C.model state.now.costs) state.now.history action) queue.old }
    ensures queue { IsQueue state.now.plans (C.model state.now.costs) state.now.history queue.new }
    ensures placed { AreAtPlaces queue.old queue.new }
    ensures counted { (k : ℕ) → length queue.old.keys ≤ 2 ^ k → steps.new + cost_of_waiting k queue.new.stands + spent k queue.old ≤ steps.old + cost_of_waiting k queue.old.stands + spent k queue.new }
{
    follow_own(state, queue, action, steps);
    follow_partner(state, queue, action, steps);
    follow_waiting(state, queue, action, waiting, steps);
}

// Puts the key of the operation of an action, unless this was its last.
fn follow_own<C: Costs, H: History, L: Ledger>(
    state: &RunState<C, H>,
    queue: &mut Queue,
    action: Timed,
    steps: &mut Steps<L>,
)
    requires exists { IsOp state.now.plans action.op }
    requires rest { IsQueueBut state.now.plans (C.model state.now.costs) state.now.history (IsDueAfter state.now.plans (C.model state.now.costs) state.now.history action) queue.old }
    ensures queue { IsQueueBut state.now.plans (C.model state.now.costs) state.now.history (λ y. ((action.class ≢ Serve) × (mate state.now.plans (C.model state.now.costs) state.now.history action.op ≡ Some y)) ⊎ Awaits state.now.plans action.class action.op y) queue.new }
    ensures placed { AreAtPlaces queue.old queue.new }
    ensures counted { (k : ℕ) → length queue.old.keys ≤ 2 ^ k → steps.new + cost_of_waiting k queue.new.stands + spent k queue.old ≤ steps.old + cost_of_waiting k queue.old.stands + spent k queue.new }
{
    if state.is_last(action) {
        return;
    }
    refresh(state, queue, action.op, steps);
}

// Puts the key of the partner of an action's operation, if it has one. After a Serve the partner has no more actions.
fn follow_partner<C: Costs, H: History, L: Ledger>(
    state: &RunState<C, H>,
    queue: &mut Queue,
    action: Timed,
    steps: &mut Steps<L>,
)
    requires exists { IsOp state.now.plans action.op }
    requires rest { IsQueueBut state.now.plans (C.model state.now.costs) state.now.history (λ y. ((action.class ≢ Serve) × (mate state.now.plans (C.model state.now.costs) state.now.history action.op ≡ Some y)) ⊎ Awaits state.now.plans action.class action.op y) queue.old }
    ensures queue { IsQueueBut state.now.plans (C.model state.now.costs) state.now.history (Awaits state.now.plans action.class action.op) queue.new }
    ensures placed { AreAtPlaces queue.old queue.new }
    ensures counted { (k : ℕ) → length queue.old.keys ≤ 2 ^ k → steps.new + cost_of_waiting k queue.new.stands + spent k queue.old ≤ steps.old + cost_of_waiting k queue.old.stands + spent k queue.new }
{
    if let Class::Serve = action.class {
        return;
    }
    let Some(partner) = state.partner(action.op) else {
        return;
    };
    refresh(state, queue, partner, steps);
}

/// Returns the operations that need the operation of an action; none for an Arrive, which gives no start or end. It is
/// called before the action happens: then the schedule's row comes from memory at the same time as what is known of the
/// operation itself.
#[inline(always)]
pub fn waiting_after<'a, C: Costs, H: History>(
    state: &RunState<'a, C, H>,
    action: Timed,
) -> &'a [Need]
    requires { IsOp state.now.plans action.op }
    ensures whom { action.class ≢ Arrive → result.now ≡ waiting_on state.now.plans action.op }
    ensures exist { action.class ≢ Arrive → All (λ need. IsOp state.now.plans (needed action.op need)) result.now }
{
    match action.class {
        Class::Arrive => &[],
        Class::Begin | Class::Post | Class::Data | Class::Serve => state.waiting_on(action.op),
    }
}

// Puts the keys of the operations that need the start or end that an action gives. An Arrive gives none.
fn follow_waiting<C: Costs, H: History, L: Ledger>(
    state: &RunState<C, H>,
    queue: &mut Queue,
    action: Timed,
    waiting: &[Need],
    steps: &mut Steps<L>,
)
    requires whom { action.class ≢ Arrive → waiting.now ≡ waiting_on state.now.plans action.op }
    requires exist { action.class ≢ Arrive → All (λ need. IsOp state.now.plans (needed action.op need)) waiting.now }
    requires exists { IsOp state.now.plans action.op }
    requires rest { IsQueueBut state.now.plans (C.model state.now.costs) state.now.history (Awaits state.now.plans action.class action.op) queue.old }
    ensures queue { IsQueue state.now.plans (C.model state.now.costs) state.now.history queue.new }
    ensures placed { AreAtPlaces queue.old queue.new }
    ensures counted { (k : ℕ) → length queue.old.keys ≤ 2 ^ k → steps.new + cost_of_waiting k queue.new.stands + spent k queue.old ≤ steps.old + cost_of_waiting k queue.old.stands + spent k queue.new }
{
    if let Class::Arrive = action.class {
        return;
    }
    for need in waiting {
        if !gives(action.class, need.when) {
            continue;
        }
        let later = OpId {
            rank: action.op.rank,
            op: need.op,
        };
        refresh(state, queue, later, steps);
    }
}

// Puts the key of an operation that has none, if it has a possible action.
fn refresh<C: Costs, H: History, L: Ledger>(
    state: &RunState<C, H>,
    queue: &mut Queue,
    id: OpId,
    steps: &mut Steps<L>,
)
    requires exists { IsOp state.now.plans id }
    requires possible { HasPossibleKeys state.now.plans (C.model state.now.costs) state.now.history queue.old }
    ensures queue { IsRefreshed state.now.plans (C.model state.now.costs) state.now.history id queue.old queue.new }
    ensures placed { AreAtPlaces queue.old queue.new }
    ensures counted { (k : ℕ) → length queue.old.keys ≤ 2 ^ k → steps.new + cost_of_waiting k queue.new.stands + spent k queue.old ≤ steps.old + cost_of_waiting k queue.old.stands + spent k queue.new }
{
    let slot = state.sched().index(id);
    if queue.has(slot) {
        return;
    }
    if let Some(action) = state.choice(id) {
        queue.put(
            state.free_times(),
            slot,
            compact(state.sched(), action),
            steps,
        );
    }
}

/// Returns whether no operation has a key.
pub fn is_empty<L: Ledger>(blank: Blank, queue: &Queue) -> bool
    requires steps { IsBlankOf L.name L.parts blank }
    ensures { IsTrue result ↔ IsEmptyMap queue.now.keys }
{
    let mut steps = Steps::<L>::new(blank);
    queue.is_empty(&mut steps)
}
