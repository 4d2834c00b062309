// The queue of the actions that may come next, and the steps of a run.
ghost use Rattle.std.specs.Prelude.{◌≡◌, ℕ, ◌<◌, ◌≤◌, ◌+◌, ◌*◌, ◌^◌, [], IfOk, length};
ghost use Rattle.goal_graph.specs.Schedule.{operations};
ghost use Rattle.sim_params.specs.Costs.{CostModel};
ghost use Rattle.sim_params.specs.Run.{IsRun, IsCompleteRun};
ghost use Rattle.sim_queue.specs.Map.{IsEmptyMap};
ghost use Rattle.sim_stations.specs.Stations.{cost_of_waiting};
ghost use Rattle.sim_events.specs.Blanks.{IsBlankOf};
ghost use Rattle.sim_events.specs.Queue.{IsOfSchedule};
ghost use Rattle.sim_events.specs.Comparisons.{spent, count_of, last_look};
ghost use Rattle.sim_events.specs.Cost.{cost_of_actions, cost_of_start, cost_of_run, most_moves, reads_of_run};
ghost use Rattle.sim_events.specs.Changes.{HaveChanged, HaveChangedOn};
ghost use Rattle.sim_events.specs.Pending.{IsPendingOf, IsStepped};

use crate::follow::{Queue, fill, follow, next, settle, waiting_after};
use goal_graph::Timed;
use goal_limits::NoMemory;
use sim_order::Steps;
use sim_params::Costs;
use sim_state::{History, RunState};
use std::alloc::Global;
use std::sync::ledger::{Blank, Ledger};

// Creates the queue of a schedule, without keys.
fn queue_of<C: Costs, H: History>(alloc: Global, state: &RunState<C, H>) -> Result<Queue, NoMemory>
    ensures of_it { IfOk result (λ q. (costs : CostModel) → IsOfSchedule state.now.plans costs [] q) }
    ensures empty { IfOk result (λ q. IsEmptyMap q.keys) }
    ensures changed { IfOk result (λ q. (all : ℕ) × HaveChanged state.now.plans [] q all) }
{
    let stations = state.stations();
    Queue::new(
        alloc,
        &stations.numbers,
        &stations.pairs,
        stations.resources,
    )
}

/// Creates the queue before the first action, with the key of each operation that has a possible action. With at most
/// 2^k operations it makes at most 10k + 16 comparisons per operation. `Err` means out of memory.
pub fn at_the_start<C: Costs, H: History, L: Ledger>(
    alloc: Global,
    state: &RunState<C, H>,
    steps: &mut Steps<L>,
) -> Result<Queue, NoMemory>
    requires empty { state.now.history ≡ [] }
    ensures pending { IfOk result (IsPendingOf C.model state.now) }
    ensures counted { (k : ℕ) → length (operations state.now.plans) ≤ 2 ^ k → steps.new ≤ steps.old + cost_of_start k state.now.plans }
{
    let mut queue = queue_of(alloc, state)?;
    queue.known();
    fill(state, &mut queue, steps);
    Ok(queue)
}

// Performs the next action and returns it, or `None` if none is possible. `counted` bounds the comparisons by the
// action and the number of times that stations switch.
fn step<C: Costs, H: History, L: Ledger, R: Ledger, M: Ledger, N: Ledger>(
    state: &mut RunState<C, H>,
    queue: &mut Queue,
    steps: &mut Steps<L>,
    moves: &mut Steps<R>,
    looks: &mut Steps<M>,
    reads: &mut Steps<N>,
) -> Option<Timed>
    requires pending { IsPendingOf C.model state.old queue.old }
    ensures pending { IsPendingOf C.model state.new queue.new }
    ensures stepped { IsStepped C.model state.old state.new result }
    ensures run { IsRun state.new.plans (C.model state.new.costs) state.new.history }
    ensures counted { (k : ℕ) → length (operations state.old.plans) ≤ 2 ^ k
        → steps.new + cost_of_waiting k queue.new.stands + spent k queue.old + cost_of_actions k 0 moves.old ≤ steps.old + cost_of_waiting k queue.old.stands + spent k queue.new + cost_of_actions k (count_of result) moves.new + last_look result }
    ensures moved { (all : ℕ) → HaveChanged state.old.plans state.old.history queue.old all → HaveChangedOn state.new.plans state.new.history queue.new all moves.old moves.new }
    ensures needed { reads.new + reads_of_run state.old.plans state.old.history ≡ reads.old + reads_of_run state.new.plans state.new.history }
    ensures looked { looks.new ≤ looks.old + 8 * count_of result }
{
    state.known();
    let (slot, action) = next(state, queue, steps, moves)?;
    let waiting = waiting_after(state, action);
    state.perform(action, waiting, looks, reads);
    settle(state, queue, slot, action, steps);
    follow(state, queue, action, waiting, steps);
    Some(action)
}

// Performs actions until none is possible. With at most 2^k operations it makes at most 18k + 29 comparisons per
// action, and 8k + 15 each time a station switches its resource. This includes the comparisons for keys that are
// already in the queue. The matcher makes at most eight probes per action. Each need that an action may satisfy is
// counted once.
fn run<C: Costs, H: History, L: Ledger, R: Ledger, M: Ledger, N: Ledger>(
    state: &mut RunState<C, H>,
    queue: &mut Queue,
    steps: &mut Steps<L>,
    moves: &mut Steps<R>,
    looks: &mut Steps<M>,
    reads: &mut Steps<N>,
)
    requires pending { IsPendingOf C.model state.old queue.old }
    ensures plans { state.new.plans ≡ state.old.plans }
    ensures costs { state.new.costs ≡ state.old.costs }
    ensures complete { IsCompleteRun state.new.plans (C.model state.new.costs) state.new.history }
    ensures counted { (k : ℕ) → length (operations state.old.plans) ≤ 2 ^ k
        → steps.new + spent k queue.old + cost_of_actions k (length state.old.history) moves.old ≤ steps.old + cost_of_waiting k queue.old.stands + cost_of_actions k (length state.new.history) moves.new + 3 }
    ensures moved { moves.new ≤ moves.old + most_moves state.new.plans state.new.history }
    ensures needed { reads.new + reads_of_run state.old.plans state.old.history ≡ reads.old + reads_of_run state.new.plans state.new.history }
    ensures looked { looks.new + 8 * length state.old.history ≤ looks.old + 8 * length state.new.history }
{
    'steps: while step(state, queue, steps, moves, looks, reads).is_some() {}
}

/// Performs the possible action with the least key, and returns it. If no action is possible, it returns `None` and
/// changes nothing.
pub fn step_once<C: Costs, H: History, L: Ledger, R: Ledger, M: Ledger, N: Ledger>(
    state: &mut RunState<C, H>,
    queue: &mut Queue,
    blank: Blank,
    for_moves: Blank,
    for_looks: Blank,
    for_reads: Blank,
) -> Option<Timed>
    requires steps { IsBlankOf L.name L.parts blank }
    requires moves { IsBlankOf R.name R.parts for_moves }
    requires looks { IsBlankOf M.name M.parts for_looks }
    requires reads { IsBlankOf N.name N.parts for_reads }
    requires pending { IsPendingOf C.model state.old queue.old }
    ensures pending { IsPendingOf C.model state.new queue.new }
    ensures stepped { IsStepped C.model state.old state.new result }
{
    let mut steps = Steps::<L>::new(blank);
    let mut moves = Steps::<R>::new(for_moves);
    let mut looks = Steps::<M>::new(for_looks);
    let mut reads = Steps::<N>::new(for_reads);
    step(state, queue, &mut steps, &mut moves, &mut looks, &mut reads)
}

/// Performs actions until none is possible. The history at the end bounds the comparisons and the matcher's probes, and
/// gives the exact number of needs that were examined.
pub fn run_on<C: Costs, H: History, L: Ledger, R: Ledger, M: Ledger, N: Ledger>(
    state: &mut RunState<C, H>,
    queue: &mut Queue,
    for_moves: Blank,
    steps: &mut Steps<L>,
    looks: &mut Steps<M>,
    reads: &mut Steps<N>,
)
    requires moves { IsBlankOf R.name R.parts for_moves }
    requires pending { IsPendingOf C.model state.old queue.old }
    ensures plans { state.new.plans ≡ state.old.plans }
    ensures costs { state.new.costs ≡ state.old.costs }
    ensures complete { IsCompleteRun state.new.plans (C.model state.new.costs) state.new.history }
    ensures counted { (k : ℕ) → length (operations state.old.plans) ≤ 2 ^ k → steps.new ≤ steps.old + cost_of_run k state.new.plans state.new.history }
    ensures needed { reads.new + reads_of_run state.old.plans state.old.history ≡ reads.old + reads_of_run state.new.plans state.new.history }
    ensures looked { looks.new ≤ looks.old + 8 * length state.new.history }
{
    queue.known();
    let mut moves = Steps::<R>::new(for_moves);
    run(state, queue, steps, &mut moves, looks, reads);
}
