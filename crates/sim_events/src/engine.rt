// The engine: the history so far, and the action that happens next.
ghost use Rattle.std.specs.Prelude.{◌≡◌, ℕ, ◌<◌, ◌≤◌, ◌+◌, ◌*◌, ◌^◌, ◌↔◌, List, [], ◌∷◌, IsTrue, IfSome, IfNone, IfOk, IfErr, OnOk, count_by, length, reverse};
ghost use Rattle.goal_graph.specs.declared.action.OpId.{OpId};
ghost use Rattle.goal_graph.specs.declared.action.Timed.{Timed};
ghost use Rattle.goal_graph.specs.Fault.{IsOp, IsAccepted};
ghost use Rattle.goal_graph.specs.Action.{plain, same_op};
ghost use Rattle.goal_graph.specs.Schedule.{operations};
ghost use Rattle.goal_graph.specs.Interleaving.{IsCompleteInterleaving};
ghost use Rattle.sim_params.specs.Costs.{is_eager};
ghost use Rattle.sim_params.specs.Budget.{budget};
ghost use Rattle.sim_params.specs.Times.{mate};
ghost use Rattle.sim_params.specs.Run.{IsNext, IsRun, IsFinished, IsCompleteRun};
ghost use Rattle.sim_params.specs.Laws.{IsWithin};
ghost use Rattle.sim_state.specs.Engine.{IsEngineFault, start_known, end_known};
ghost use Rattle.sim_events.specs.Blanks.{IsBlankOf};
ghost use Rattle.sim_events.specs.Cost.{cost_of_start, cost_of_run, reads_of_run};

use crate::follow::{Queue, is_empty};
use crate::pending::{at_the_start, run_on, step_once};
use goal_graph::{OpId, Sched, Timed};
use sim_order::Steps;
use sim_params::Costs;
use sim_state::{EngineFault, History, Kept, Record, RunState};
use std::alloc::Global;
use std::marker::{Brand, Model};
use std::sync::ledger::{Blank, Ledger};

/// Runs a schedule. Contracts see it as the plans of the schedule, the costs, and the history so far, newest first. Its
/// type says whether it stores the history: `Kept` does, `Unkept` does not and takes no memory for it.
pub struct Engine<'a, C: Costs, H: History = Kept> {
    // the history, and the state of each operation
    state: RunState<'a, C, H>,
    // the queue of the actions that may come next; a finished run releases it
    pending: Option<Queue>,
}

// It is dropped by a call, and not field by field, so that callers that drop one are shorter to prove.
impl<C: Costs + Drop, H: History> Drop for Engine<'_, C, H> {
    fn drop(self) {
        let Engine {
            state: _state,
            pending: _pending,
        } = self;
    }
}

impl<'a, C: Costs, H: History> Model for Engine<'a, C, H> {
    ghost use Rattle.sim_state.specs.Engine.{RunSoFar};
    ghost use Rattle.sim_events.specs.Pending.{IsPending};

    ghost Value = { RunSoFar C };

    ghost view = { λ e. e.state };

    ghost invariant = { λ e. IsPending e.state.plans (C.model e.state.costs) e.state.history e.pending };
}

impl<'a, C: Costs + Drop> Engine<'a, C> {
    /// Creates an engine with the empty history. It allocates all memory of the run; no later call allocates any.
    ///
    /// # Errors
    ///
    /// `Budget` with the time budget in nanoseconds, if it is over 2^63-1. `NoMemory` if memory runs out.
    pub fn new(alloc: Global, sched: &'a Sched, costs: C) -> Result<Engine<'a, C>, EngineFault>
        ensures plans { IfOk result (λ e. e.plans ≡ sched.now) }
        ensures costs { IfOk result (λ e. e.costs ≡ costs) }
        ensures empty { IfOk result (λ e. e.history ≡ []) }
        ensures fits { OnOk result (budget sched.now (C.model costs) < 2 ^ 63) }
        ensures fault { IfErr result (IsEngineFault (budget sched.now (C.model costs))) }
    {
        new_by::<C, Brand>(alloc, Blank::new(1), sched, costs)
    }
}

impl<'a, C: Costs + Drop, H: History> Engine<'a, C, H> {
    /// Creates an engine as `new` does. Its type says whether it stores the history, and `steps` counts the comparisons
    /// of keys.
    ///
    /// - `counted`: with at most 2^k operations it makes at most 10k + 16 comparisons per operation.
    ///
    /// It also asks the schedule how many needs each operation has, and whether another needs it. This is not counted.
    pub fn start_counted<L: Ledger>(
        alloc: Global,
        sched: &'a Sched,
        costs: C,
        steps: &mut Steps<L>,
    ) -> Result<Engine<'a, C, H>, EngineFault>
        ensures plans { IfOk result (λ e. e.plans ≡ sched.now) }
        ensures costs { IfOk result (λ e. e.costs ≡ costs) }
        ensures empty { IfOk result (λ e. e.history ≡ []) }
        ensures fits { OnOk result (budget sched.now (C.model costs) < 2 ^ 63) }
        ensures fault { IfErr result (IsEngineFault (budget sched.now (C.model costs))) }
        ensures counted { (k : ℕ) → length (operations sched.now) ≤ 2 ^ k → steps.new ≤ steps.old + cost_of_start k sched.now }
    {
        let state = RunState::new(alloc, sched, costs)?;
        let pending = at_the_start(alloc, &state, steps)?;
        Ok(Engine {
            state,
            pending: Some(pending),
        })
    }
}

// Creates an engine with a counter made for this call.
fn new_by<'a, C: Costs + Drop, L: Ledger>(
    alloc: Global,
    blank: Blank,
    sched: &'a Sched,
    costs: C,
) -> Result<Engine<'a, C>, EngineFault>
    requires steps { IsBlankOf L.name L.parts blank }
    ensures plans { IfOk result (λ e. e.plans ≡ sched.now) }
    ensures costs { IfOk result (λ e. e.costs ≡ costs) }
    ensures empty { IfOk result (λ e. e.history ≡ []) }
    ensures fits { OnOk result (budget sched.now (C.model costs) < 2 ^ 63) }
    ensures fault { IfErr result (IsEngineFault (budget sched.now (C.model costs))) }
{
    let mut steps = Steps::<L>::new(blank);
    Engine::start_counted(alloc, sched, costs, &mut steps)
}

impl<'a, C: Costs> Engine<'a, C> {
    /// Returns the history, oldest first.
    pub fn trace(&self) -> &[Timed]
        ensures { result.now ≡ reverse self.now.history }
    {
        self.state.trace()
    }
}

impl<'a, C: Costs, H: History> Engine<'a, C, H> {
    /// Performs the possible action with the least key, and returns it. If no action is possible, it returns `None` and
    /// changes nothing.
    pub fn step(&mut self) -> Option<Timed>
        ensures next { IfSome result (IsNext self.old.plans (C.model self.old.costs) self.old.history) }
        ensures after { IfSome result (λ a. self.new ≡ record self.old { history = a ∷ self.old.history }) }
        ensures finished { IfNone result (IsFinished self.old.plans (C.model self.old.costs) self.old.history) }
        ensures same { IfNone result (self.new ≡ self.old) }
        ensures run { IsRun self.new.plans (C.model self.new.costs) self.new.history }
    {
        self.known();
        let Some(pending) = &mut self.pending else {
            return None;
        };
        step_once::<C, H, Brand, Brand, Brand, Brand>(
            &mut self.state,
            pending,
            Blank::new(1),
            Blank::new(1),
            Blank::new(1),
            Blank::new(1),
        )
    }

    /// Performs actions until none is possible. Then it releases the memory that steps need.
    ///
    /// - `complete`: the history is a complete run, and `only` this one is.
    /// - `three_each`: no operation has more than three actions.
    /// - `times`: no time in it is later than the time budget.
    /// - `interleaving`: without its times it is a complete interleaving, in which the costs say which sends are eager.
    pub fn run(&mut self)
        ensures plans { self.new.plans ≡ self.old.plans }
        ensures costs { self.new.costs ≡ self.old.costs }
        ensures complete { IsCompleteRun self.new.plans (C.model self.new.costs) self.new.history }
        ensures only { (h : List Timed) → IsCompleteRun self.new.plans (C.model self.new.costs) h → h ≡ self.new.history }
        ensures three_each { (x : OpId) → count_by (λ a. same_op a.op x) (plain self.new.history) ≤ 3 }
        ensures times { IsWithin self.new.plans (C.model self.new.costs) self.new.history (budget self.new.plans (C.model self.new.costs)) }
        ensures interleaving { IsCompleteInterleaving self.new.plans (is_eager self.new.plans (C.model self.new.costs)) (plain self.new.history) }
    {
        self.run_by::<Brand, Brand, Brand>(Blank::new(1), Blank::new(1), Blank::new(1));
    }

    /// Runs as `run` does, and counts: `steps` the comparisons of keys, `looks` the matcher's probes of match lists,
    /// `reads` the needs of operations that actions examine. The other clauses of `run` follow from `complete`.
    ///
    /// - `counted`: with at most 2^k operations it makes at most 18k + 29 comparisons per action of the history, and
    ///   8k + 15 each time a station switches its resource, which happens at most `most_moves` times.
    /// - `looked`: the matcher makes at most eight probes per action.
    /// - `needed`: an action examines each need that its start or end may satisfy once, and no other. The number is
    ///   exact.
    ///
    /// The clauses bound only what is counted. An action visits the needs of waiting operations twice: to satisfy them,
    /// which is counted, and to update the queue, which is not.
    pub fn run_counted<L: Ledger, M: Ledger, N: Ledger>(
        &mut self,
        steps: &mut Steps<L>,
        looks: &mut Steps<M>,
        reads: &mut Steps<N>,
    )
        ensures plans { self.new.plans ≡ self.old.plans }
        ensures costs { self.new.costs ≡ self.old.costs }
        ensures complete { IsCompleteRun self.new.plans (C.model self.new.costs) self.new.history }
        ensures only { (h : List Timed) → IsCompleteRun self.new.plans (C.model self.new.costs) h → h ≡ self.new.history }
        ensures counted { (k : ℕ) → length (operations self.old.plans) ≤ 2 ^ k → steps.new ≤ steps.old + cost_of_run k self.new.plans self.new.history }
        ensures looked { looks.new ≤ looks.old + 8 * length self.new.history }
        ensures needed { reads.new + reads_of_run self.old.plans self.old.history ≡ reads.old + reads_of_run self.new.plans self.new.history }
    {
        self.known();
        if let Some(pending) = &mut self.pending {
            run_on::<C, H, L, Brand, M, N>(
                &mut self.state,
                pending,
                Blank::new(1),
                steps,
                looks,
                reads,
            );
        }
        drop(self.pending.take());
    }

    // Performs actions until none is possible, with counters made for this call.
    fn run_by<L: Ledger, M: Ledger, N: Ledger>(
        &mut self,
        blank: Blank,
        for_looks: Blank,
        for_reads: Blank,
    )
        requires steps { IsBlankOf L.name L.parts blank }
        requires looks { IsBlankOf M.name M.parts for_looks }
        requires reads { IsBlankOf N.name N.parts for_reads }
        ensures plans { self.new.plans ≡ self.old.plans }
        ensures costs { self.new.costs ≡ self.old.costs }
        ensures complete { IsCompleteRun self.new.plans (C.model self.new.costs) self.new.history }
    {
        let mut steps = Steps::<L>::new(blank);
        let mut looks = Steps::<M>::new(for_looks);
        let mut reads = Steps::<N>::new(for_reads);
        self.run_counted(&mut steps, &mut looks, &mut reads);
    }

    /// Returns whether no action is possible.
    pub fn is_done(&self) -> bool
        ensures { IsTrue result ↔ IsFinished self.now.plans (C.model self.now.costs) self.now.history }
    {
        self.known();
        match &self.pending {
            Some(pending) => is_empty::<Brand>(Blank::new(1), pending),
            None => true,
        }
    }

    /// Returns the start, the end and the partner of an operation, as far as the history has them.
    pub fn record(&self, id: OpId) -> Record
        requires { IsOp self.now.plans id }
        ensures start { result.start ≡ start_known self.now.plans (C.model self.now.costs) self.now.history id }
        ensures end { result.end ≡ end_known self.now.plans (C.model self.now.costs) self.now.history id }
        ensures partner { result.partner ≡ mate self.now.plans (C.model self.now.costs) self.now.history id }
    {
        self.state.record(id)
    }

    /// Returns the schedule that runs.
    pub fn sched(&self) -> &'a Sched
        ensures { result.now ≡ self.now.plans }
    {
        self.state.sched()
    }

    /// Returns the costs of its messages.
    pub fn costs(&self) -> &C
        ensures { result.now ≡ self.now.costs }
    {
        self.state.costs()
    }

    /// States the invariant: the schedule is accepted, the time budget is at most 2^63-1, the history is a run, and no
    /// time in it is later than the budget.
    pub fn known(&self)
        ensures accepted { IsAccepted self.now.plans }
        ensures fits { budget self.now.plans (C.model self.now.costs) < 2 ^ 63 }
        ensures run { IsRun self.now.plans (C.model self.now.costs) self.now.history }
        ensures times { IsWithin self.now.plans (C.model self.now.costs) self.now.history (budget self.now.plans (C.model self.now.costs)) }
    {
        self.state.known();
    }
}
