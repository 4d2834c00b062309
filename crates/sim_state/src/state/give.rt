// Gives the start or end of an action's operation to the operations that wait for it.
ghost use Rattle.std.specs.Prelude.{◌≡◌, ◌≢◌, ◌+◌, ◌<◌, ◌^◌, ◌∷◌, All, map};
ghost use Rattle.goal_graph.specs.declared.action.Class.TheVariants.{Arrive};
ghost use Rattle.goal_graph.specs.declared.plan.When.{When};
ghost use Rattle.goal_graph.specs.Schedule.{operations, needed};
ghost use Rattle.goal_graph.specs.Concerned.{waiting_on};
ghost use Rattle.goal_graph.specs.Fault.{IsOp};
ghost use Rattle.sim_params.specs.Run.{IsNext, IsRun};
ghost use Rattle.sim_params.specs.Budget.{budget};
ghost use Rattle.sim_state.specs.Awaited.{given_by};
ghost use Rattle.sim_state.specs.Given.{moment_in};
ghost use Rattle.sim_state.specs.Represents.{times_known, entry_known, entry_then};

use crate::entry::{OpState, Times, write_given};
use crate::giving::gives;
use crate::history::History;
use goal_graph::{Need, OpId, Sched, Timed, When};
use sim_order::Steps;
use sim_params::Costs;
use std::sync::ledger::Ledger;

// Returns the start or the end among these times, as a need of this kind asks for, if the operation has it.
#[inline(always)]
fn moment_of(times: &Times, when: When) -> Option<u64>
    ensures { result ≡ moment_in times.now when }
{
    match when {
        When::AfterStart => times.start.get(),
        When::AfterEnd => times.end.get(),
    }
}

/// Gives `times`, the start and end that an action's operation has since the action, to the operations in `waiting`.
///
/// - `given`: `reads` counts exactly the needs that the action may satisfy.
///
/// Only the contract uses the costs and the history.
#[inline(always)]
pub fn give<C: Costs, H: History, N: Ledger>(
    sched: &Sched,
    costs: &C,
    history: &H,
    entries: &mut [OpState],
    action: Timed,
    times: Times,
    waiting: &[Need],
    reads: &mut Steps<N>,
)
    requires run { IsRun sched.now (C.model costs.now) (H.actions history.now) }
    requires within { budget sched.now (C.model costs.now) < 2 ^ 63 }
    requires next { IsNext sched.now (C.model costs.now) (H.actions history.now) action }
    requires times { (when : When) → moment_in times when ≡ moment_in (times_known sched.now (C.model costs.now) (action ∷ H.actions history.now) action.op) when }
    requires whom { action.class ≢ Arrive → waiting.now ≡ waiting_on sched.now action.op }
    requires exist { action.class ≢ Arrive → All (λ need. IsOp sched.now (needed action.op need)) waiting.now }
    requires entries { entries.old ≡ map (entry_then sched.now (C.model costs.now) (H.actions history.now) action) (operations sched.now) }
    ensures entries { entries.new ≡ map (entry_known sched.now (C.model costs.now) (action ∷ H.actions history.now)) (operations sched.now) }
    ensures given { reads.new ≡ reads.old + given_by sched.now action }
{
    for need in waiting {
        if !gives(action.class, need.when) {
            continue;
        }
        reads.tick();
        let Some(moment) = moment_of(&times, need.when) else {
            continue;
        };
        let later = OpId {
            rank: action.op.rank,
            op: need.op,
        };
        write_given(sched, entries, later, moment);
    }
}
