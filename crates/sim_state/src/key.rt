//! The action of an operation in two words.
ghost use Rattle.std.specs.Prelude.{◌≡◌};
ghost use Rattle.goal_graph.specs.Fault.{IsOp};

use goal_graph::{Sched, Timed};
use sim_order::CompactKey;

/// Returns the key of an action of a schedule. The queue keeps it instead of the action.
pub fn compact(sched: &Sched, action: Timed) -> CompactKey
    requires { IsOp sched.now action.op }
    ensures { result ≡ action }
{
    let _plans = sched.plans();
    CompactKey::new(action.time, action.class, action.op)
}
