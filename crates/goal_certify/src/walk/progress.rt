//! What steps through a schedule.
ghost use Rattle.std.specs.Prelude.{◌≡◌, Bool, List, All};
ghost use Rattle.goal_graph.specs.declared.action.OpId.{OpId};
ghost use Rattle.goal_graph.specs.Schedule.{Plan, needs, needed};
ghost use Rattle.goal_graph.specs.Action.{Act};
ghost use Rattle.goal_graph.specs.Allowed.{is_met};
ghost use Rattle.goal_graph.specs.Fault.{IsOp};

use goal_graph::{Need, OpId, Sched, When};

/// What steps through a schedule: an engine, with times, or a walk, without.
pub trait Progress {
    /// The plans of its schedule.
    ghost plans: { Self → List Plan };

    /// The eager sends.
    ghost eager: { Self → OpId → Bool };

    /// The actions so far, the newest first.
    ghost actions: { Self → List Act };

    /// Returns the schedule.
    fn sched(&self) -> &Sched
        ensures { result.now ≡ plans self.now };

    /// Returns what an operation needs, in the order of the rank's dependencies.
    fn needs(&self, id: OpId) -> &[Need]
        requires { IsOp (plans self.now) id }
        ensures needs { result.now ≡ needs (plans self.now) id }
        ensures exist { All (λ need. IsOp (plans self.now) (needed id need)) result.now };

    /// Returns whether the start or end of an operation that a dependency waits for has happened.
    fn is_met(&self, when: When, id: OpId) -> bool
        requires { IsOp (plans self.now) id }
        ensures { result ≡ is_met (plans self.now) (eager self.now) (actions self.now) when id };
}
