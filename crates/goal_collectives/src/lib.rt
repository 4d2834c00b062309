//! The schedules of the broadcast, barrier, allgather, allreduce and alltoall, and of a probe.
#![tactic(auto)]

mod draws;
mod formula;
mod making;
mod probe;
mod steps;

pub use goal_blocks::GenFault;
pub use making::generate;
pub use probe::probe_plan;
