//! The schedules of the reduce, gather, scatter, reduce_scatter and scan.
#![tactic(auto)]

mod fault;
mod formula;
mod making;
mod steps;
mod tree;

pub use fault::RootedFault;
pub use making::generate_rooted;
