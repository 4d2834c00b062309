//! Communication schedules: for each rank a list of operations, of dependencies and of notes.
#![tactic(auto)]

mod action;
mod check;
mod cycle;
mod entry;
mod fault;
mod laws;
mod listing;
mod plan;
mod rows;
mod sched;
mod tables;

pub use action::{Class, OpId, Stuck, Timed, Why};
pub use entry::{entry_of, entry_of_mut};
pub use fault::PlanFault;
pub use laws::{
    laws_of_apart_schedules, laws_of_complete_interleavings, laws_of_interleavings, laws_of_orders,
    laws_of_partners, laws_of_schedules,
};
pub use plan::{Dep, Kind, Message, Need, Note, Op, RankPlan, When};
pub use sched::Sched;
