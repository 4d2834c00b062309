//! The parameters and costs of a run, its time budget, and the rules of the timed run.
#![tactic(auto)]

mod costs;
mod laws;
mod params;
mod shares;

pub use costs::{Costs, LogGops, Spans};
pub use laws::{
    laws_of_defaults, laws_of_reasons, laws_of_runs, laws_of_the_budget, laws_of_times,
};
pub use params::{
    DEFAULT_GAP, DEFAULT_GAP_PER_BYTE, DEFAULT_LATENCY, DEFAULT_OVERHEAD,
    DEFAULT_OVERHEAD_PER_BYTE, DEFAULT_SYNC, MAX_PICOS, Param, ParamFault, Params,
};
pub use shares::budget;
