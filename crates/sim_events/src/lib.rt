//! The engine that runs a schedule. At each step, the possible action with the least key happens.
#![tactic(auto)]

mod engine;
mod follow;
mod laws;
mod pending;

pub use engine::Engine;
pub use laws::laws_of_costs;
pub use sim_state::{EngineFault, History, Kept, Record, Unkept};
