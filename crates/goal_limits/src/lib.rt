//! The limits of a schedule, its parts, its input and its parameters. The collectives, and for how many ranks each has
//! a schedule. What separates the words of a text. The out-of-memory error (`NoMemory`).
#![tactic(auto)]

mod bytes;
mod collective;
mod laws;
mod limits;
mod memory;

pub use bytes::is_blank;
pub use collective::Collective;
pub use laws::laws_of_limits;
pub use limits::{
    MAX_BUDGET, MAX_BYTES, MAX_CERTIFIED_OPS, MAX_DEPS, MAX_INPUT, MAX_MOVED, MAX_NANOS, MAX_NOTES,
    MAX_OPS, MAX_PARAM, MAX_PER_BYTE, MAX_RANKS, MAX_ROUNDS, MAX_RUN_BYTES, MAX_SLOT, MAX_WEIGHT,
};
pub use memory::NoMemory;
