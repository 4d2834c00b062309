//! What operations wait for, by numbers, and until when each cpu and each side of a NIC is held.
#![tactic(auto)]

mod laws;
mod pair;
mod resources;
mod station;

pub use laws::laws_of_free_times;
pub use pair::Pair;
pub use resources::Resources;
pub use station::{Station, StationNumbers};
