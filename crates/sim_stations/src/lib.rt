//! A queue of events whose slots wait with their stations: a station waits at that of its two resources which is free
//! later.
#![tactic(auto)]

mod groups;
mod item_heaps;
mod key_place;
mod known_times;
mod laws;
mod parts;
mod rows;
mod slot_groups;
mod slot_heaps;
mod station_queue;

pub use key_place::KeyPlace;
pub use laws::laws_of_changes;
pub use sim_resources::Pair;
pub use station_queue::StationQueue;
