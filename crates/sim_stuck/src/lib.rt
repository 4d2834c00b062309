//! Why operations are stuck: each operation without an end when a run is over, with its reason, and their lines.
#![tactic(auto)]

mod lines;
mod partner;
mod reasons;
mod stuck;

pub use lines::stuck_text;
pub use reasons::explain;
pub use stuck::is_stuck;
