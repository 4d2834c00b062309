//! The report on waits: how long operations waited after they were ready, which waited longest, and which receives have
//! less room than their messages.
#![tactic(auto)]

mod laws;
mod longest;
mod oversize;
mod ranks;
mod report;
mod wait;

pub use laws::laws_of_waits;
pub use report::waits;
