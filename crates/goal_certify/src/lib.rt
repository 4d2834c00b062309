//! Certifies that a schedule implements a collective in every interleaving, or returns its first fault.
#![tactic(auto)]

mod at_once;
mod certifier;
mod channels;
mod ends;
mod races;
mod segments;
mod sizes;
mod slot_counts;
mod walk;

pub use at_once::{AtOnceFault, certify_at_once};
pub use certifier::certify;
pub use goal_blocks::CertFault;
pub use segments::{SegmentFault, certify_segments};
