//! Circular waits: which stuck operations hold up the others.
//!
//! `specs/Knots` says what a knot is. Following the reason of a stuck operation to the operation that it names, and on
//! from there, ends at one that is alone, or in a cycle. (The report calls a cycle `ring`.)
#![tactic(auto)]

mod heads;
mod knot;
mod laws;
mod report;
mod targets;
mod text;

pub use knot::{Knot, OpList};
pub use laws::laws_of_knots;
pub use report::knots;
pub use text::knots_text;
