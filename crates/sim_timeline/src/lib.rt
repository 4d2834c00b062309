//! The timeline of a run: a line on the whole, then a line for each operation.
#![tactic(auto)]

mod lines;
mod pages;

pub use lines::{first_line, first_line_counted};
pub use pages::{Lines, timeline};
