//! What is shown of the run of a schedule: all of it, a report on its waits, its knots, or the sum of its end times.
#![tactic(auto)]

mod knots;
mod printed;
mod run;
mod shown;
mod sum;

pub use run::show_run;
pub use shown::Shown;
