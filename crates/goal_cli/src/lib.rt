//! The top call of `goal`: what each command line reads and writes.
//!
//! Most commands read a schedule from the file NAME, a text or a compiled file:
//!
//! - `sim NAME` runs it and prints when each operation starts and ends; `nodes NAME MACHINE` does the same with the
//!   costs of the machine in the file MACHINE;
//! - `waits NAME` reports how long operations waited; `knots NAME` reports the knots of stuck operations;
//! - `compile NAME OUT` writes its compiled file;
//! - `show NAME` prints its canonical text;
//! - `certify KIND NAME` reports whether it does what a collective wants in every interleaving.
//!
//! `gen KIND RANKS BYTES` and `probe ROUNDS SEED` have no input: `gen` prints the canonical text of a collective's
//! schedule, and `probe` runs a random schedule and prints a summary.
#![tactic(auto)]

mod answer;
mod certified_runs;
mod command;
mod laws;
mod output;
mod pages;
mod printing;
mod refusal;
mod source;
mod verdict;

pub use answer::Status;
pub use certified_runs::laws_of_certified_runs;
pub use command::goal;
pub use laws::{laws_of_answers, laws_of_outputs};
