//! Reading a schedule from a file of a host: a text, or a compiled file.
//!
//! `specs/Input` defines the meaning of the bytes of an input, and `specs/InputFaults` why a file gives no schedule.
#![tactic(auto)]

mod input_fault;
mod intake;
mod laws;
mod read;

pub use input_fault::InputFault;
pub use laws::laws_of_inputs;
pub use read::read_schedule;
