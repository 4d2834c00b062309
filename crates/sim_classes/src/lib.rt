//! Classes of messages: a machine text gives a node for each rank, and the LogGOPS parameters of each message, by the
//! nodes of its two ranks.
//!
//! [`read_machine`] reads the text, a list of words, or returns the fault of the first word that fails. A [`Machine`]
//! is a model of costs, each at most 2^61, so a run uses it in the same way as one set of parameters.
#![tactic(auto)]

mod fault;
mod laws;
mod machine;
mod messages;
mod pair_classes;
mod reading;
mod words;

pub use fault::MachineFault;
pub use laws::laws_of_machines;
pub use machine::{MAX_CLASSES, MAX_NODE, MAX_PAIRS, Machine};
pub use reading::read_machine;
