//! A schedule during its run: the actions so far, what is known of each operation, what may happen next, and what it
//! changes.
#![tactic(auto)]

mod entry;
mod fault;
mod giving;
mod history;
mod key;
mod link;
mod optional_time;
mod record;
mod state;
mod task;
mod unkept;
mod work;

pub use fault::EngineFault;
pub use giving::gives;
pub use history::{History, Kept};
pub use key::compact;
pub use record::Record;
pub use state::RunState;
pub use unkept::Unkept;
