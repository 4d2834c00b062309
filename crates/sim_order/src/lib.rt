//! Orders of keys and of events, each with its laws; comparisons of events are counted. Also lists of past items, for
//! proofs.
#![tactic(auto)]

mod compact;
mod event;
mod key;
mod laws;
mod order;
mod past;
mod steps;

pub use compact::CompactKey;
pub use event::EventKey;
pub use key::{Flip, KeyOrder, Lex};
pub use laws::{laws_of_event_keys, laws_of_events, laws_of_keys};
pub use order::{Counted, EventOrder};
pub use past::Past;
pub use steps::Steps;
