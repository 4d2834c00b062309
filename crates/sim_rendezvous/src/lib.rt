//! Rendezvous messages: the request to send (RTS), the clear to send (CTS) and the data, and what they hold. Times are
//! in nanoseconds.
#![tactic(auto)]

mod handover;
mod requests;

pub use handover::{Sent, data, data_at, data_message};
pub use requests::{clear, clear_to, request, request_to};
