//! Eager messages: when they begin, when they are received, and what they hold. Times are in nanoseconds.
#![tactic(auto)]

mod receiving;
mod sending;

pub use receiving::{serve, serve_at, serve_message};
pub use sending::{SendTimes, begin_at, eager_begin, eager_begin_message, transfer};
