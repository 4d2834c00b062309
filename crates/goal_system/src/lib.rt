//! The devices of the system: files and streams, as a host and a sink.
#![tactic(auto)]

mod real;

pub use real::{RealHost, RealSink};
