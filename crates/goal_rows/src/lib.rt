//! Tests of the top call on devices in memory that fail or move few bytes. No other crate uses this one.
#![tactic(auto)]

#[cfg(test)]
mod devices;
