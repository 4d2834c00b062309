//! Tests of the crates that read the inputs of `goal` and write its outputs: one module per crate. No other crate uses
//! this one.
#![tactic(auto)]

#[cfg(test)]
mod base;
#[cfg(test)]
mod binary;
#[cfg(test)]
mod input;
#[cfg(test)]
mod lexer;
#[cfg(test)]
mod parser;
#[cfg(test)]
mod print;
#[cfg(test)]
mod same;
