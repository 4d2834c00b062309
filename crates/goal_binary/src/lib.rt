//! Writing a schedule as a compiled file, and reading it back.
//!
//! `specs/File` defines the file of a schedule, of version 2, and its old file, of version 1. Independently of it,
//! `specs/Reading` defines what bytes of either version mean: the plans of the ranks, or the first fault.
#![tactic(auto)]

mod decoding;
mod encoding;
mod fault;
mod fields;
mod form;
mod items;
mod laws;
mod layout;
mod ranks;

pub use decoding::decode;
pub use encoding::{encode, encode_old};
pub use fault::FileFault;
pub use laws::laws_of_files;
pub use layout::MAGIC;
