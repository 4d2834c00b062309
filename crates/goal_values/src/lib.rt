//! The values of all slots along a walk, kept as unevaluated sums, so that no value is ever copied. The contributions
//! of a slot are listed when they are asked for.
#![tactic(auto)]

mod rows;
mod sums;
mod values;

pub use sums::{Sums, Term};
pub use values::{SlotValues, TermPayload};
