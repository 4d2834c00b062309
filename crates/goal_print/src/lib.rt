//! The canonical text of a schedule: [`print_text`] prints it whole, and [`heading`] and [`Blocks`] page by page.
//! Reading it gives the schedule back.
//!
//! `specs/Canonical` defines the text, by lines.
#![tactic(auto)]

mod laws;
mod pages;
mod print;

pub use laws::laws_of_canonical_texts;
pub use pages::Blocks;
pub use print::{heading, print_text};
