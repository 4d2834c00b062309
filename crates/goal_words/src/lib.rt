//! The command line of `goal`: what its words ask for.
//!
//!     sim NAME [--L N] [--o N] [--g N] [--G N] [--Gp N] [--O N] [--Op N] [--S N]
//!     waits NAME [the same options]
//!     knots NAME [the same options]
//!     nodes NAME MACHINE
//!     compile NAME OUT
//!     show NAME
//!     gen KIND RANKS BYTES [--root N]
//!     certify KIND NAME [--root N]
//!     probe ROUNDS SEED [the options of `sim`]
//!
//! NAME, MACHINE and OUT are any words that do not begin with `-`. Options and plain words may be mixed after the first
//! word. Each option is given at most once; its value follows it, or is joined to it as in `--S=0`. A number has 1 to
//! 20 digits, and is within its limit.
#![tactic(auto)]

mod kinds;
mod laws;
mod line;
mod options;
mod request;
mod words_left;

pub use laws::laws_of_lines;
pub use line::{FileName, Line, LineFault, read_words};
pub use request::{Costing, Request, RunView, Source, View};
