//! From the text of a schedule to the schedule, or to the first fault of the text.
//!
//! [`read_text`] does all of this. `specs/` defines the meaning of a text, apart from how it is read:
//!
//! - `Sentence` is the grammar, which says which token may follow, and `Numbers` has the limits of numbers.
//! - `Ranks`, `Actions`, `Counts`, `Items` and `Plans` say what the tokens before a place give. In these lists of
//!   tokens the newest comes first.
//! - `Faults` has the tests of a token, in their order. Each looks at the token and the tokens before it.
//! - `Reads` has the first fault of a text, or otherwise its plans.
//!
//! [`TextReader`] takes the text in pieces, over the same `Reader`.
//!
//! The code reads in one pass. A `Reader` takes bytes, in pieces if need be, and its `Parser` takes the tokens. The
//! labels of a block are numbered by slots until the block ends. `Slots`, `Taken` and `Reader` define the states of
//! these.
#![tactic(auto)]

mod ahead;
mod append;
mod block;
mod counts;
mod draft;
mod faults;
mod head;
mod labels;
mod laws;
mod names;
mod numbers;
mod parser;
mod pieces;
mod plans;
mod ranks;
mod reader;
mod sentence;
mod text;
mod token_faults;

pub use faults::TextFault;
pub use laws::{laws_of_readers, laws_of_texts};
pub use pieces::TextReader;
pub use text::read_text;
