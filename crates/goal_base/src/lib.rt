//! The surroundings of `goal`: the traits of a host with files and of a sink; reading a whole file; writing a piece or
//! a whole file; text that is built piece by piece; and the value of a number in digits.
#![tactic(auto)]

mod calls;
mod device;
mod files;
mod laws;
mod line;
mod mem_host;
mod mem_sink;
mod numeral;
mod output;
mod read;
mod text;
mod write;

pub use device::{Host, IoFault, OpenFault, Sink};
pub use goal_limits::{
    MAX_BUDGET, MAX_BYTES, MAX_DEPS, MAX_INPUT, MAX_NANOS, MAX_NOTES, MAX_OPS, MAX_PARAM,
    MAX_PER_BYTE, MAX_RANKS, NoMemory,
};
pub use laws::laws_of_reading;
pub use line::{put_long, put_number, put_pair, put_time, put_word};
pub use mem_host::MemHost;
pub use mem_sink::MemSink;
pub use numeral::numeral_value;
pub use output::write_file;
pub use read::{ReadAll, read_all};
pub use text::TextOut;
pub use write::{WriteStop, write_all};
