//! The answers to a command line.

use goal_binary::FileFault;
use goal_collectives::GenFault;
use goal_parser::TextFault;
use sim_classes::MachineFault;

/// How a call of `goal` ends. The exit statuses are 0 to 7 in this order.
#[derive(Clone, Copy, Debug, PartialEq, Eq)]
pub enum Status {
    /// The output was written whole.
    Done,
    /// The output was written whole, and an operation of its run has no end.
    Stuck,
    /// The words are no command line.
    BadLine,
    /// The command has no output for its input or its words.
    Refused,
    /// The host failed, or a file does not exist.
    ReadFault,
    /// The output was not written whole.
    WriteFault,
    /// The output, a verdict, was written whole: the schedule is not certified.
    NotCertified,
    /// Out of memory.
    NoMemory,
}

/// How a command ends after its output was written whole.
#[derive(Clone, Copy)]
pub enum Ending {
    /// There is nothing wrong with the schedule.
    Done,
    /// An operation of the run has no end.
    Stuck,
    /// The verdict is a fault.
    NotCertified,
}

/// The answer to a command line. All but `Written` are as the [`Status`] of that name.
#[derive(Clone, Copy)]
pub enum Answer {
    /// The output was written whole, with this ending.
    Written(Ending),
    /// The words are no command line.
    BadLine,
    /// The command has no output, for this reason.
    Refused(Refusal),
    /// The host failed, or a file does not exist.
    ReadFault,
    /// The output was not written whole.
    WriteFault,
    /// Out of memory.
    NoMemory,
}

/// Why a command has no output for its input or its words.
#[derive(Clone, Copy, Debug, PartialEq, Eq)]
pub enum Refusal {
    /// The input or the machine has more than 2^27 bytes.
    TooLong,
    /// The input is a text, with this first fault.
    Text(TextFault),
    /// The input is a compiled file, with this first fault.
    File(FileFault),
    /// The machine has this first fault.
    Machine(MachineFault),
    /// The machine has a node for each of `ranks` ranks, which is not the schedule's number of ranks.
    MachineRanks { ranks: u32 },
    /// The collective has no schedule for this number of ranks, for this first reason.
    Generator(GenFault),
    /// The time budget of the run is `sum` nanoseconds, more than 2^63-1.
    Budget { sum: u128 },
}
