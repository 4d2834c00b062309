//! Why a file gives no schedule.
ghost use Rattle.std.specs.Prelude.{◌≡◌};
ghost use Rattle.goal_input.specs.declared.input_fault.InputFault.TheVariants.{NoMemory};

use goal_binary::FileFault;
use goal_limits::NoMemory;
use goal_parser::TextFault;

/// Why a file gives no schedule: the first of these that applies. Out of memory is always `NoMemory`, never a fault of
/// a text or of a compiled file.
#[derive(Clone, Copy, Debug, PartialEq, Eq)]
pub enum InputFault {
    /// The host failed, or no file has that name. The host counts both.
    Fault,
    /// The file has more than 2^27 bytes.
    TooLong,
    /// The file is a text, with this first fault.
    Text(TextFault),
    /// The file is a compiled file, with this first fault.
    File(FileFault),
    /// Out of memory.
    NoMemory,
}

impl From<NoMemory> for InputFault {
    ghost from_gives = { λ _ input_fault. input_fault ≡ NoMemory };

    fn from(_: NoMemory) -> Self {
        InputFault::NoMemory
    }
}
