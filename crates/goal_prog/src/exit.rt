// The exit statuses of the program.
ghost use Rattle.std.specs.Prelude.{◌≡◌};
ghost use Rattle.std.specs.Process.{exit_status};
ghost use Rattle.std.specs.IoError.{error_kind};
ghost use Rattle.goal_prog.specs.Exit.{number_of, number_without_words};

use goal_cli::Status;
use std::io;
use std::io::ErrorKind;
use std::process::ExitCode;

// The exit status where the system cannot give the words of the command line, for a reason other than memory.
const NO_WORDS: u8 = 8;

/// Returns the exit status for a status of `goal`, 0 to 7.
pub fn exit_of(status: Status) -> ExitCode
    ensures { exit_status result ≡ number_of status }
{
    let number = match status {
        Status::Done => 0,
        Status::Stuck => 1,
        Status::BadLine => 2,
        Status::Refused => 3,
        Status::ReadFault => 4,
        Status::WriteFault => 5,
        Status::NotCertified => 6,
        Status::NoMemory => 7,
    };
    ExitCode::from(number)
}

/// Returns the exit status where the system cannot give the words of the command line: 7 if it ran out of memory, else 8.
pub fn exit_without_words(error: &io::Error) -> ExitCode
    ensures { exit_status result ≡ number_without_words (error_kind error.now) }
{
    match error.kind() {
        ErrorKind::OutOfMemory => exit_of(Status::NoMemory),
        _ => ExitCode::from(NO_WORDS),
    }
}
