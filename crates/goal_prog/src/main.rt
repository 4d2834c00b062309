//! The program `goal`: calls `goal_cli::goal` with the words of the command line and the devices of the system.
#![tactic(auto)]

mod exit;

use exit::{exit_of, exit_without_words};
use goal_base::write_all;
use goal_cli::goal;
use goal_system::{RealHost, RealSink};
use std::io::ErrorKind;
use std::process::ExitCode;
use std::rt::Files;
use std::{env, fs, io};

// A folder that always exists. No byte is read from it or written to it.
const HELD: &str = "/";

// The standard streams, by the paths under which the system lists open files.
const INPUT: &str = "/proc/self/fd/0";

const OUTPUT: &str = "/proc/self/fd/1";

const ERRORS: &str = "/proc/self/fd/2";

// The error line where a word of the command line is not UTF-8.
const NO_TEXT: &[u8] = b"goal: a word of the command line is not UTF-8\n";

// The words after the program's name.
fn command_words(rt: &HostRuntime) -> io::Result<Vec<String>> {
    Ok(env::args(rt)?.skip(1).collect(rt.alloc())?)
}

// Opens a folder if a standard stream is closed or its state is unknown, so that a file opened later does not become that
// stream. Where the folder cannot be opened, the program continues without it.
fn hold_stream<R: Files>(rt: &R, stream: &str) -> Option<io::Result<R::File>> {
    match fs::symlink_metadata(rt, stream) {
        Ok(_) => None,
        Err(_) => Some(fs::open(rt, HELD)),
    }
}

fn main(rt: HostRuntime) -> ExitCode {
    let _held = [
        hold_stream(&rt, INPUT),
        hold_stream(&rt, OUTPUT),
        hold_stream(&rt, ERRORS),
    ];
    let words = match command_words(&rt) {
        Ok(words) => words,
        Err(error) => {
            match error.kind() {
                ErrorKind::OutOfMemory => {}
                _ => {
                    // The exit status is the same whether or not the line can be written.
                    let _written = write_all(&mut RealSink::new(rt.stderr()), NO_TEXT);
                }
            }
            return exit_without_words(&error);
        }
    };
    let alloc = rt.alloc();
    let mut out = RealSink::new(rt.stdout());
    let mut err = RealSink::new(rt.stderr());
    let mut host = RealHost::new(rt);
    exit_of(goal(alloc, &words, &mut host, &mut out, &mut err))
}
