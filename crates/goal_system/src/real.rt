//! The devices of the system: its files and streams. Contracts do not know their contents.
ghost use Rattle.std.specs.Prelude.{◌≡◌, ◌≢◌, ◌≤◌, ◌<◌, ℕ, true, is_some, length, take, IfOk, IfErr, OnOk, OnErr, IsErrOf};
ghost use Rattle.std.specs.IoError.{error_kind};
ghost use Rattle.std.specs.Io.KnownBytes.{ReadConsumes, WriteAppends, Appends, Keeps};
ghost use Rattle.goal_base.specs.Device.{Rose};
ghost use Rattle.goal_system.specs.Faults.{fault_of, fault_of_open};

use goal_base::{Host, IoFault, OpenFault, Sink};
use std::fs::OpenFile;
use std::io::{ErrorKind, Read, Write};
use std::rt::Files;
use std::{fs, io};

/// The files of the system. Each count rises at each error of its kind, and stops at 2^64-1.
#[derive(Drop)]
pub struct RealHost<R: Files> {
    rt: R,
    input: Option<R::File>,
    output: Option<R::File>,
    reads: u64,
    absent: u64,
    writes: u64,
}

impl<R: Files> RealHost<R> {
    /// Creates a host with the files of this runtime, of which none is open.
    pub fn new(rt: R) -> RealHost<R> {
        RealHost {
            rt,
            input: None,
            output: None,
            reads: 0,
            absent: 0,
            writes: 0,
        }
    }
}

// Returns an error as a fault, and counts it, unless memory ran out.
fn fault_of(count: &mut u64, error: io::Error) -> IoFault
    ensures kind { result ≡ fault_of (error_kind error) }
    ensures failed { result ≡ IoFault.Failed → Rose true count.old count.new }
    ensures memory { result ≡ IoFault.NoMemory → count.new ≡ count.old }
    ensures later { count.old ≤ count.new }
{
    match error.kind() {
        ErrorKind::OutOfMemory => IoFault::NoMemory,
        _ => {
            *count = count.saturating_add(1);
            IoFault::Failed
        }
    }
}

// How an error of opening a file is reported.
fn fault_of_open(error: &io::Error) -> OpenFault
    ensures { result ≡ fault_of_open (error_kind error.now) }
{
    match error.kind() {
        ErrorKind::OutOfMemory => OpenFault::NoMemory,
        ErrorKind::NotFound => OpenFault::Absent,
        _ => OpenFault::Failed,
    }
}

// Reads into a buffer, and tries again if a signal interrupts it. It consumes exactly the bytes that it returns, and
// none if it fails: interrupted tries consume nothing.
fn read_again<T: Read>(input: &mut T, buf: &mut [u8]) -> io::Result<usize>
    ensures bound { IfOk result (λ n. n ≤ length buf.new) }
    ensures bytes { ReadConsumes (T.remaining input.old) (T.remaining input.new) result buf.new }
    ensures retried { IfErr result (λ error. error_kind error ≢ ErrorKind.Interrupted) }
{
    'tries: for _ in 0..u64::MAX {
        match input.read(buf) {
            Ok(moved) => return Ok(moved),
            Err(error) => match error.kind() {
                ErrorKind::Interrupted => {}
                _ => return Err(error),
            },
        }
    }
    Err(io::Error::from(ErrorKind::TimedOut))
}

// Writes a prefix of a piece, and tries again if a signal interrupts it. It writes exactly the bytes that it reports,
// and none if it fails: interrupted tries write nothing. Writing nothing of a piece that is not empty is an error.
fn write_again<T: Write>(output: &mut T, piece: &[u8]) -> io::Result<usize>
    ensures bound { IfOk result (λ n. n ≤ length piece.now) }
    ensures moves { IfOk result (λ n. 0 < length piece.now → 0 < n) }
    ensures bytes { WriteAppends (T.contents output.old) (T.contents output.new) result piece.now }
    ensures retried { IfErr result (λ error. error_kind error ≢ ErrorKind.Interrupted) }
{
    'tries: for _ in 0..u64::MAX {
        match output.write(piece) {
            Ok(0) if !piece.is_empty() => return Err(io::Error::from(ErrorKind::WriteZero)),
            Ok(moved) => return Ok(moved),
            Err(error) => match error.kind() {
                ErrorKind::Interrupted => {}
                _ => return Err(error),
            },
        }
    }
    Err(io::Error::from(ErrorKind::TimedOut))
}

// Asks the system to store what was written. If the system reports that the file cannot be stored, such as a terminal,
// this is not a fault. The contracts do not say that the system is asked, because those of `std` say nothing of a
// flush or a sync except for the bytes written.
fn close<F: Write + OpenFile>(output: &mut F, count: &mut u64) -> Result<(), IoFault>
    ensures kept { Keeps (F.contents output.old) (F.contents output.new) }
    ensures failed { IsErrOf result IoFault.Failed → Rose true count.old count.new }
    ensures memory { IsErrOf result IoFault.NoMemory → count.new ≡ count.old }
    ensures ok { OnOk result (count.new ≡ count.old) }
    ensures later { count.old ≤ count.new }
{
    if let Err(error) = output.flush() {
        return Err(fault_of(count, error));
    }
    match output.sync_data() {
        Ok(()) => Ok(()),
        Err(error) => match error.kind() {
            ErrorKind::InvalidInput | ErrorKind::Unsupported => Ok(()),
            _ => Err(fault_of(count, error)),
        },
    }
}

impl<R: Files + Drop> Host for RealHost<R> {
    ghost use Rattle.std.specs.Prelude.{is_some};
    ghost use Rattle.goal_system.specs.Real.{untold_host};

    ghost state = { λ h. untold_host (is_some h.input) (is_some h.output) h.reads h.absent h.writes };

    fn open(&mut self, name: &str) -> Result<(), OpenFault> {
        match fs::open(&self.rt, name) {
            Ok(file) => {
                self.input = Some(file);
                Ok(())
            }
            Err(error) => match fault_of_open(&error) {
                OpenFault::NoMemory => Err(OpenFault::NoMemory),
                OpenFault::Absent => {
                    self.absent = self.absent.saturating_add(1);
                    Err(OpenFault::Absent)
                }
                OpenFault::Failed => {
                    self.reads = self.reads.saturating_add(1);
                    Err(OpenFault::Failed)
                }
            },
        }
    }

    fn read(&mut self, buf: &mut [u8]) -> Result<usize, IoFault> {
        match &mut self.input {
            Some(file) => match read_again(file, buf) {
                Ok(count) => Ok(count),
                Err(error) => Err(fault_of(&mut self.reads, error)),
            },
            None => unreachable!(),
        }
    }

    fn create(&mut self, name: &str) -> Result<(), IoFault> {
        match fs::create(&self.rt, name) {
            Ok(file) => {
                self.output = Some(file);
                Ok(())
            }
            Err(error) => Err(fault_of(&mut self.writes, error)),
        }
    }

    fn write(&mut self, piece: &[u8]) -> Result<usize, IoFault> {
        match &mut self.output {
            Some(file) => match write_again(file, piece) {
                Ok(count) => Ok(count),
                Err(error) => Err(fault_of(&mut self.writes, error)),
            },
            None => unreachable!(),
        }
    }

    fn finish(&mut self) -> Result<(), IoFault> {
        match self.output.take() {
            Some(mut file) => close(&mut file, &mut self.writes),
            None => unreachable!(),
        }
    }
}

/// A stream of the system, such as the standard output, which is flushed at each write. Its count rises at each error,
/// and stops at 2^64-1.
#[derive(Drop)]
pub struct RealSink<W> {
    stream: W,
    faults: u64,
}

impl<W: Write> RealSink<W> {
    /// Creates a sink over this stream.
    pub fn new(stream: W) -> RealSink<W> {
        RealSink { stream, faults: 0 }
    }
}

// Writes a prefix of a piece and flushes the stream. If this fails, a prefix of the piece may have been written.
fn write_through<T: Write>(stream: &mut T, piece: &[u8], count: &mut u64) -> Result<usize, IoFault>
    ensures bound { IfOk result (λ n. n ≤ length piece.now) }
    ensures moves { IfOk result (λ n. 0 < length piece.now → 0 < n) }
    ensures bytes { IfOk result (λ n. Appends (T.contents stream.old) (T.contents stream.new) (take n piece.now)) }
    ensures front { OnErr result ((n : ℕ) × Appends (T.contents stream.old) (T.contents stream.new) (take n piece.now)) }
    ensures failed { IsErrOf result IoFault.Failed → Rose true count.old count.new }
    ensures memory { IsErrOf result IoFault.NoMemory → count.new ≡ count.old }
    ensures ok { OnOk result (count.new ≡ count.old) }
    ensures later { count.old ≤ count.new }
{
    let written = match write_again(stream, piece) {
        Ok(written) => written,
        Err(error) => return Err(fault_of(count, error)),
    };
    match stream.flush() {
        Ok(()) => Ok(written),
        Err(error) => Err(fault_of(count, error)),
    }
}

impl<W: Write> Sink for RealSink<W> {
    ghost use Rattle.goal_system.specs.Real.{untold_sink};

    ghost state = { λ s. untold_sink s.faults };

    fn write(&mut self, piece: &[u8]) -> Result<usize, IoFault> {
        write_through(&mut self.stream, piece, &mut self.faults)
    }
}
