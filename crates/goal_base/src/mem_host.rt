//! A host in memory, for tests.
ghost use Rattle.std.specs.Prelude.{◌≡◌, ◌↔◌, ◌⊎◌, ℕ, ◌+◌, ◌-◌, ◌<◌, ◌≤◌, true, List, ◌++◌, length, take, drop, min, Some, None, OnOk, OnErr, IfOk, IsErrOf};
ghost use Rattle.std.specs.Option.{option_copied};
ghost use Rattle.std.specs.FinMap as map;
ghost use Rattle.goal_base.specs.Calls.{IsFailing};
ghost use Rattle.goal_base.specs.Device.{file_of};

use crate::calls::Calls;
use crate::device::{Host, IoFault, OpenFault};
use crate::files::NamedFiles;
use goal_limits::NoMemory;
use std::alloc::Global;
use std::marker::Model;

/// A host in memory. Its creator chooses which of its calls fail.
///
/// Each read and each write moves as many bytes as it can, up to `most`. The calls of the trait are numbered from 1;
/// calls after number 2^64-1 have no number. The counts start at 0 and stop at 2^64-1.
#[derive(Drop)]
pub struct MemHost {
    alloc: Global,
    most: usize,
    calls: Calls,
    files: NamedFiles,
    input: Vec<u8>,
    at: usize,
    reading: bool,
    output: Option<String>,
    read_count: u64,
    absent_count: u64,
    write_count: u64,
}

impl Model for MemHost {
    ghost use Rattle.std.specs.Prelude.{◌≤◌, ◌<◌, length, drop, true, is_some};
    ghost use Rattle.std.specs.Option.{option_map};
    ghost use Rattle.std.specs.String.{string_bytes};
    ghost use Rattle.goal_base.specs.Memory.{MemHostState, host_code};

    ghost Value = { MemHostState };

    ghost coded = { host_code };

    ghost view = { λ h. record {
      state = record {
        tells = true;
        files = h.files;
        rest = drop h.at h.input.items;
        output = option_map string_bytes h.output;
        reading = h.reading;
        writing = is_some h.output;
        read_count = h.read_count;
        absent_count = h.absent_count;
        write_count = h.write_count;
        stops = true;
      };
      most = h.most;
      calls = h.calls;
    } };

    ghost invariant = { λ h. (0 < h.most) × (h.at ≤ length h.input.items) };
}

impl MemHost {
    ghost use Rattle.goal_base.specs.Memory.{MemHostState, new_host, with_file};

    /// Creates a host with no files, on which nothing is open. Each read and write moves at most `most` bytes, and the
    /// calls whose numbers are in `fails` fail.
    pub fn new(alloc: Global, most: usize, fails: &[u64]) -> Result<MemHost, NoMemory>
        requires { 0 < most }
        ensures { IfOk result (λ host. host ≡ new_host most fails.now) }
    {
        Ok(MemHost {
            alloc,
            most,
            calls: Calls::new(alloc, fails)?,
            files: NamedFiles::new(alloc),
            input: Vec::new(alloc),
            at: 0,
            reading: false,
            output: None,
            read_count: 0,
            absent_count: 0,
            write_count: 0,
        })
    }

    /// Sets the bytes of a file. This is no call of the trait, and is not counted. On `NoMemory` the host is unchanged.
    pub fn add(&mut self, name: &str, bytes: &[u8]) -> Result<(), NoMemory>
        ensures ok { OnOk result (self.new ≡ with_file self.old name.now bytes.now) }
        ensures err { OnErr result (self.new ≡ self.old) }
    {
        let copy = Vec::from_slice(self.alloc, bytes)?;
        self.files.set(self.alloc, name, copy)
    }

    /// Returns the bytes of a file, or `None` where no file has that name.
    pub fn file(&self, name: &str) -> Option<&[u8]>
        ensures { option_copied result ≡ file_of self.now.state name.now }
    {
        self.files.get(name)
    }
}

impl Host for MemHost {
    ghost use Rattle.goal_base.specs.Memory.{IsMemHost, after_call, with_read_fault, with_absent_name, with_write_fault, with_input, with_taken, with_created, with_appended, with_no_output};

    ghost state = { λ h. h.state };

    /// `Failed` comes exactly where the call is to fail. Otherwise `Absent` comes exactly where no file has that name.
    fn open(&mut self, name: &str) -> Result<(), OpenFault>
        ensures sound { IsMemHost self.old }
        ensures failed { IsErrOf result OpenFault.Failed ↔ IsFailing self.old.calls }
        ensures failed_state { IsErrOf result OpenFault.Failed
            → self.new ≡ after_call self.old (with_read_fault self.old.state) }
        ensures absent { file_of self.old.state name.now ≡ None
            → IsErrOf result OpenFault.Failed ⊎ IsErrOf result OpenFault.Absent }
        ensures absent_name { IsErrOf result OpenFault.Absent → file_of self.old.state name.now ≡ None }
        ensures absent_state { IsErrOf result OpenFault.Absent
            → self.new ≡ after_call self.old (with_absent_name self.old.state) }
        ensures memory_state { IsErrOf result OpenFault.NoMemory → self.new ≡ after_call self.old self.old.state }
        ensures ok { OnOk result (file_of self.old.state name.now ≡ Some self.new.state.rest) }
        ensures ok_state { OnOk result (self.new ≡ after_call self.old (with_input self.old.state self.new.state.rest)) }
    {
        if self.calls.count() {
            self.read_count = self.read_count.saturating_add(1);
            return Err(OpenFault::Failed);
        }
        match self.files.get(name) {
            None => {
                self.absent_count = self.absent_count.saturating_add(1);
                Err(OpenFault::Absent)
            }
            Some(bytes) => match Vec::from_slice(self.alloc, bytes) {
                Err(_) => Err(OpenFault::NoMemory),
                Ok(copy) => {
                    self.input = copy;
                    self.at = 0;
                    self.reading = true;
                    Ok(())
                }
            },
        }
    }

    /// `Failed` comes exactly where the call is to fail, and there is no other error. It moves as many bytes as it can.
    fn read(&mut self, buf: &mut [u8]) -> Result<usize, IoFault>
        requires room { 0 < length buf.old }
        requires open { self.old.state.reading ≡ true }
        ensures sound { IsMemHost self.old }
        ensures failed { IsErrOf result IoFault.Failed ↔ IsFailing self.old.calls }
        ensures failed_state { OnErr result (self.new ≡ after_call self.old (with_read_fault self.old.state)) }
        ensures memory { IsErrOf result IoFault.NoMemory → ⊥ }
        ensures moved { IfOk result (λ n. n ≡ min (min self.old.most (length buf.old)) (length self.old.state.rest)) }
        ensures bytes { IfOk result (λ n. buf.new ≡ take n self.old.state.rest ++ drop n buf.old) }
        ensures err_bytes { OnErr result (buf.new ≡ buf.old) }
        ensures ok_state { IfOk result (λ n. self.new ≡ after_call self.old (with_taken self.old.state n)) }
    {
        if self.calls.count() {
            self.read_count = self.read_count.saturating_add(1);
            return Err(IoFault::Failed);
        }
        let rest = &self.input[self.at..];
        let count = self.most.min(buf.len()).min(rest.len());
        buf[..count].copy_from_slice(&rest[..count]);
        self.at += count;
        Ok(count)
    }

    /// `Failed` comes exactly where the call is to fail.
    fn create(&mut self, name: &str) -> Result<(), IoFault>
        ensures sound { IsMemHost self.old }
        ensures failed { IsErrOf result IoFault.Failed ↔ IsFailing self.old.calls }
        ensures failed_state { IsErrOf result IoFault.Failed
            → self.new ≡ after_call self.old (with_write_fault self.old.state) }
        ensures memory_state { IsErrOf result IoFault.NoMemory → self.new ≡ after_call self.old self.old.state }
        ensures ok_state { OnOk result (self.new ≡ after_call self.old (with_created self.old.state name.now)) }
    {
        if self.calls.count() {
            self.write_count = self.write_count.saturating_add(1);
            return Err(IoFault::Failed);
        }
        let output = match String::from_str(self.alloc, name) {
            Ok(output) => output,
            Err(_) => return Err(IoFault::NoMemory),
        };
        match self.files.set(self.alloc, name, Vec::new(self.alloc)) {
            Err(_) => Err(IoFault::NoMemory),
            Ok(()) => {
                self.output = Some(output);
                Ok(())
            }
        }
    }

    /// `Failed` comes exactly where the call is to fail. It appends as many bytes as it can.
    fn write(&mut self, piece: &[u8]) -> Result<usize, IoFault>
        requires open { self.old.state.writing ≡ true }
        ensures sound { IsMemHost self.old }
        ensures failed { IsErrOf result IoFault.Failed ↔ IsFailing self.old.calls }
        ensures failed_state { IsErrOf result IoFault.Failed
            → self.new ≡ after_call self.old (with_write_fault self.old.state) }
        ensures memory_state { IsErrOf result IoFault.NoMemory → self.new ≡ after_call self.old self.old.state }
        ensures moved { IfOk result (λ n. n ≡ min self.old.most (length piece.now)) }
        ensures ok_state { IfOk result (λ n.
            self.new ≡ after_call self.old (with_appended self.old.state (take n piece.now))) }
    {
        if self.calls.count() {
            self.write_count = self.write_count.saturating_add(1);
            return Err(IoFault::Failed);
        }
        let count = self.most.min(piece.len());
        match &self.output {
            None => unreachable!(),
            Some(name) => match self.files.append(name.as_str(), &piece[..count]) {
                Ok(()) => Ok(count),
                Err(_) => Err(IoFault::NoMemory),
            },
        }
    }

    /// `Failed` comes exactly where the call is to fail, and there is no other error. It closes the output.
    fn finish(&mut self) -> Result<(), IoFault>
        requires open { self.old.state.writing ≡ true }
        ensures sound { IsMemHost self.old }
        ensures failed { IsErrOf result IoFault.Failed ↔ IsFailing self.old.calls }
        ensures failed_state { OnErr result (self.new ≡ after_call self.old (with_no_output (with_write_fault self.old.state))) }
        ensures memory { IsErrOf result IoFault.NoMemory → ⊥ }
        ensures ok_state { OnOk result (self.new ≡ after_call self.old (with_no_output self.old.state)) }
    {
        self.output = None;
        if self.calls.count() {
            self.write_count = self.write_count.saturating_add(1);
            return Err(IoFault::Failed);
        }
        Ok(())
    }
}
