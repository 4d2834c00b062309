//! A sink in memory, for tests.
ghost use Rattle.std.specs.Prelude.{◌≡◌, ◌↔◌, ℕ, ◌<◌, length, take, min, OnOk, OnErr, IfOk, IsErrOf};
ghost use Rattle.goal_base.specs.Calls.{IsFailing};

use crate::calls::Calls;
use crate::device::{IoFault, Sink};
use goal_limits::NoMemory;
use std::alloc::Global;
use std::marker::Model;

/// A sink in memory. Its creator chooses which of its writes fail.
///
/// A write moves as many bytes as it can, up to `most`. The writes are numbered from 1; those after number 2^64-1 have
/// no number and do not fail. So the count of failed writes, which starts at 0, never has to stop at 2^64-1.
#[derive(Drop)]
pub struct MemSink {
    most: usize,
    calls: Calls,
    bytes: Vec<u8>,
    count: u64,
}

impl Model for MemSink {
    ghost use Rattle.std.specs.Prelude.{◌≤◌, ◌<◌, true, false};
    ghost use Rattle.goal_base.specs.Memory.{MemSinkState};

    ghost Value = { MemSinkState };

    ghost view = { λ s. record {
      state = record { tells = true; bytes = s.bytes.items; count = s.count; stops = false };
      most = s.most;
      calls = s.calls;
    } };

    ghost invariant = { λ s. (0 < s.most) × (s.count ≤ s.calls.made) };
}

impl MemSink {
    ghost use Rattle.goal_base.specs.Memory.{new_sink};

    /// Creates a sink with no bytes. Each write moves at most `most` bytes, and the calls whose numbers are in `fails`
    /// fail.
    pub fn new(alloc: Global, most: usize, fails: &[u64]) -> Result<MemSink, NoMemory>
        requires { 0 < most }
        ensures { IfOk result (λ sink. sink ≡ new_sink most fails.now) }
    {
        Ok(MemSink {
            most,
            calls: Calls::new(alloc, fails)?,
            bytes: Vec::new(alloc),
            count: 0,
        })
    }

    /// Returns the bytes that were written.
    pub fn bytes(&self) -> &[u8]
        ensures { result.now ≡ self.now.state.bytes }
    {
        self.bytes.as_slice()
    }
}

impl Sink for MemSink {
    ghost use Rattle.goal_base.specs.Memory.{IsMemSink, after_sink_call, with_fault, with_bytes};

    ghost state = { λ s. s.state };

    /// `Failed` comes exactly where the call is to fail. It appends as many bytes as it can.
    fn write(&mut self, piece: &[u8]) -> Result<usize, IoFault>
        ensures sound { IsMemSink self.old }
        ensures failed { IsErrOf result IoFault.Failed ↔ IsFailing self.old.calls }
        ensures failed_state { IsErrOf result IoFault.Failed
            → self.new ≡ after_sink_call self.old (with_fault self.old.state) }
        ensures memory_state { IsErrOf result IoFault.NoMemory → self.new ≡ after_sink_call self.old self.old.state }
        ensures moved { IfOk result (λ n. n ≡ min self.old.most (length piece.now)) }
        ensures ok_state { IfOk result (λ n.
            self.new ≡ after_sink_call self.old (with_bytes self.old.state (take n piece.now))) }
    {
        if self.calls.count() {
            self.count += 1;
            return Err(IoFault::Failed);
        }
        let count = self.most.min(piece.len());
        match self.bytes.extend_from_slice(&piece[..count]) {
            Ok(()) => Ok(count),
            Err(_) => Err(IoFault::NoMemory),
        }
    }
}
