//! The costs of messages.
ghost use Rattle.std.specs.Prelude.{◌≡◌, ◌<◌, ◌≤◌, ◌+◌, ◌^◌};
ghost use Rattle.sim_params.specs.Costs.{CostModel, up};
ghost use Rattle.sim_params.specs.Bounded.{IsBounded};

use crate::Params;
use crate::params::MAX_PICOS;
use goal_limits::MAX_PER_BYTE;

/// The times of one message, in nanoseconds.
#[derive(Clone, Copy, Debug, PartialEq, Eq)]
pub struct Spans {
    /// How long it holds a cpu, at each side.
    pub over: u64,
    /// How long it holds a side of a NIC, at each end.
    pub gap: u64,
    /// How long it takes from its start until it arrives.
    pub flight: u64,
}

/// The costs of messages between ranks. Every number is at most 2^61, for sizes of at most 2^40-1 bytes.
pub trait Costs {
    /// The costs, as functions of sender, receiver and size.
    ghost model: { Self → CostModel };

    /// Returns how long a message of `bytes` bytes holds a cpu at each side, in nanoseconds.
    fn over(&self, from: u32, to: u32, bytes: u64) -> u64
        requires { bytes < 2 ^ 40 }
        ensures { result ≡ (model self.now).over from to bytes };

    /// Returns how long a message holds a side of a NIC at each end, in nanoseconds.
    fn gap(&self, from: u32, to: u32, bytes: u64) -> u64
        requires { bytes < 2 ^ 40 }
        ensures { result ≡ (model self.now).gap from to bytes };

    /// Returns how long a message takes from its start until it arrives, in nanoseconds.
    fn flight(&self, from: u32, to: u32, bytes: u64) -> u64
        requires { bytes < 2 ^ 40 }
        ensures { result ≡ (model self.now).flight from to bytes };

    /// Returns these three, in nanoseconds. Costs that have to look the message up do so only once.
    fn spans(&self, from: u32, to: u32, bytes: u64) -> Spans
        requires { bytes < 2 ^ 40 }
        ensures over { result.over ≡ (model self.now).over from to bytes }
        ensures gap { result.gap ≡ (model self.now).gap from to bytes }
        ensures flight { result.flight ≡ (model self.now).flight from to bytes }
    {
        Spans {
            over: self.over(from, to, bytes),
            gap: self.gap(from, to, bytes),
            flight: self.flight(from, to, bytes),
        }
    }

    /// Returns how long the clear to send (CTS) of a rendezvous message takes back to the sender, in nanoseconds.
    fn latency(&self, from: u32, to: u32) -> u64
        ensures { result ≡ (model self.now).latency from to };

    /// Returns whether the message is eager: it is sent without a handshake.
    fn eager(&self, from: u32, to: u32, bytes: u64) -> bool
        requires { bytes < 2 ^ 40 }
        ensures { result ≡ (model self.now).eager from to bytes };

    /// Each number is at most 2^61.
    ghost bounded: { (costs : Self) → IsBounded (model costs) };
}

/// The costs of LogGOPS, the same between all ranks. `specs/Costs` has the formulas (`log_gops`).
#[derive(Clone, Copy, Debug, PartialEq, Eq)]
pub struct LogGops {
    /// The parameters.
    pub params: Params,
}

// Returns the cost of the bytes of a message, in nanoseconds: `nanos` nanoseconds and `picos` picoseconds for each byte
// but the first. The picoseconds are added up and then rounded up once.
fn up(nanos: u64, picos: u64, bytes: u64) -> u64
    requires nanos { nanos ≤ MAX_PER_BYTE }
    requires picos { picos ≤ MAX_PICOS }
    requires bytes { bytes < 2 ^ 40 }
    ensures is { result ≡ up nanos picos bytes }
    ensures bound { result ≤ 2 ^ 60 + 2 ^ 41 }
{
    let body = bytes.saturating_sub(1);
    nanos * body + (picos * body).div_ceil(1_000)
}

impl LogGops {
    ghost use Rattle.std.specs.Prelude.{◌≡◌, ◌<◌, ◌≤◌, ◌+◌, ◌^◌};
    ghost use Rattle.sim_params.specs.Costs.{up};

    // Returns the cost of the bytes of a message on a cpu, in nanoseconds.
    fn overhead_up(&self, bytes: u64) -> u64
        requires { bytes < 2 ^ 40 }
        ensures is { result ≡ up self.now.params.overhead_per_byte self.now.params.overhead_picos bytes }
        ensures bound { result ≤ 2 ^ 60 + 2 ^ 41 }
    {
        let params = self.params;
        up(params.overhead_per_byte, params.overhead_picos, bytes)
    }

    // Returns the cost of the bytes of a message on a side of a NIC, in nanoseconds.
    fn gap_up(&self, bytes: u64) -> u64
        requires { bytes < 2 ^ 40 }
        ensures is { result ≡ up self.now.params.gap_per_byte self.now.params.gap_picos bytes }
        ensures bound { result ≤ 2 ^ 60 + 2 ^ 41 }
    {
        let params = self.params;
        up(params.gap_per_byte, params.gap_picos, bytes)
    }
}

impl Costs for LogGops {
    ghost use Rattle.std.specs.Prelude.{◌≡◌, ◌<◌, ◌^◌};
    ghost use Rattle.sim_params.specs.Costs.{CostModel, log_gops};
    ghost use Rattle.sim_params.specs.Numbers.{numbers};
    ghost use Rattle.sim_params.specs.Bounds.{log_gops_bounded};

    ghost model = { λ c. log_gops (numbers c.params) };

    ghost bounded = { λ c. log_gops_bounded c.params };

    fn over(&self, _from: u32, _to: u32, bytes: u64) -> u64 {
        self.params.overhead + self.overhead_up(bytes)
    }

    fn gap(&self, _from: u32, _to: u32, bytes: u64) -> u64 {
        self.params.gap + self.gap_up(bytes)
    }

    fn flight(&self, _from: u32, _to: u32, bytes: u64) -> u64 {
        self.params.overhead + self.overhead_up(bytes).max(self.gap_up(bytes)) + self.params.latency
    }

    fn latency(&self, _from: u32, _to: u32) -> u64 {
        self.params.latency
    }

    fn eager(&self, _from: u32, _to: u32, bytes: u64) -> bool {
        bytes <= self.params.sync
    }
}
