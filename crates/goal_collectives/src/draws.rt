//! The random numbers of a probe.
ghost use Rattle.std.specs.Prelude.{◌≡◌, ◌<◌, ◌^◌};
ghost use Rattle.goal_collectives.specs.Probe.{next_state, drawn, round_from};

/// The number of ranks of a probe.
pub const PROBE_RANKS: u32 = 64;

const MULTIPLIER: u64 = 6_364_136_223_846_793_005;

const INCREMENT: u64 = 1_442_695_040_888_963_407;

/// A round of a probe.
#[derive(Clone, Copy)]
pub struct Round {
    /// The rank of its calc and its send.
    pub from: u32,
    /// The rank of its receive.
    pub to: u32,
    /// The duration of the calc, in nanoseconds.
    pub nanos: u64,
    /// The size of the message, in bytes.
    pub bytes: u64,
}

/// A sequence of draws, by a linear congruential generator modulo 2^64.
#[derive(Drop)]
pub struct Draws {
    state: u64,
}

impl Draws {
    /// Starts a sequence with a seed.
    pub fn new(seed: u64) -> Draws
        ensures { result.state ≡ seed }
    {
        Draws { state: seed }
    }

    // Draws a number below 2^31.
    fn draw(&mut self) -> u64
        ensures state { self.new.state ≡ next_state self.old.state }
        ensures drawn { result ≡ drawn self.new.state }
    {
        self.state = self.state.wrapping_mul(MULTIPLIER).wrapping_add(INCREMENT);
        self.state >> 33
    }

    /// Draws a round, by four draws.
    pub fn round(&mut self) -> Round
        ensures round { result ≡ round_from self.old.state }
        ensures state { self.new.state ≡ next_state (next_state (next_state (next_state self.old.state))) }
    {
        let from = self.draw();
        let to = self.draw();
        let nanos = self.draw() % 10_000;
        let bytes = self.draw() % 100_000;
        Round {
            from: (from % PROBE_RANKS as u64) as u32,
            to: (to % PROBE_RANKS as u64) as u32,
            nanos,
            bytes,
        }
    }
}
