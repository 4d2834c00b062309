//! The limits of a schedule, its parts, its input and its parameters, and of what is certified. `specs/Limits` has the
//! same numbers, except for the time budget.

/// The most ranks of a schedule: 2^16. A schedule has at least one.
pub const MAX_RANKS: u32 = 65_536;

/// The most operations of a schedule, all ranks together: 2^20.
pub const MAX_OPS: u32 = 1_048_576;

/// The most dependencies of a schedule, all ranks together: 2^22.
pub const MAX_DEPS: u32 = 4_194_304;

/// The most notes of a schedule, all ranks together: 2^20.
pub const MAX_NOTES: u32 = 1_048_576;

/// The most rounds of a probe.
pub const MAX_ROUNDS: u32 = 300_000;

/// The most bytes of an input: 2^27.
pub const MAX_INPUT: usize = 134_217_728;

/// The most bytes of a label, a word, a number or a size of a text.
pub const MAX_RUN_BYTES: usize = 64;

/// The largest size of a message and of a receive, in bytes: 2^40-1.
pub const MAX_BYTES: u64 = 1_099_511_627_775;

/// The longest calculation, in nanoseconds: 2^48-1.
pub const MAX_NANOS: u64 = 281_474_976_710_655;

/// The largest value of the latency, the overhead and the gap of a message, in nanoseconds, and of the greatest eager
/// size S, in bytes: 2^40-1.
pub const MAX_PARAM: u64 = 1_099_511_627_775;

/// The largest gap and overhead per byte, in nanoseconds: 2^20-1.
pub const MAX_PER_BYTE: u64 = 1_048_575;

/// The most operations of a rank in a certified schedule: 2^11.
pub const MAX_CERTIFIED_OPS: usize = 2_048;

/// The highest slot that a note of a certified schedule names: 2^16-1.
pub const MAX_SLOT: u32 = 65_535;

/// The most slots that all notes of a certified schedule move: 2^24.
pub const MAX_MOVED: u64 = 16_777_216;

/// The most contributions that are held at once during certification: 2^24.
pub const MAX_WEIGHT: u64 = 16_777_216;

/// The largest time budget of a schedule, in nanoseconds: 2^63-1.
pub const MAX_BUDGET: u64 = 9_223_372_036_854_775_807;
