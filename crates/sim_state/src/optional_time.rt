//! A time that may not be known, in eight bytes.
ghost use Rattle.std.specs.Prelude.{◌≡◌, ◌<◌, ◌^◌, Some, None, max};
ghost use Rattle.std.specs.Option.{option_map};

use std::marker::Model;

/// A time in nanoseconds that may not be known. Contracts see it as an option of the time.
#[derive(Clone, Copy)]
pub struct OptionalTime {
    // the greatest number if the time is not known
    nanos: u64,
}

impl Model for OptionalTime {
    ghost use Rattle.std.specs.Prelude.{ℕ, Option};
    ghost use Rattle.sim_state.specs.OptionalTimes.{time_of, nanos_of, nanos_of_time_of};

    ghost Value = { Option ℕ };

    ghost view = { λ m. time_of m.nanos };

    ghost inverse = { λ time. record { nanos = nanos_of time } };

    ghost inverse_ok = { λ m h i. record { nanos = nanos_of_time_of m.nanos i } };
}

impl OptionalTime {
    /// No time.
    pub const NONE: OptionalTime = OptionalTime { nanos: u64::MAX };

    /// This time, in nanoseconds.
    pub fn at(nanos: u64) -> OptionalTime
        requires { nanos < 2 ^ 63 }
        ensures { result ≡ Some nanos }
    {
        OptionalTime { nanos }
    }

    /// Returns the time in nanoseconds, if it is known.
    pub fn get(self) -> Option<u64>
        ensures { result ≡ self }
    {
        if self.nanos == u64::MAX {
            return None;
        }
        Some(self.nanos)
    }

    /// Returns the later of this time and `nanos`, in nanoseconds, if this time is known; otherwise no time.
    pub fn or_later(self, nanos: u64) -> OptionalTime
        requires { nanos < 2 ^ 63 }
        ensures { result ≡ option_map (λ last. max last nanos) self }
    {
        OptionalTime {
            nanos: self.nanos.max(nanos),
        }
    }
}
