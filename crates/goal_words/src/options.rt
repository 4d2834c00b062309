//! The options of a line, and their values.
ghost use Rattle.std.specs.Prelude.{◌≡◌, None, Some, MatchOption};
ghost use Rattle.sim_params.specs.Numbers.{numbers};
ghost use Rattle.goal_words.specs.Options.{value_of, within_limits};
ghost use Rattle.goal_words.specs.Reading.{key_of, run_key_of, none_given, given_for, set, with_option, numbers_given};

use goal_base::numeral_value;
use sim_params::{
    DEFAULT_GAP, DEFAULT_GAP_PER_BYTE, DEFAULT_LATENCY, DEFAULT_OVERHEAD,
    DEFAULT_OVERHEAD_PER_BYTE, DEFAULT_SYNC, Params,
};

/// An option, by what it sets.
#[derive(Clone, Copy)]
pub enum OptionKey {
    /// `--L`
    Latency,
    /// `--o`
    Overhead,
    /// `--g`
    Gap,
    /// `--G`
    GapPerByte,
    /// `--Gp`
    GapPicos,
    /// `--O`
    OverheadPerByte,
    /// `--Op`
    OverheadPicos,
    /// `--S`
    Sync,
    /// `--root`
    Root,
}

/// The options that a command allows.
#[derive(Clone, Copy)]
pub enum AllowedOptions {
    /// The options of a run: all except `--root`.
    Run,
    /// The option of a collective: only `--root`.
    Root,
    /// No option.
    Nothing,
}

impl AllowedOptions {
    /// Returns the allowed option with this word, if any.
    pub fn key_of(self, word: &str) -> Option<OptionKey>
        ensures { result ≡ key_of self word.now }
    {
        match self {
            AllowedOptions::Run => run_key_of(word),
            AllowedOptions::Root => match word {
                "--root" => Some(OptionKey::Root),
                _ => None,
            },
            AllowedOptions::Nothing => None,
        }
    }
}

// Returns the option of a run with this word, if any.
fn run_key_of(word: &str) -> Option<OptionKey>
    ensures { result ≡ run_key_of word.now }
{
    match word {
        "--L" => Some(OptionKey::Latency),
        "--o" => Some(OptionKey::Overhead),
        "--g" => Some(OptionKey::Gap),
        "--G" => Some(OptionKey::GapPerByte),
        "--Gp" => Some(OptionKey::GapPicos),
        "--O" => Some(OptionKey::OverheadPerByte),
        "--Op" => Some(OptionKey::OverheadPicos),
        "--S" => Some(OptionKey::Sync),
        _ => None,
    }
}

/// Returns the value of a number of 1 to 20 digits below 2^64, or `None` for any other word.
pub fn value_of(word: &str) -> Option<u64>
    ensures { result ≡ value_of word.now }
{
    match numeral_value(word.as_bytes()) {
        Some(value) if value < 1 << 64 => Some(value as u64),
        _ => None,
    }
}

/// The values of the options given so far.
#[derive(Clone, Copy)]
pub struct OptionValues {
    latency: Option<u64>,
    overhead: Option<u64>,
    gap: Option<u64>,
    gap_per_byte: Option<u64>,
    gap_picos: Option<u64>,
    overhead_per_byte: Option<u64>,
    overhead_picos: Option<u64>,
    sync: Option<u64>,
    root: Option<u64>,
}

/// No option is given.
pub const NONE_GIVEN: OptionValues = OptionValues {
    latency: None,
    overhead: None,
    gap: None,
    gap_per_byte: None,
    gap_picos: None,
    overhead_per_byte: None,
    overhead_picos: None,
    sync: None,
    root: None,
};

impl OptionValues {
    /// Returns the options with another one, or `None` if it was already given.
    pub fn with(self, key: OptionKey, number: u64) -> Option<OptionValues>
        ensures { result ≡ with_option self key number }
    {
        let place = match key {
            OptionKey::Latency => self.latency,
            OptionKey::Overhead => self.overhead,
            OptionKey::Gap => self.gap,
            OptionKey::GapPerByte => self.gap_per_byte,
            OptionKey::GapPicos => self.gap_picos,
            OptionKey::OverheadPerByte => self.overhead_per_byte,
            OptionKey::OverheadPicos => self.overhead_picos,
            OptionKey::Sync => self.sync,
            OptionKey::Root => self.root,
        };
        if place.is_some() {
            return None;
        }
        Some(self.set(key, number))
    }

    // Returns the options with this value for one.
    fn set(self, key: OptionKey, number: u64) -> OptionValues
        ensures { result ≡ set self key number }
    {
        let number = Some(number);
        match key {
            OptionKey::Latency => OptionValues {
                latency: number,
                ..self
            },
            OptionKey::Overhead => OptionValues {
                overhead: number,
                ..self
            },
            OptionKey::Gap => OptionValues {
                gap: number,
                ..self
            },
            OptionKey::GapPerByte => OptionValues {
                gap_per_byte: number,
                ..self
            },
            OptionKey::GapPicos => OptionValues {
                gap_picos: number,
                ..self
            },
            OptionKey::OverheadPerByte => OptionValues {
                overhead_per_byte: number,
                ..self
            },
            OptionKey::OverheadPicos => OptionValues {
                overhead_picos: number,
                ..self
            },
            OptionKey::Sync => OptionValues {
                sync: number,
                ..self
            },
            OptionKey::Root => OptionValues {
                root: number,
                ..self
            },
        }
    }

    /// Returns the value of `--root`, if it is given.
    pub fn root(self) -> Option<u64>
        ensures { result ≡ self.root }
    {
        self.root
    }

    /// Returns the parameters of a run, with defaults for those not given, or `None` if one is over its limit.
    pub fn params(self) -> Option<Params>
        ensures { MatchOption result (within_limits (numbers_given self) ≡ None)
            (λ params. within_limits (numbers_given self) ≡ Some (numbers params)) }
    {
        Params::fine(
            self.latency.unwrap_or(DEFAULT_LATENCY),
            self.overhead.unwrap_or(DEFAULT_OVERHEAD),
            self.gap.unwrap_or(DEFAULT_GAP),
            self.gap_per_byte.unwrap_or(DEFAULT_GAP_PER_BYTE),
            self.gap_picos.unwrap_or(0),
            self.overhead_per_byte.unwrap_or(DEFAULT_OVERHEAD_PER_BYTE),
            self.overhead_picos.unwrap_or(0),
            self.sync.unwrap_or(DEFAULT_SYNC),
        )
        .ok()
    }
}
