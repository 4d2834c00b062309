//! The limits of the numbers of a text.
ghost use Rattle.std.specs.Prelude.{◌≡◌};
ghost use Rattle.goal_parser.specs.Numbers.{option_most, most, least, number_within};

use crate::draft::OptionWord;
use crate::sentence::State;
use goal_limits::{MAX_BYTES, MAX_NANOS, MAX_RANKS};

/// Returns the limit of an option's number.
#[inline(always)]
fn option_most(option: OptionWord) -> u64
    ensures { result ≡ option_most option }
{
    match option {
        OptionWord::Tag => u32::MAX as u64,
        OptionWord::Cpu | OptionWord::Nic => u8::MAX as u64,
    }
}

/// Returns the limit of a number in this state, after this option word.
#[inline(always)]
fn most(state: State, option: OptionWord) -> u64
    ensures { result ≡ most state option }
{
    match state {
        State::Ranks => MAX_RANKS as u64,
        State::Calc1 => MAX_NANOS,
        State::Send1 | State::Recv1 => MAX_BYTES,
        State::Calc3 | State::Send5 | State::Recv5 | State::Recv6 => option_most(option),
        _ => u32::MAX as u64,
    }
}

/// Returns the least number in this state.
#[inline(always)]
fn least(state: State) -> u64
    ensures { result ≡ least state }
{
    match state {
        State::Ranks => 1,
        _ => 0,
    }
}

/// Returns whether the number is within the limits of its place.
#[inline(always)]
pub fn number_within(state: State, option: OptionWord, value: u64) -> bool
    ensures { result ≡ number_within state option value }
{
    least(state) <= value && value <= most(state, option)
}
