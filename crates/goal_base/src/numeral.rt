//! Numbers that are read from words.
ghost use Rattle.std.specs.Prelude.{◌≡◌, None, Some, if◌then◌else◌};
ghost use Rattle.std.specs.List.{list_all};
ghost use Rattle.std.specs.Char.{is_ascii_digit};
ghost use Rattle.std.specs.Str.Parse.{digits_value};
ghost use Rattle.goal_base.specs.Numerals.{is_numeral};

// The most digits of a number.
const MOST_DIGITS: usize = 20;

// Returns whether all bytes are decimal digits.
fn are_digits(word: &[u8]) -> bool
    ensures { result ≡ list_all is_ascii_digit word.now }
{
    word.iter().all(|byte| byte.is_ascii_digit())
}

/// Returns the value of a word of 1 to 20 decimal digits, or `None` for any other word.
pub fn numeral_value(word: &[u8]) -> Option<u128>
    ensures { result ≡ (if is_numeral word.now then Some (digits_value 10 word.now) else None) }
{
    if word.is_empty() || word.len() > MOST_DIGITS || !are_digits(word) {
        return None;
    }
    let mut value = 0;
    for digit in word {
        value = value * 10 + u128::from(*digit - b'0');
    }
    Some(value)
}
