//! Classes of bytes.
ghost use Rattle.std.specs.Prelude.{◌≡◌};
ghost use Rattle.goal_lexer.specs.Bytes.{begins_word, is_digit, is_run_byte};
ghost use Rattle.goal_lexer.specs.Reserved.{ends_reserved};

/// The run bytes among all bytes: an `x` at each.
const RUN_BYTES: [u8; 256] = *b"\
................................\
................xxxxxxxxxx......\
.xxxxxxxxxxxxxxxxxxxxxxxxxx....x\
.xxxxxxxxxxxxxxxxxxxxxxxxxx.....\
................................\
................................\
................................\
................................";

/// Returns whether the byte is a letter or `_`.
pub(crate) fn begins_word(byte: u8) -> bool
    ensures { result ≡ begins_word byte }
{
    byte.is_ascii_alphabetic() || byte == b'_'
}

/// Returns whether the byte is a decimal digit.
pub(crate) fn is_digit(byte: u8) -> bool
    ensures { result ≡ is_digit byte }
{
    byte.is_ascii_digit()
}

/// Returns whether a reserved word ends with the byte.
pub(crate) fn ends_reserved(byte: u8) -> bool
    ensures { result ≡ ends_reserved byte }
{
    // most labels end with a digit
    byte > b'9'
        && matches!(
            byte,
            b'c' | b'd' | b'g' | b'k' | b'm' | b'o' | b's' | b'u' | b'v' | b'y'
        )
}

/// Returns whether the byte is a run byte: a letter, a digit or `_`.
pub(crate) fn is_run_byte(byte: u8) -> bool
    ensures { result ≡ is_run_byte byte }
{
    RUN_BYTES[byte as usize] == b'x'
}
