//! What separates the words of a text.
ghost use Rattle.std.specs.Prelude.{◌≡◌};
ghost use Rattle.goal_limits.specs.Bytes.{is_blank};

/// Returns whether the byte is a space, a tab, a carriage return or a line feed.
pub fn is_blank(byte: u8) -> bool
    ensures { result ≡ is_blank byte }
{
    byte == b' ' || byte == b'\t' || byte == b'\r' || byte == b'\n'
}
