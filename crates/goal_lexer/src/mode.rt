//! What is open after the bytes taken so far.
use crate::labels::Label;

/// The form of a run so far. Each is the form of a whole token.
#[derive(Clone, Copy)]
pub enum Form {
    /// A letter or `_`, followed by any run bytes.
    Word,
    /// Digits only.
    Digits,
    /// Digits, followed by a `b`.
    Sized,
}

/// What is open after the bytes taken so far, or the fault that was met.
#[derive(Clone, Copy)]
pub enum Mode {
    /// Nothing is open.
    Between,
    /// A run.
    Run {
        /// The place of its first byte.
        start: u64,
        /// Its bytes so far.
        bytes: Label,
        /// Their form.
        form: Form,
    },
    /// A `/`, which has to begin a comment.
    Slash {
        /// Its place.
        start: u64,
    },
    /// A comment that ends with its line.
    LineComment {
        /// The place of its first byte.
        start: u64,
    },
    /// A comment that ends with `*/`.
    BlockComment {
        /// The place of its first byte.
        start: u64,
        /// Whether a `/` as the next byte would close it.
        closes: bool,
    },
    /// No token, blank or comment begins at a place.
    Failed {
        /// That place.
        at: u64,
    },
}
