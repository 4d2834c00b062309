//! The label of an operation.
ghost use Rattle.std.specs.Prelude.{◌≡◌, ℕ, ◌<◌, ◌≤◌, List, [], ◌∷◌, ◌++◌, length, nat_eq};
ghost use Rattle.std.specs.Cmp.Lexicographic.{pointwise, nat_list_eq_equiv};
ghost use Rattle.std.specs.Cmp.{partial_equiv_from_equiv};
ghost use Rattle.goal_limits.specs.Limits.{run_limit};
ghost use Rattle.goal_lexer.specs.Hashing.{one_write, one_write_alike};

use goal_limits::MAX_RUN_BYTES;
use std::hash::{Hash, Hasher};
use std::marker::Model;

/// A label of 1 to 64 bytes, stored in place. Contracts see the list of its bytes.
#[derive(Clone, Copy, Debug)]
pub struct Label {
    bytes: [u8; MAX_RUN_BYTES],
    len: usize,
}

impl Model for Label {
    ghost use Rattle.std.specs.Prelude.{ℕ, List, ◌≡◌, ◌<◌, ◌≤◌, take, length};
    ghost use Rattle.goal_limits.specs.Limits.{run_limit};
    ghost use Rattle.goal_lexer.specs.Padding.{padded, length_taken};

    ghost Value = { List ℕ };

    ghost view = { λ l. take l.len l.bytes };

    ghost invariant = { λ l. (0 < l.len) × (l.len ≤ run_limit) × (padded (take l.len l.bytes) ≡ l.bytes) };

    ghost inverse = { λ bs. record { bytes = padded bs; len = length bs } };

    ghost inverse_ok = { λ l h i. record { bytes = h.2 i; len = length_taken l.len l.bytes h.1 h.2 i } };
}

impl Label {
    /// Creates the label of one byte.
    pub(crate) fn of_byte(byte: u8) -> Label
        ensures { result ≡ byte ∷ [] }
    {
        let mut bytes = [0; MAX_RUN_BYTES];
        bytes[0] = byte;
        Label { bytes, len: 1 }
    }

    /// Creates the label of these 1 to 64 bytes.
    pub fn of(text: &[u8]) -> Label
        requires some { 0 < length text.now }
        requires most { length text.now ≤ run_limit }
        ensures { result ≡ text.now }
    {
        let mut label = Label::of_byte(0);
        label.write(text);
        label
    }

    /// Sets the label to these 1 to 64 bytes.
    #[inline(always)]
    pub fn write(&mut self, text: &[u8])
        requires some { 0 < length text.now }
        requires most { length text.now ≤ run_limit }
        ensures { self.new ≡ text.now }
    {
        self.bytes = [0; MAX_RUN_BYTES];
        self.bytes[..text.len()].copy_from_slice(text);
        self.len = text.len();
    }

    /// Appends a byte.
    pub(crate) fn push(&mut self, byte: u8)
        requires { length self.old < run_limit }
        ensures { self.new ≡ self.old ++ byte ∷ [] }
    {
        self.bytes[self.len] = byte;
        self.len += 1;
    }

    /// Returns the number of bytes, 1 to 64.
    pub(crate) fn len(&self) -> usize
        ensures value { result ≡ length self.now }
        ensures above { 0 < result }
        ensures most { result ≤ run_limit }
    {
        self.len
    }

    /// Returns the bytes, 1 to 64.
    pub fn as_bytes(&self) -> &[u8]
        ensures bytes { result.now ≡ self.now }
        ensures some { 0 < length result.now }
        ensures most { length result.now ≤ run_limit }
    {
        &self.bytes[..self.len]
    }
}

impl PartialEq for Label {
    ghost eq = { pointwise nat_eq };

    ghost laws = { partial_equiv_from_equiv nat_list_eq_equiv };

    fn eq(&self, other: &Label) -> bool {
        self.len == other.len && self.bytes == other.bytes
    }
}

impl Eq for Label {
    ghost laws = { nat_list_eq_equiv };
}

impl Hash for Label {
    ghost hash_input = { one_write };

    ghost respects_eq = { one_write_alike };

    fn hash<H: Hasher>(&self, state: &mut H) {
        state.write(self.as_bytes());
    }
}
