//! The words of a machine text, one after another.
ghost use Rattle.std.specs.Prelude.{ℕ, List, Err, ◌≡◌, ◌≢◌, ◌+◌, ◌<◌, ◌≤◌, ◌^◌, [], ◌∷◌, length, not, IfOk, IfErr, IfSome, IfNone};
ghost use Rattle.std.specs.List.{prefix_len};
ghost use Rattle.sim_classes.specs.Form.{Form, Fixed, Value, End, Test, words, is_blank, or_fault, read_by_form, between, class_number};
ghost use Rattle.sim_classes.specs.Machine.{MachineModel};
ghost use Rattle.sim_params.specs.Costs.{Numbers};

use crate::fault::MachineFault;
use goal_base::numeral_value;
use goal_limits::is_blank;
use std::marker::Model;

/// The remaining words, and the number of the first of them.
#[derive(Drop)]
pub struct Words<'a> {
    rest: &'a [u8],
    place: u64,
}

impl<'a> Model for Words<'a> {
    ghost use Rattle.std.specs.Prelude.{◌+◌, ◌<◌, ◌^◌, length};
    ghost use Rattle.sim_classes.specs.Form.{words};
    ghost use Rattle.sim_classes.specs.Left.{Left};

    ghost Value = { Left };

    ghost view = { λ w. record { place = w.place; words = words w.rest.now } };

    ghost invariant = { λ w. w.place + length w.rest.now < 2 ^ 64 };
}

// Returns the number of blanks at the front.
fn blanks(bytes: &[u8]) -> usize
    ensures { result ≡ prefix_len is_blank bytes.now }
{
    let mut len = 0;
    while len < bytes.len() && is_blank(bytes[len]) {
        len += 1;
    }
    len
}

// Returns the number of bytes at the front that are not blanks.
fn word_len(bytes: &[u8]) -> usize
    ensures { result ≡ prefix_len (λ b. not (is_blank b)) bytes.now }
{
    let mut len = 0;
    while len < bytes.len() && !is_blank(bytes[len]) {
        len += 1;
    }
    len
}

impl<'a> Words<'a> {
    /// Starts with the words of a text.
    pub fn new(text: &'a [u8]) -> Words<'a>
        ensures { result ≡ record { place = 0; words = words text.now } }
    {
        Words {
            rest: text,
            place: 0,
        }
    }

    /// Takes the next word. At the end it returns `None`, and nothing changes.
    pub fn take(&mut self) -> Option<&'a [u8]>
        ensures word { IfSome result (λ w. self.old.words ≡ w.now ∷ self.new.words) }
        ensures place { IfSome result (λ w. self.new.place ≡ self.old.place + 1) }
        ensures end { IfNone result (self.old.words ≡ []) }
    {
        let tail = &self.rest[blanks(self.rest)..];
        if tail.is_empty() {
            return None;
        }
        let (word, rest) = tail.split_at(word_len(tail));
        self.rest = rest;
        self.place += 1;
        Some(word)
    }

    /// Takes a fixed word. `Err` is `Syntax` if the next word is another or missing.
    pub fn fixed(&mut self, word: &str) -> Result<(), MachineFault>
        ensures next { IfOk result (λ _. (rest : Form)
            → read_by_form (Fixed word.now rest) self.old.place self.old.words ≡ read_by_form rest self.new.place self.new.words) }
        ensures fault { IfErr result (λ fault. (rest : Form)
            → read_by_form (Fixed word.now rest) self.old.place self.old.words ≡ Err fault) }
    {
        let at = self.place;
        match self.take() {
            Some(found) => {
                if found == word.as_bytes() {
                    Ok(())
                } else {
                    Err(MachineFault::Syntax { at })
                }
            }
            None => Err(MachineFault::Syntax { at }),
        }
    }

    /// Takes a number, and returns its place and its value. `Err` is `Syntax` if the next word is not one.
    pub fn number(&mut self) -> Result<(u64, u128), MachineFault>
        ensures next { IfOk result (λ p. (test : Test) (rest : ℕ → Form)
            → read_by_form (Value test rest) self.old.place self.old.words
            ≡ or_fault (test p.1) p.0 (read_by_form (rest p.1) self.new.place self.new.words)) }
        ensures fault { IfErr result (λ fault. (test : Test) (rest : ℕ → Form)
            → read_by_form (Value test rest) self.old.place self.old.words ≡ Err fault) }
    {
        let at = self.place;
        match self.take() {
            Some(word) => match numeral_value(word) {
                Some(value) => Ok((at, value)),
                None => Err(MachineFault::Syntax { at }),
            },
            None => Err(MachineFault::Syntax { at }),
        }
    }

    /// Takes a number from `least` to `most`. `Err` is `Number` if it is outside, else as for `number`.
    pub fn number_from(&mut self, least: u64, most: u64) -> Result<u64, MachineFault>
        ensures next { IfOk result (λ n. (rest : ℕ → Form)
            → read_by_form (Value (between least most) rest) self.old.place self.old.words ≡ read_by_form (rest n) self.new.place self.new.words) }
        ensures within { IfOk result (λ n. (least ≤ n) × (n ≤ most)) }
        ensures fault { IfErr result (λ fault. (rest : ℕ → Form)
            → read_by_form (Value (between least most) rest) self.old.place self.old.words ≡ Err fault) }
    {
        let (at, value) = self.number()?;
        if value < u128::from(least) || u128::from(most) < value {
            return Err(MachineFault::Number { at });
        }
        Ok(value as u64)
    }

    /// Takes the number of a class, from 0, of which there are `count`. `Err` is as for `number_from`.
    pub fn class_number(&mut self, count: u64) -> Result<u64, MachineFault>
        ensures next { IfOk result (λ n. (classes : List Numbers) (rest : ℕ → Form) → length classes ≡ count
            → read_by_form (Value (class_number classes) rest) self.old.place self.old.words ≡ read_by_form (rest n) self.new.place self.new.words) }
        ensures within { IfOk result (λ n. n < count) }
        ensures fault { IfErr result (λ fault. (classes : List Numbers) (rest : ℕ → Form) → length classes ≡ count
            → read_by_form (Value (class_number classes) rest) self.old.place self.old.words ≡ Err fault) }
    {
        let (at, value) = self.number()?;
        if value >= u128::from(count) {
            return Err(MachineFault::Number { at });
        }
        Ok(value as u64)
    }

    /// Checks that no word is left.
    pub fn end(&mut self) -> Result<(), MachineFault>
        ensures next { IfOk result (λ _. self.old.words ≡ []) }
        ensures fault { IfErr result (λ fault. (m : MachineModel) → read_by_form (End m) self.old.place self.old.words ≡ Err fault) }
    {
        let at = self.place;
        match self.take() {
            Some(_) => Err(MachineFault::Syntax { at }),
            None => Ok(()),
        }
    }
}
