//! The label and the verb at the beginning of an item.
ghost use Rattle.std.specs.Prelude.{◌≡◌, ◌<◌, ◌≤◌, Some, length};
ghost use Rattle.goal_limits.specs.Limits.{run_limit};
ghost use Rattle.goal_parser.specs.Items.{low_head, verb_head};
ghost use Rattle.goal_parser.specs.Taken.{IsWithin};

use crate::sentence::State;
use goal_lexer::{Label, TokenKind};

/// A label with its place in the text.
#[derive(Clone, Copy)]
pub struct Mention {
    /// The label.
    pub label: Label,
    /// The place of its first byte.
    pub at: u64,
}

/// The words that may follow a label.
#[derive(Clone, Copy)]
pub enum Verb {
    /// `requires`
    Requires,
    /// `irequires`
    Irequires,
    /// `moves`
    Moves,
    /// `adds`
    Adds,
}

/// What an item that begins with a label has given so far.
#[derive(Clone, Copy)]
pub struct ItemHead {
    /// The label that the newest such item begins with.
    pub subject: Option<Mention>,
    /// The last verb.
    pub verb: Verb,
    /// The first slot of the newest note.
    pub low: u32,
}

impl ItemHead {
    /// The state before any token.
    pub fn new() -> ItemHead
        ensures { result ≡ record { subject = None; verb = Verb.Requires; low = 0 } }
    {
        ItemHead {
            subject: None,
            verb: Verb::Requires,
            low: 0,
        }
    }

    /// Begins an item with a label, whose first byte is at this place.
    #[inline(always)]
    pub fn begin(&mut self, label: &[u8], at: u64)
        requires some { 0 < length label.now }
        requires short { length label.now ≤ run_limit }
        ensures { self.new ≡ record self.old { subject = Some (record { label = label.now; at = at }) } }
    {
        match &mut self.subject {
            Some(subject) => {
                subject.label.write(label);
                subject.at = at;
            }
            None => {
                self.subject = Some(Mention {
                    label: Label::of(label),
                    at,
                });
            }
        }
    }

    /// Takes a number.
    #[inline(always)]
    #[tactic(auto, unfolding(crate::specs::Numbers::is_within))]
    pub fn take_number(&mut self, state: State, value: u64)
        requires { IsWithin state (TokenKind.Number value) }
        ensures { self.new ≡ low_head state value self.old }
    {
        match state {
            State::Note1 => self.low = value as u32,
            _ => {}
        }
    }

    /// Takes a verb. Another word changes nothing.
    #[inline(always)]
    pub fn take_verb(&mut self, kind: &TokenKind)
        ensures { self.new ≡ verb_head kind.now self.old }
    {
        match kind {
            TokenKind::Requires => self.verb = Verb::Requires,
            TokenKind::Irequires => self.verb = Verb::Irequires,
            TokenKind::Moves => self.verb = Verb::Moves,
            TokenKind::Adds => self.verb = Verb::Adds,
            _ => {}
        }
    }
}
