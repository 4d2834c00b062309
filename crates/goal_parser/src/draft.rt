//! The operation that the tokens of an action describe.
ghost use Rattle.std.specs.Prelude.{◌≡◌, ◌≤◌, true};
ghost use Rattle.goal_parser.specs.Actions.{begun, option_with, number_with, any_with, draft_with, op_of, has_option};
ghost use Rattle.goal_parser.specs.Numbers.{option_most, number_within, is_within};

use crate::sentence::State;
use goal_graph::{Kind, Op};
use goal_lexer::TokenKind;

/// The kinds of action.
#[derive(Clone, Copy)]
pub enum Action {
    /// `calc`
    Calc,
    /// `send`
    Send,
    /// `recv`
    Recv,
}

/// The words of options.
#[derive(Clone, Copy)]
pub enum OptionWord {
    /// `tag`
    Tag,
    /// `cpu`
    Cpu,
    /// `nic`
    Nic,
}

/// An action as far as it has been read.
#[derive(Clone, Copy)]
pub struct Draft {
    /// Its kind.
    pub action: Action,
    /// The duration of a calc in nanoseconds, or the size of a send or a receive in bytes.
    pub size: u64,
    /// The target or the source. `None`: any, or not read yet.
    pub peer: Option<u32>,
    /// The tag. `None`: any.
    pub tag: Option<u32>,
    /// The cpu.
    pub cpu: u8,
    /// The NIC.
    pub nic: u8,
    /// Whether the action has the option `tag`.
    pub has_tag: bool,
    /// Whether the action has the option `cpu`.
    pub has_cpu: bool,
    /// Whether the action has the option `nic`.
    pub has_nic: bool,
    /// The last option word.
    pub option: OptionWord,
}

impl Draft {
    /// Returns the draft of an action that has just begun: size 0, no peer, tag 0, cpu 0 and NIC 0. `option` is the
    /// last option word of the text so far.
    #[inline(always)]
    pub fn begun(action: Action, option: OptionWord) -> Draft
        ensures { result ≡ begun action option }
    {
        Draft {
            action,
            size: 0,
            peer: None,
            tag: Some(0),
            cpu: 0,
            nic: 0,
            has_tag: false,
            has_cpu: false,
            has_nic: false,
            option,
        }
    }

    /// The draft before any token.
    pub fn new() -> Draft
        ensures { result ≡ begun Action.Calc OptionWord.Tag }
    {
        Draft::begun(Action::Calc, OptionWord::Tag)
    }

    /// Takes the number after an option's word.
    #[inline(always)]
    fn take_option(&mut self, value: u64)
        requires { value ≤ option_most self.old.option }
        ensures { self.new ≡ option_with self.old.option value self.old }
    {
        match self.option {
            OptionWord::Tag => self.tag = Some(value as u32),
            OptionWord::Cpu => self.cpu = value as u8,
            OptionWord::Nic => self.nic = value as u8,
        }
    }

    /// Takes a number or a size.
    #[inline(always)]
    fn take_number(&mut self, state: State, value: u64)
        requires { number_within state self.old.option value ≡ true }
        ensures { self.new ≡ number_with state value self.old }
    {
        match state {
            State::Calc1 | State::Send1 | State::Recv1 => self.size = value,
            State::Send3 | State::Recv3 => self.peer = Some(value as u32),
            State::Calc3 | State::Send5 | State::Recv5 | State::Recv6 => self.take_option(value),
            _ => {}
        }
    }

    /// Takes the word `any`.
    #[inline(always)]
    fn take_any(&mut self, state: State)
        ensures { self.new ≡ any_with state self.old }
    {
        match state {
            State::Recv3 => self.peer = None,
            State::Recv5 => self.tag = None,
            _ => {}
        }
    }

    /// Takes a token in this state.
    #[inline(always)]
    #[tactic(auto, unfolding(crate::specs::Numbers::is_within, crate::specs::Actions::draft_with))]
    pub fn take(&mut self, state: State, kind: &TokenKind)
        requires within { is_within state self.old.option kind.now ≡ true }
        ensures taken { self.new ≡ draft_with state kind.now self.old }
    {
        match kind {
            TokenKind::Calc => *self = Draft::begun(Action::Calc, self.option),
            TokenKind::Send => *self = Draft::begun(Action::Send, self.option),
            TokenKind::Recv => *self = Draft::begun(Action::Recv, self.option),
            TokenKind::Tag => {
                self.has_tag = true;
                self.option = OptionWord::Tag;
            }
            TokenKind::Cpu => {
                self.has_cpu = true;
                self.option = OptionWord::Cpu;
            }
            TokenKind::Nic => {
                self.has_nic = true;
                self.option = OptionWord::Nic;
            }
            TokenKind::Any => self.take_any(state),
            TokenKind::Number { value } | TokenKind::Size { value } => self.take_number(
                state, *value,
            ),
            _ => {}
        }
    }

    /// Returns whether the word is that of an option that the action already has.
    #[inline(always)]
    pub fn has_option(&self, kind: &TokenKind) -> bool
        ensures { result ≡ has_option kind.now self.now }
    {
        match kind {
            TokenKind::Tag => self.has_tag,
            TokenKind::Cpu => self.has_cpu,
            TokenKind::Nic => self.has_nic,
            _ => false,
        }
    }

    /// Returns the operation of the action.
    #[inline(always)]
    pub fn op(&self) -> Op
        ensures { result ≡ op_of self.now }
    {
        let kind = match self.action {
            Action::Calc => Kind::Calc { nanos: self.size },
            Action::Send => Kind::Send {
                bytes: self.size,
                to: self.peer.unwrap_or(0),
                tag: self.tag.unwrap_or(0),
            },
            Action::Recv => Kind::Recv {
                bytes: self.size,
                from: self.peer,
                tag: self.tag,
            },
        };
        Op {
            kind,
            cpu: self.cpu,
            nic: self.nic,
        }
    }
}
