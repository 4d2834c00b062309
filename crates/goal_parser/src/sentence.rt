//! The grammar of a text: which token may follow.
ghost use Rattle.std.specs.Prelude.{◌≡◌, ℕ, List};
ghost use Rattle.goal_parser.specs.Sentence.{item_entry, entry};

use goal_lexer::TokenKind;

/// The state of the grammar between two tokens.
#[derive(Clone, Copy, PartialEq, Eq)]
pub enum State {
    /// Before the first token.
    Start,
    /// After `num_ranks`.
    Ranks,
    /// Between blocks: the text may end here.
    Top,
    /// After `rank`.
    Block,
    /// After the number of a rank.
    Open,
    /// In a block, where an item begins.
    Item,
    /// After the label at the beginning of an item.
    Word,
    /// After `requires` or `irequires`.
    Label,
    /// After `moves` or `adds`.
    Note1,
    /// After the first slot of a note.
    Note2,
    /// After the `to` of a note.
    Note3,
    /// After the colon of a label.
    Action,
    /// After `calc`.
    Calc1,
    /// After the duration of a calc, or after an option's number.
    Calc2,
    /// After the `cpu` of a calc.
    Calc3,
    /// After `send`.
    Send1,
    /// After the size of a send.
    Send2,
    /// After the `to` of a send.
    Send3,
    /// After the target of a send, or after an option's number.
    Send4,
    /// After an option's word of a send.
    Send5,
    /// After `recv`.
    Recv1,
    /// After the size of a receive.
    Recv2,
    /// After the `from` of a receive.
    Recv3,
    /// After the source of a receive, or after an option's number.
    Recv4,
    /// After the `tag` of a receive.
    Recv5,
    /// After the `cpu` or `nic` of a receive.
    Recv6,
}

/// Returns the state after a token that begins an item or ends a block.
fn item_entry(kind: &TokenKind) -> Option<State>
    ensures { result ≡ item_entry kind.now }
{
    match kind {
        TokenKind::Close => Some(State::Top),
        TokenKind::Label(_) => Some(State::Word),
        TokenKind::Calc => Some(State::Calc1),
        TokenKind::Send => Some(State::Send1),
        TokenKind::Recv => Some(State::Recv1),
        _ => None,
    }
}

/// Returns the state after a label, or `None` if it may not follow.
#[inline(always)]
#[tactic(auto, unfolding(crate::specs::Sentence::entry))]
pub fn label_entry(state: State) -> Option<State>
    ensures { (label : List ℕ) → result ≡ entry state (TokenKind.Label label) }
{
    match state {
        State::Label => Some(State::Item),
        State::Item | State::Calc2 | State::Send4 | State::Recv4 => Some(State::Word),
        _ => None,
    }
}

/// Returns the state after a token of this kind, or `None` if it may not follow.
#[inline(always)]
#[tactic(auto, unfolding(crate::specs::Sentence::entry))]
pub fn entry(state: State, kind: &TokenKind) -> Option<State>
    ensures { result ≡ entry state kind.now }
{
    match (state, kind) {
        (State::Start, TokenKind::NumRanks) => Some(State::Ranks),
        (State::Ranks, TokenKind::Number { .. }) => Some(State::Top),
        (State::Top, TokenKind::Rank) => Some(State::Block),
        (State::Block, TokenKind::Number { .. }) => Some(State::Open),
        (State::Open, TokenKind::Open) => Some(State::Item),
        (State::Word, TokenKind::Colon) => Some(State::Action),
        (State::Word, TokenKind::Requires) => Some(State::Label),
        (State::Word, TokenKind::Irequires) => Some(State::Label),
        (State::Word, TokenKind::Moves) => Some(State::Note1),
        (State::Word, TokenKind::Adds) => Some(State::Note1),
        (State::Label, TokenKind::Label(_)) => Some(State::Item),
        (State::Note1, TokenKind::Number { .. }) => Some(State::Note2),
        (State::Note2, TokenKind::To) => Some(State::Note3),
        (State::Note3, TokenKind::Number { .. }) => Some(State::Item),
        (State::Action, TokenKind::Calc) => Some(State::Calc1),
        (State::Action, TokenKind::Send) => Some(State::Send1),
        (State::Action, TokenKind::Recv) => Some(State::Recv1),
        (State::Calc1, TokenKind::Number { .. }) => Some(State::Calc2),
        (State::Calc2, TokenKind::Cpu) => Some(State::Calc3),
        (State::Calc3, TokenKind::Number { .. }) => Some(State::Calc2),
        (State::Send1, TokenKind::Number { .. }) => Some(State::Send2),
        (State::Send1, TokenKind::Size { .. }) => Some(State::Send2),
        (State::Send2, TokenKind::To) => Some(State::Send3),
        (State::Send3, TokenKind::Number { .. }) => Some(State::Send4),
        (State::Send4, TokenKind::Tag) => Some(State::Send5),
        (State::Send4, TokenKind::Cpu) => Some(State::Send5),
        (State::Send4, TokenKind::Nic) => Some(State::Send5),
        (State::Send5, TokenKind::Number { .. }) => Some(State::Send4),
        (State::Recv1, TokenKind::Number { .. }) => Some(State::Recv2),
        (State::Recv1, TokenKind::Size { .. }) => Some(State::Recv2),
        (State::Recv2, TokenKind::From) => Some(State::Recv3),
        (State::Recv3, TokenKind::Number { .. }) => Some(State::Recv4),
        (State::Recv3, TokenKind::Any) => Some(State::Recv4),
        (State::Recv4, TokenKind::Tag) => Some(State::Recv5),
        (State::Recv4, TokenKind::Cpu) => Some(State::Recv6),
        (State::Recv4, TokenKind::Nic) => Some(State::Recv6),
        (State::Recv5, TokenKind::Number { .. }) => Some(State::Recv4),
        (State::Recv5, TokenKind::Any) => Some(State::Recv4),
        (State::Recv6, TokenKind::Number { .. }) => Some(State::Recv4),
        (State::Item | State::Calc2 | State::Send4 | State::Recv4, kind) => item_entry(kind),
        _ => None,
    }
}
