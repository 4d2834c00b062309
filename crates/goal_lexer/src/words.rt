//! The token of a run.
ghost use Rattle.std.specs.Prelude.{◌≡◌, ◌<◌, ◌≤◌, length, bytes_eq};
ghost use Rattle.goal_limits.specs.Limits.{run_limit};
ghost use Rattle.goal_lexer.specs.Words.{word_kind, kind_among, reserved_words};
ghost use Rattle.goal_lexer.specs.Reserved.{words_of_length};
ghost use Rattle.goal_lexer.specs.Runs.{run_kind};

use crate::labels::Label;
use crate::mode::Form;
use crate::numbers::number_value;
use crate::tokens::TokenKind;

/// Returns whether the two bytes spell the word.
#[inline(always)]
fn are_two(bytes: &[u8], word: [u8; 2]) -> bool
    requires { length bytes.now ≡ 2 }
    ensures { result ≡ bytes_eq bytes.now word }
{
    bytes[0] == word[0] && bytes[1] == word[1]
}

/// Returns whether the three bytes spell the word.
#[inline(always)]
fn are_three(bytes: &[u8], word: [u8; 3]) -> bool
    requires { length bytes.now ≡ 3 }
    ensures { result ≡ bytes_eq bytes.now word }
{
    bytes[0] == word[0] && bytes[1] == word[1] && bytes[2] == word[2]
}

/// Returns whether the four bytes spell the word.
#[inline(always)]
fn are_four(bytes: &[u8], word: [u8; 4]) -> bool
    requires { length bytes.now ≡ 4 }
    ensures { result ≡ bytes_eq bytes.now word }
{
    bytes[0] == word[0] && bytes[1] == word[1] && bytes[2] == word[2] && bytes[3] == word[3]
}

/// Returns whether the five bytes spell the word.
#[inline(always)]
fn are_five(bytes: &[u8], word: [u8; 5]) -> bool
    requires { length bytes.now ≡ 5 }
    ensures { result ≡ bytes_eq bytes.now word }
{
    are_two(&bytes[..2], [word[0], word[1]]) && are_three(&bytes[2..], [word[2], word[3], word[4]])
}

/// Returns whether the eight bytes spell the word.
#[inline(always)]
fn are_eight(bytes: &[u8], word: [u8; 8]) -> bool
    requires { length bytes.now ≡ 8 }
    ensures { result ≡ bytes_eq bytes.now word }
{
    are_four(&bytes[..4], [word[0], word[1], word[2], word[3]])
        && are_four(&bytes[4..], [word[4], word[5], word[6], word[7]])
}

/// Returns whether the nine bytes spell the word.
#[inline(always)]
fn are_nine(bytes: &[u8], word: [u8; 9]) -> bool
    requires { length bytes.now ≡ 9 }
    ensures { result ≡ bytes_eq bytes.now word }
{
    are_four(&bytes[..4], [word[0], word[1], word[2], word[3]])
        && are_five(&bytes[4..], [word[4], word[5], word[6], word[7], word[8]])
}

/// Writes the kind of a word of two bytes: a reserved word, or otherwise a label.
#[inline(always)]
fn kind_of_two(word: &[u8], kind: &mut TokenKind)
    requires { length word.now ≡ 2 }
    ensures { kind.new ≡ kind_among (words_of_length 2 reserved_words) word.now }
{
    if are_two(word, *b"to") {
        *kind = TokenKind::To;
    } else {
        *kind = TokenKind::Label(Label::of(word));
    }
}

/// Writes the kind of a word of three bytes: a reserved word, or otherwise a label.
#[inline(always)]
fn kind_of_three(word: &[u8], kind: &mut TokenKind)
    requires { length word.now ≡ 3 }
    ensures { kind.new ≡ kind_among (words_of_length 3 reserved_words) word.now }
{
    if are_three(word, *b"tag") {
        *kind = TokenKind::Tag;
    } else if are_three(word, *b"cpu") {
        *kind = TokenKind::Cpu;
    } else if are_three(word, *b"nic") {
        *kind = TokenKind::Nic;
    } else if are_three(word, *b"any") {
        *kind = TokenKind::Any;
    } else {
        *kind = TokenKind::Label(Label::of(word));
    }
}

/// Writes the kind of a word of four bytes: a reserved word, or otherwise a label.
#[inline(always)]
fn kind_of_four(word: &[u8], kind: &mut TokenKind)
    requires { length word.now ≡ 4 }
    ensures { kind.new ≡ kind_among (words_of_length 4 reserved_words) word.now }
{
    if are_four(word, *b"rank") {
        *kind = TokenKind::Rank;
    } else if are_four(word, *b"calc") {
        *kind = TokenKind::Calc;
    } else if are_four(word, *b"send") {
        *kind = TokenKind::Send;
    } else if are_four(word, *b"recv") {
        *kind = TokenKind::Recv;
    } else if are_four(word, *b"from") {
        *kind = TokenKind::From;
    } else if are_four(word, *b"adds") {
        *kind = TokenKind::Adds;
    } else {
        *kind = TokenKind::Label(Label::of(word));
    }
}

/// Writes the kind of a word of five bytes: a reserved word, or otherwise a label.
#[inline(always)]
fn kind_of_five(word: &[u8], kind: &mut TokenKind)
    requires { length word.now ≡ 5 }
    ensures { kind.new ≡ kind_among (words_of_length 5 reserved_words) word.now }
{
    if are_five(word, *b"moves") {
        *kind = TokenKind::Moves;
    } else {
        *kind = TokenKind::Label(Label::of(word));
    }
}

/// Writes the kind of a word of eight bytes: a reserved word, or otherwise a label.
#[inline(always)]
fn kind_of_eight(word: &[u8], kind: &mut TokenKind)
    requires { length word.now ≡ 8 }
    ensures { kind.new ≡ kind_among (words_of_length 8 reserved_words) word.now }
{
    if are_eight(word, *b"requires") {
        *kind = TokenKind::Requires;
    } else {
        *kind = TokenKind::Label(Label::of(word));
    }
}

/// Writes the kind of a word of nine bytes: a reserved word, or otherwise a label.
#[inline(always)]
fn kind_of_nine(word: &[u8], kind: &mut TokenKind)
    requires { length word.now ≡ 9 }
    ensures { kind.new ≡ kind_among (words_of_length 9 reserved_words) word.now }
{
    if are_nine(word, *b"num_ranks") {
        *kind = TokenKind::NumRanks;
    } else if are_nine(word, *b"irequires") {
        *kind = TokenKind::Irequires;
    } else {
        *kind = TokenKind::Label(Label::of(word));
    }
}

/// Writes the kind of the word that these bytes spell: a reserved word, or otherwise a label.
#[inline(always)]
pub(crate) fn word_kind(word: &[u8], kind: &mut TokenKind)
    requires some { 0 < length word.now }
    requires most { length word.now ≤ run_limit }
    ensures { kind.new ≡ word_kind word.now }
{
    match word.len() {
        2 => kind_of_two(word, kind),
        3 => kind_of_three(word, kind),
        4 => kind_of_four(word, kind),
        5 => kind_of_five(word, kind),
        8 => kind_of_eight(word, kind),
        9 => kind_of_nine(word, kind),
        _ => *kind = TokenKind::Label(Label::of(word)),
    }
}

/// Writes the kind of the token that a whole run of this form is.
pub(crate) fn run_kind(run: &[u8], form: Form, kind: &mut TokenKind)
    requires some { 0 < length run.now }
    requires most { length run.now ≤ run_limit }
    ensures { kind.new ≡ run_kind form run.now }
{
    match form {
        Form::Word => word_kind(run, kind),
        Form::Digits => {
            *kind = TokenKind::Number {
                value: number_value(run),
            }
        }
        Form::Sized => {
            *kind = TokenKind::Size {
                value: number_value(&run[..run.len() - 1]),
            }
        }
    }
}
