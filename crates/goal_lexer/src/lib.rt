//! The tokens of a schedule text, taken from the text in pieces.
//!
//! A *run* is a longest sequence of letters, digits and `_`. As a token it is a word, a number or a size.
//!
//! A [`Lexer`] takes the text piece by piece, cut at any places. Each call of [`Lexer::next_token`] takes bytes from
//! the front of a piece up to the end of the next token, and [`Lexer::finish`] ends the text. The lexer allocates
//! nothing, and keeps only the bytes of the run that is open: one that the next piece may continue.
//!
//! Functions such as [`word_ahead`] and [`label_ahead`] look at the tokens at the front of a piece and take none;
//! [`Lexer::go_on`] takes what they found by one call.
#![tactic(auto)]

mod ahead;
mod bytes;
mod labels;
mod laws;
mod lexing;
mod mode;
mod numbers;
mod scanning;
mod stretches;
mod tokens;
mod whole;
mod words;

pub use ahead::{
    Amount, begin_alike, begins_with_colon, blanks_ahead, label_ahead, long_number_ahead,
    long_size_ahead, number_ahead, size_ahead, spaced_word_ahead, word_ahead,
};
pub use labels::Label;
pub use laws::{laws_of_lexers, laws_of_tokens};
pub use lexing::Lexer;
pub use tokens::{LexFault, Lexed, Taken, Token, TokenKind};
