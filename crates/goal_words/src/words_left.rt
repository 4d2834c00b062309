//! Words of a line, read from the front.
ghost use Rattle.std.specs.Prelude.{◌≡◌, ◌==◌, ◌≢◌, ◌≤◌, ◌∷◌, true, false, [], Some, length, map, string_bytes, MatchOption, IfSome};
ghost use Rattle.std.specs.Option.{option_map};
ghost use Rattle.std.specs.List.{before_first, after_first, position_or_len};
ghost use Rattle.goal_words.specs.Options.{begins_dash};
ghost use Rattle.goal_words.specs.Reading.{parts_in, left, with_plain, with_value, none_given, begins_plain, listed, are_one_to_three};

use crate::options::{AllowedOptions, NONE_GIVEN, OptionKey, OptionValues, value_of};

/// What is left of a line: the options that it allows, those given so far, and the remaining words. The first of these
/// is not the value of an option.
#[derive(Clone, Copy)]
pub struct WordsLeft<'a> {
    taken: AllowedOptions,
    given: OptionValues,
    words: &'a [String],
}

/// One to three plain words.
#[derive(Clone, Copy)]
pub enum PlainWords<'a> {
    /// One word.
    One(&'a str),
    /// Two words.
    Two(&'a str, &'a str),
    /// Three words.
    Three(&'a str, &'a str, &'a str),
}

// The text before and after the first `=` of a word, if it has one.
fn around_equals(word: &str) -> Option<(&str, &str)>
    ensures { MatchOption result (position_or_len (λ b. b == 61) word.now ≡ length word.now)
        (λ halves. (halves.0.now ≡ before_first (λ b. b == 61) word.now) × (halves.1.now ≡ after_first (λ b. b == 61) word.now)) }
{
    word.split_once('=')
}

impl<'a> WordsLeft<'a> {
    /// Starts with the words after the first, of a line that allows these options.
    pub fn new(taken: AllowedOptions, words: &'a [String]) -> WordsLeft<'a>
        ensures { left result ≡ parts_in taken none_given (map string_bytes words.now) }
    {
        WordsLeft {
            taken,
            given: NONE_GIVEN,
            words,
        }
    }

    // The same with an option set to the number of this word, and with these words left. `None` if the word is no such
    // number, or the option was already given.
    fn with(self, key: OptionKey, value: &str, words: &'a [String]) -> Option<WordsLeft<'a>>
        ensures { MatchOption result (with_value self.entry.given key value.now ≡ None)
            (λ rest. (with_value self.entry.given key value.now ≡ Some rest.given) × (rest.taken ≡ self.entry.taken) × (rest.words.now ≡ words.now)) }
    {
        let given = self.given.with(key, value_of(value)?)?;
        Some(WordsLeft {
            taken: self.taken,
            given,
            words,
        })
    }

    // Takes the option that a word begins; other words follow it.
    fn past_option(self, word: &str, others: &'a [String]) -> Option<WordsLeft<'a>>
        requires { begins_dash word.now ≡ true }
        ensures left { MatchOption result (parts_in self.entry.taken self.entry.given (word.now ∷ map string_bytes others.now) ≡ None)
            (λ rest. parts_in self.entry.taken self.entry.given (word.now ∷ map string_bytes others.now) ≡ left rest) }
        ensures fewer { IfSome result (λ rest. length rest.words.now ≤ length others.now) }
    {
        match self.taken.key_of(word) {
            Some(key) => {
                let (value, later) = others.split_first()?;
                self.with(key, value.as_str(), later)
            }
            None => {
                let (option, value) = around_equals(word)?;
                self.with(self.taken.key_of(option)?, value, others)
            }
        }
    }

    // Takes the options before the next plain word.
    fn past_options(self) -> Option<WordsLeft<'a>>
        ensures left { MatchOption result (left self.entry ≡ None) (λ rest. left self.entry ≡ left rest) }
        ensures plain { IfSome result (λ rest. begins_plain (map string_bytes rest.words.now) ≡ true) }
    {
        let mut rest = self;
        'options: while let Some((word, others)) = rest.words.split_first() {
            if !word.as_str().starts_with('-') {
                break;
            }
            rest = rest.past_option(word.as_str(), others)?;
        }
        Some(rest)
    }

    // Returns the next plain word, and what is left after it, or `None` if there is no such word or the line is wrong.
    fn next(self) -> Option<(&'a str, WordsLeft<'a>)>
        ensures { MatchOption result (IfSome (left self.entry) (λ parts. parts.plain ≡ []))
            (λ found. left self.entry ≡ option_map (with_plain found.0.now) (left found.1)) }
    {
        let rest = self.past_options()?;
        let (word, words) = rest.words.split_first()?;
        let rest = WordsLeft {
            taken: rest.taken,
            given: rest.given,
            words,
        };
        Some((word.as_str(), rest))
    }

    // Returns the options of a line without further plain words, or `None` if it has one or is wrong.
    fn end(self) -> Option<OptionValues>
        ensures { MatchOption result (IfSome (left self.entry) (λ parts. parts.plain ≢ []))
            (λ given. left self.entry ≡ Some (record { plain = []; given = given })) }
    {
        let rest = self.past_options()?;
        if rest.words.is_empty() {
            Some(rest.given)
        } else {
            None
        }
    }

    /// Returns the plain words and the options, or `None` if there are not one to three plain words or the line is
    /// wrong.
    pub fn parts(self) -> Option<(PlainWords<'a>, OptionValues)>
        ensures { MatchOption result (IfSome (left self.entry) (λ parts. are_one_to_three parts.plain ≡ false))
            (λ parts. left self.entry ≡ Some (record { plain = listed parts.0; given = parts.1 })) }
    {
        let (first, rest) = self.next()?;
        if let Some(given) = rest.end() {
            return Some((PlainWords::One(first), given));
        }
        let (second, rest) = rest.next()?;
        if let Some(given) = rest.end() {
            return Some((PlainWords::Two(first, second), given));
        }
        let (third, rest) = rest.next()?;
        let given = rest.end()?;
        Some((PlainWords::Three(first, second, third), given))
    }
}
