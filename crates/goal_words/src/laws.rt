//! The laws of command lines. The function does nothing: a proof cites a law by a call.
ghost use Rattle.std.specs.Prelude.{◌≡◌};
ghost use Rattle.goal_words.specs.Limits.{root_limit};
ghost use Rattle.goal_words.specs.Laws.{OptionsMove, OptionsJoin};

use crate::kinds::MAX_ROOT;

/// The laws of command lines, by which only the order of plain words matters:
///
/// - `options_move`: an option with its value may be swapped with the plain word, or the option with its value, next to
///   it. So options may be anywhere after the first word, and in any order.
/// - `options_join`: an option word and its value may be joined by `=`, and conversely.
/// - `root`: the greatest root is `root_limit` of the definitions.
pub fn laws_of_lines()
    ensures options_move { OptionsMove }
    ensures options_join { OptionsJoin }
    ensures root { MAX_ROOT ≡ root_limit }
{}
