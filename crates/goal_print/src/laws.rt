//! The law of canonical texts. Its function does nothing: a proof cites the law by a call.
ghost use Rattle.goal_print.specs.Laws.{ReadBack};

/// Reading the canonical text of a schedule gives the schedule back (`read_back`).
pub fn laws_of_canonical_texts()
    ensures read_back { ReadBack }
{}
