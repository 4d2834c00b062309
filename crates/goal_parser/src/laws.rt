//! The laws of texts and readers. Their functions do nothing: a proof cites a law by a call.
ghost use Rattle.goal_parser.specs.Laws.{KeepLimits, SayPlans, ReadAsWritten, HaveOneReading, ReadPassesSoFar};

/// The laws of texts:
///
/// - `keep_limits`: the plans of a text have counts and values within their limits;
/// - `say_plans`: a text with plans consists of sentences that obey the rules of ranks, labels and options: at most one
///   block per rank, of actions, dependencies and notes. Operation number i of a rank is that of action number i of its
///   block, and so for dependencies and notes;
/// - `read_as_written`: conversely, sentences within these rules and the limits, however they are written, are read as
///   their plans;
/// - `one_reading`: no other sentences have the same tokens.
pub fn laws_of_texts()
    ensures keep_limits { KeepLimits }
    ensures say_plans { SayPlans }
    ensures read_as_written { ReadAsWritten }
    ensures one_reading { HaveOneReading }
{}

/// The law of readers in pieces, which says what is known after `feed` returned Ok:
///
/// - `passes_so_far`: no token that ends before the last byte of the text so far fails a test, and no brace or colon
///   does. Only a run that the next piece may continue is not tested. If the text ended here and had a lexical fault,
///   it would be at a `/` as the last byte, or at an unclosed block comment.
pub fn laws_of_readers()
    ensures passes_so_far { ReadPassesSoFar }
{}
