//! The laws of knots. The function does nothing: a proof cites a law by a call.
ghost use Rattle.sim_cycles.specs.Laws.{OneKnotEach, BehindAddUp, RingsAreClosed, LoneAreAlone, NoneLeftOut};

/// The laws of the knots of stuck operations:
///
/// - `one_knot_each`: each stuck operation leads into exactly one knot.
/// - `behind_add_up`: the numbers `behind` add up to the number of stuck operations.
/// - `rings_are_closed`: each member of a cycle waits for the next one, and the last one for the first.
/// - `lone_are_alone`: a knot that is not a cycle is one operation, which is alone.
/// - `none_left_out`: an operation that waits for itself, directly or not, is a member of a knot.
pub fn laws_of_knots()
    ensures one_knot_each { OneKnotEach }
    ensures behind_add_up { BehindAddUp }
    ensures rings_are_closed { RingsAreClosed }
    ensures lone_are_alone { LoneAreAlone }
    ensures none_left_out { NoneLeftOut }
{}
