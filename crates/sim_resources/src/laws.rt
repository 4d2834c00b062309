//! The laws of free times: contracts of a function without a body.
ghost use Rattle.sim_resources.specs.Laws.{FreeTimesAreGreatest, OthersStay, HoldsAddUp};

/// The laws of free times, for every schedule and all holds:
///
/// - `greatest`: a free time is the greatest end of the holds on it; 0 without any.
/// - `others`: a hold of something else does not change a free time.
/// - `so_far`: holds that leave everything free at the same times as all holds so far still do so after one more.
pub fn laws_of_free_times()
    ensures greatest { FreeTimesAreGreatest }
    ensures others { OthersStay }
    ensures so_far { HoldsAddUp }
{}
