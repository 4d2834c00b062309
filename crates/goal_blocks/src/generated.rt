//! The laws of schedules that are given by entries. The function does nothing: a proof cites a law by a call.
ghost use Rattle.goal_blocks.specs.Fitting.{FittingIsAccepted};
ghost use Rattle.goal_blocks.specs.Laws.{MadeIsAccepted, MadeIsCertified, OnlyTheseAreCertified, MadeIsRight};
ghost use Rattle.goal_blocks.specs.Messages.{BcastIsPaired, AllgatherIsPaired, ScanIsPaired};

/// The laws of schedules that are given by an entry for each rank and number:
///
/// - `fitting_is_accepted`: a schedule is accepted if its entries name existing ranks, need only operations of lower
///   numbers, have notes that fit, and are not too many. So no operation waits for itself.
/// - `made_is_accepted`: the schedule of each of the ten collectives is accepted, for all ranks, roots and sizes within
///   the limits.
/// - `bcast_is_paired`, `allgather_is_paired`, `scan_is_paired`: in a broadcast, an allgather and a scan each send has
///   exactly one receive of its channel, and each receive exactly one send.
/// - `made_is_certified`: the schedules of the ten collectives are certified without a check, for all ranks, roots and
///   sizes within the limits; those of the barrier and allreduce for up to 2,048 ranks.
/// - `only_these_are_certified`: those of the barrier and allreduce for more than 2,048 ranks are not certified, since
///   too many contributions are held at the end of the walk.
/// - `made_is_right`: the schedules of all ten are right everywhere, for all ranks, roots and sizes within the limits,
///   including the barrier and allreduce for more than 2,048 ranks.
pub fn laws_of_made_schedules()
    ensures fitting_is_accepted { FittingIsAccepted }
    ensures made_is_accepted { MadeIsAccepted }
    ensures bcast_is_paired { BcastIsPaired }
    ensures allgather_is_paired { AllgatherIsPaired }
    ensures scan_is_paired { ScanIsPaired }
    ensures made_is_certified { MadeIsCertified }
    ensures only_these_are_certified { OnlyTheseAreCertified }
    ensures made_is_right { MadeIsRight }
{}
