//! The laws of reports. Their function does nothing: a proof cites a law by a call.
ghost use Rattle.sim_waits.specs.Laws.{OneReport, ReadyIsNotLater, WaitIsExact};

use sim_params::laws_of_runs;

/// The laws of reports, for every schedule and all costs.
///
/// - `one_report`: the actions that have happened, with their times, determine the report.
/// - `ready_is_not_later`: in a run, the ready time of an operation that has ended is not after the time of its last
///   action.
/// - `wait_is_exact`: so its wait is the difference of the two.
pub fn laws_of_waits()
    ensures one_report { OneReport }
    ensures ready_is_not_later { ReadyIsNotLater }
    ensures wait_is_exact { WaitIsExact }
{
    laws_of_runs();
}
