//! Runs of a schedule on other ranks.
#![tactic(auto)]

ghost use Rattle.sim_placed.specs.PlacedRuns.{TimesAreAlike, RunsAreAlike, ApartRunsAreAlike, LogGopsIsAlike};

use sim_params::laws_of_runs;

/// The laws of runs on other ranks, with costs that are renamed in the same way. The function does nothing: a proof
/// cites a law by a call.
///
/// - `times_are_alike`: for every history, each time of a renamed operation after the renamed actions is that of the
///   operation after the actions.
/// - `runs_are_alike`: a history is a complete run in which ties are broken by the renamed ranks, if and only if the
///   renamed history is a complete run on the renamed ranks. Wildcards are allowed.
/// - `apart_runs_are_alike`: if a send fits at most one receive and a receive at most one send, and messages to other
///   ranks and clears to send take some time, each operation starts and ends at the same times on the renamed ranks as
///   on the ranks.
/// - `log_gops_is_alike`: the costs of LogGOPS are the same for all ranks.
pub fn laws_of_placed_runs()
    ensures times_are_alike { TimesAreAlike }
    ensures runs_are_alike { RunsAreAlike }
    ensures apart_runs_are_alike { ApartRunsAreAlike }
    ensures log_gops_is_alike { LogGopsIsAlike }
{
    laws_of_runs();
}
