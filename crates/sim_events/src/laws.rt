//! The laws of the cost of a run. Their function does nothing: a proof cites a law by a call.
ghost use Rattle.sim_events.specs.Laws.{MovesAreFew, RunsAreCheap};

/// The laws of the cost of a run if on each rank all operations use one cpu, or all messages (sends and receives) one
/// NIC, whatever else they share:
///
/// - `few`: stations switch at most once per operation, plus six times per action that has happened.
/// - `cheap`: so a run of n operations, at most 2^k, compares keys at most n (216k + 388) + 3 times, its start
///   included.
pub fn laws_of_costs()
    ensures few { MovesAreFew }
    ensures cheap { RunsAreCheap }
{}
