//! The laws of certified schedules that are run or printed. The function does nothing: a proof cites a law by a call.
ghost use Rattle.goal_cli.specs.CertifiedRuns.{CertifiedRunsAreRight, GeneratedAreCertified};

/// What certification says about simulated runs, and about the schedules that `gen` prints:
///
/// - `certified_runs_are_right`: the complete run of a certified schedule ends, with any costs and so with any sends
///   eager. It pairs each send with the receive of its channel and with no other, and leaves in each slot what the
///   collective wants. The run that `sim` prints is the complete run (`headline` of `goal`), and so is that of
///   `Engine::run`.
/// - `generated_are_certified`: `gen` prints the text of a schedule that is right in every interleaving, and certified
///   for the numbers of ranks for which that is proved. Reading the text gives that schedule back.
pub fn laws_of_certified_runs()
    ensures certified_runs_are_right { CertifiedRunsAreRight }
    ensures generated_are_certified { GeneratedAreCertified }
{}
