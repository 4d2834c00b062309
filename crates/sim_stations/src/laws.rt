//! The laws of stations that switch resources.
ghost use Rattle.sim_stations.specs.Moves.{ChangesAreFew};

/// The number of switches is at most the sum, over all stations, of 1 plus twice the lesser number of holds of the
/// station's two resources.
pub fn laws_of_changes()
    ensures few { ChangesAreFew }
{}
