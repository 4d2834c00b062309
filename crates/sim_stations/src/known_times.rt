//! When resources are free, for proofs only.
ghost use Rattle.std.specs.Prelude.{◌≡◌, ℕ, List, replicate};
ghost use Rattle.std.specs.Borrow.{ftrue};
ghost use Rattle.sim_stations.specs.Stations.{held_by};

use sim_resources::Pair;
use std::marker::Model;

/// When each resource is free, in nanoseconds, as far as a queue knows. Only contracts and proofs see it, as `times`:
/// at run time it takes no memory, and its calls do nothing.
#[derive(Drop)]
pub struct KnownTimes {
    pub ghost times: { List ℕ },
}

impl Model for KnownTimes {
    ghost also_owns = { λ _. ftrue };
}

impl KnownTimes {
    /// Returns the times of `resources` resources that are all free at 0.
    #[inline(always)]
    pub fn new(resources: u32) -> KnownTimes
        ensures { result.times ≡ replicate resources 0 }
    {
        KnownTimes {}
    }

    /// Returns the same times, except that the resources of a pair are free as `times` says.
    #[inline(always)]
    pub fn with(&self, pair: Pair, times: &[u64]) -> KnownTimes
        ensures { result.times ≡ held_by self.now.times pair times.now }
    {
        KnownTimes {}
    }
}
