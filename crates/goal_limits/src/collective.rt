//! The ten collectives, and for how many ranks each has a schedule.
ghost use Rattle.std.specs.Prelude.{◌≡◌, ◌↔◌, IsTrue};
ghost use Rattle.goal_limits.specs.Makers.{is_made_by_generate};
ghost use Rattle.goal_limits.specs.MostRanks.{most_ranks, HasRoot};

/// A collective: what all ranks together do with the values of their slots. `initial` and `wanted` (specs/Collectives
/// of goal_blocks) define what the slots hold at the start, and must hold at the end.
#[derive(Clone, Copy, Debug, PartialEq, Eq)]
pub enum Collective {
    /// Every rank gets the value of the root.
    Bcast { root: u32 },
    /// No rank is done before every rank has begun.
    Barrier,
    /// Every rank gets the value of each rank.
    Allgather,
    /// Every rank gets the values of all ranks, combined.
    Allreduce,
    /// Every rank gets, from each rank, the value that the sender has for the receiver.
    Alltoall,
    /// The root gets the values of all ranks, combined.
    Reduce { root: u32 },
    /// The root gets the value of each rank.
    Gather { root: u32 },
    /// Every rank gets the value that the root has for it.
    Scatter { root: u32 },
    /// Every rank gets the values that all ranks have for it, combined.
    ReduceScatter,
    /// Every rank gets the values of the ranks up to and including itself, combined.
    Scan,
}

impl Collective {
    /// Returns whether it is a broadcast, barrier, allgather, allreduce or alltoall. `generate` of goal_collectives
    /// makes the schedules of these; `generate_rooted` of goal_rooted makes those of the others.
    #[must_use]
    pub fn is_made_by_generate(&self) -> bool
        ensures { result ≡ is_made_by_generate self.now }
    {
        matches!(
            self,
            Collective::Bcast { .. }
                | Collective::Barrier
                | Collective::Allgather
                | Collective::Allreduce
                | Collective::Alltoall
        )
    }

    /// Returns the same as [`Collective::is_made_by_generate`].
    #[must_use]
    pub fn is_first(&self) -> bool
        ensures { result ≡ is_made_by_generate self.now }
    {
        self.is_made_by_generate()
    }

    /// Returns the most ranks for which it has a schedule.
    #[must_use]
    pub fn most_ranks(&self) -> u32
        ensures { result ≡ most_ranks self.now }
    {
        match self {
            Collective::Bcast { .. }
            | Collective::Reduce { .. }
            | Collective::Gather { .. }
            | Collective::Scatter { .. } => 65_536,
            Collective::Barrier | Collective::Allreduce => 16_384,
            Collective::Allgather | Collective::Alltoall => 512,
            Collective::ReduceScatter => 128,
            Collective::Scan => 2_048,
        }
    }

    /// Returns whether its root, if it has one, is one of `ranks` ranks.
    #[must_use]
    pub fn has_root(&self, ranks: u32) -> bool
        ensures { IsTrue result ↔ HasRoot self.now ranks }
    {
        match self {
            Collective::Bcast { root }
            | Collective::Reduce { root }
            | Collective::Gather { root }
            | Collective::Scatter { root } => *root < ranks,
            _ => true,
        }
    }
}
