//! The formulas of the five collectives, as numbers of operations and steps.
ghost use Rattle.std.specs.Prelude.{◌≡◌, ◌<◌, ◌≤◌, true};
ghost use Rattle.goal_limits.specs.MostRanks.{most_ranks, HasRoot};
ghost use Rattle.goal_limits.specs.Makers.{HasRoot-prop, is_made_by_generate};

use crate::steps::{
    allgather_step, allreduce_step, alltoall_step, barrier_step, bcast_count, bcast_step,
};
use goal_blocks::{Collective, Formula, Step, back, digits};

/// A request for the schedule of a collective, for a possible number of ranks.
#[derive(Drop)]
pub struct CollectiveRequest {
    /// The collective.
    pub what: Collective,
    /// The number of ranks.
    pub ranks: u32,
    /// The size of each message, in bytes.
    pub bytes: u64,
    ghost made_here: { is_made_by_generate what ≡ true },
    ghost some_rank: { 0 < ranks },
    ghost few_ranks: { ranks ≤ most_ranks what },
    ghost root: { HasRoot what ranks } by { HasRoot-prop what ranks },
}

impl Formula for CollectiveRequest {
    ghost use Rattle.goal_blocks.specs.Generated.{count_in, entry_in};

    ghost rank_count = { λ f. f.ranks };

    ghost op_count = { λ f r. count_in f.what f.ranks r };

    ghost entry_at = { λ f r i. entry_in f.what f.ranks f.bytes r i };

    fn ranks(&self) -> u32 {
        self.ranks
    }

    fn count(&self, rank: u32) -> u32 {
        let ranks = self.ranks;
        match self.what {
            Collective::Bcast { root } => bcast_count(ranks, back(ranks, rank, root)),
            Collective::Barrier | Collective::Allreduce => 3 * digits(ranks - 1),
            Collective::Allgather => 2 * (ranks - 1),
            Collective::Alltoall => 1 + 2 * (ranks - 1),
            _ => unreachable!(),
        }
    }

    fn step(&self, rank: u32, number: u32) -> Step {
        let (ranks, bytes) = (self.ranks, self.bytes);
        match self.what {
            Collective::Bcast { root } => {
                bcast_step(ranks, root, bytes, back(ranks, rank, root), number)
            }
            Collective::Barrier => barrier_step(ranks, bytes, rank, number),
            Collective::Allgather => allgather_step(ranks, bytes, rank, number),
            Collective::Allreduce => allreduce_step(ranks, bytes, rank, number),
            Collective::Alltoall => alltoall_step(ranks, bytes, rank, number),
            _ => unreachable!(),
        }
    }
}
