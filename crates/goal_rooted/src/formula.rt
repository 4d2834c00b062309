//! The formulas of the five collectives, as numbers of operations and steps.
ghost use Rattle.std.specs.Prelude.{◌≡◌, ◌<◌, ◌≤◌, false};
ghost use Rattle.goal_limits.specs.MostRanks.{most_ranks, HasRoot};
ghost use Rattle.goal_limits.specs.Makers.{HasRoot-prop, is_made_by_generate};

use crate::steps::{
    gather_step, reduce_scatter_step, reduce_step, scan_count, scan_step, scatter_step,
};
use crate::tree::{children, upward};
use goal_blocks::{Collective, Formula, Step, back};

/// A request for the schedule of a collective, for a possible number of ranks.
#[derive(Drop)]
pub struct RootedRequest {
    /// The collective.
    pub what: Collective,
    /// The number of ranks.
    pub ranks: u32,
    /// The size of each message, in bytes.
    pub bytes: u64,
    ghost made_here: { is_made_by_generate what ≡ false },
    ghost some_rank: { 0 < ranks },
    ghost few_ranks: { ranks ≤ most_ranks what },
    ghost root: { HasRoot what ranks } by { HasRoot-prop what ranks },
}

impl Formula for RootedRequest {
    ghost use Rattle.goal_blocks.specs.Generated.{count_in, entry_in};

    ghost rank_count = { λ f. f.ranks };

    ghost op_count = { λ f r. count_in f.what f.ranks r };

    ghost entry_at = { λ f r i. entry_in f.what f.ranks f.bytes r i };

    fn ranks(&self) -> u32 {
        self.ranks
    }

    fn count(&self, rank: u32) -> u32 {
        let ranks = self.ranks;
        match self.what {
            Collective::Reduce { root } => {
                let place = back(ranks, rank, root);
                2 * children(ranks, place) + upward(place)
            }
            Collective::Gather { root } => {
                let place = back(ranks, rank, root);
                children(ranks, place) + upward(place)
            }
            Collective::Scatter { root } => {
                let place = back(ranks, rank, root);
                upward(place) + children(ranks, place)
            }
            Collective::ReduceScatter => 3 * (ranks - 1),
            Collective::Scan => scan_count(ranks, rank),
            _ => unreachable!(),
        }
    }

    fn step(&self, rank: u32, number: u32) -> Step {
        let (ranks, bytes) = (self.ranks, self.bytes);
        match self.what {
            Collective::Reduce { root } => {
                reduce_step(ranks, root, bytes, back(ranks, rank, root), number)
            }
            Collective::Gather { root } => {
                gather_step(ranks, root, bytes, back(ranks, rank, root), number)
            }
            Collective::Scatter { root } => {
                scatter_step(ranks, root, bytes, back(ranks, rank, root), number)
            }
            Collective::ReduceScatter => reduce_scatter_step(ranks, bytes, rank, number),
            Collective::Scan => scan_step(bytes, rank, number),
            _ => unreachable!(),
        }
    }
}
