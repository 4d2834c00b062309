//! The blocks of a canonical text, page by page.
ghost use Rattle.std.specs.Prelude.{◌≡◌, ◌++◌, [], IfOk, OnErr};
ghost use Rattle.goal_print.specs.Canonical.{blocks};

use crate::print::put_rank;
use goal_base::TextOut;
use goal_graph::Sched;
use goal_limits::NoMemory;
use std::alloc::Global;
use std::marker::Model;

// A page ends with the first rank that brings it to this many operations.
const PAGE: usize = 1024;

// Usually at least the bytes of an operation's lines, with its dependencies and notes.
const ROOM: usize = 112;

/// The blocks of a schedule's canonical text that are not yet printed, by rank. Contracts see their text.
#[derive(Drop)]
pub struct Blocks<'a> {
    sched: &'a Sched,
    // the number of ranks whose blocks are printed
    done: usize,
}

impl<'a> Model for Blocks<'a> {
    ghost use Rattle.std.specs.Prelude.{ℕ, List};
    ghost use Rattle.goal_print.specs.Pages.{blocks_from};

    ghost Value = { List ℕ };

    ghost view = { λ b. blocks_from b.sched.now b.done };
}

impl<'a> Blocks<'a> {
    /// Starts with the blocks of all ranks.
    pub fn new(sched: &'a Sched) -> Blocks<'a>
        ensures { result ≡ blocks 0 sched.now }
    {
        Blocks { sched, done: 0 }
    }

    /// Returns the next page of blocks. It is empty only after the last block.
    ///
    /// # Errors
    ///
    /// Only `NoMemory`. The blocks of that page remain to be printed.
    pub fn next_page(&mut self, alloc: Global) -> Result<Vec<u8>, NoMemory>
        ensures page { IfOk result (λ page. self.old ≡ page.items ++ self.new) }
        ensures end { IfOk result (λ page. page.items ≡ [] → self.old ≡ []) }
        ensures same { OnErr result (self.new ≡ self.old) }
    {
        let plans = self.sched.plans();
        let mut out = TextOut::with_room(alloc, (self.sched.count() as usize).min(PAGE) * ROOM)?;
        let mut rank = self.done;
        let mut operations: usize = 0;
        while rank < plans.len() && operations < PAGE {
            let plan = &plans[rank];
            put_rank(&mut out, rank as u64, plan)?;
            operations = operations.saturating_add(plan.ops.len());
            rank += 1;
        }
        self.done = rank;
        Ok(out.into_bytes())
    }
}
