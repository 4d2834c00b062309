//! The line of each rank.
ghost use Rattle.std.specs.Prelude.{◌≡◌, ◌+◌, ◌-◌, ◌++◌, ◌<◌, ◌≤◌, ◌^◌, length, OnOk, is_some, unwrap_or, count_by, sum_by, if◌then◌else◌};
ghost use Rattle.goal_graph.specs.Schedule.{operations};
ghost use Rattle.sim_waits.specs.Waits.{ended, wait_or_zero};
ghost use Rattle.sim_waits.specs.WaitsText.{line_of_rank, rank_line, rank_lines};
ghost use Rattle.sim_waits.specs.WaitKeys.{places_at};

use crate::wait::wait;
use goal_base::TextOut;
use goal_graph::OpId;
use goal_limits::NoMemory;
use sim_events::{Engine, History};
use sim_params::Costs;

/// Appends the line of each rank, in order. `Err` means out of memory.
pub fn put_ranks<C: Costs, H: History>(
    out: &mut TextOut,
    engine: &Engine<'_, C, H>,
) -> Result<(), NoMemory>
    ensures { OnOk result (out.new ≡ out.old ++ rank_lines engine.now.plans (C.model engine.now.costs)
        engine.now.history 0 engine.now.plans) }
{
    let ranks = engine.sched().plans().len() as u32;
    for rank in 0..ranks {
        put_rank(out, rank, rank_waits(engine, rank))?;
    }
    Ok(())
}

// The contents of the line of a rank: how many of its operations have ended, and the sum of their waits in nanoseconds.
#[derive(Clone, Copy)]
struct RankWaits {
    ended: u32,
    total: u128,
}

impl RankWaits {
    // The same with one more operation; `wait` is how long it waited, if it has ended.
    fn with(self, wait: Option<u64>) -> RankWaits
        requires count_fits { self.ended < 2 ^ 32 - 1 }
        requires total_fits { self.total < 2 ^ 127 }
        ensures ended { result.ended ≡ self.ended + (if is_some wait then 1 else 0) }
        ensures total { result.total ≡ self.total + unwrap_or wait 0 }
        ensures small { result.total ≤ self.total + 2 ^ 64 }
    {
        match wait {
            Some(nanos) => RankWaits {
                ended: self.ended + 1,
                total: self.total + u128::from(nanos),
            },
            None => self,
        }
    }
}

// Returns the contents of the line of a rank.
fn rank_waits<C: Costs, H: History>(engine: &Engine<'_, C, H>, rank: u32) -> RankWaits
    requires { rank < length engine.now.plans }
    ensures ended { result.ended ≡ count_by (ended engine.now.plans (C.model engine.now.costs) engine.now.history)
        (places_at engine.now.plans rank) }
    ensures total { result.total ≡ sum_by (wait_or_zero engine.now.plans (C.model engine.now.costs) engine.now.history)
        (places_at engine.now.plans rank) }
{
    let mut waits = RankWaits { ended: 0, total: 0 };
    for op in 0..engine.sched().op_count(rank) {
        waits = waits.with(wait(engine, OpId { rank, op }));
    }
    waits
}

// Appends the line of a rank.
fn put_rank(out: &mut TextOut, rank: u32, waits: RankWaits) -> Result<(), NoMemory>
    ensures { OnOk result (out.new ≡ out.old ++ rank_line rank waits.ended waits.total) }
{
    out.word("rank ")?;
    out.number(u128::from(rank))?;
    out.word(" ended ")?;
    out.number(u128::from(waits.ended))?;
    out.word(" wait ")?;
    out.number(waits.total)?;
    out.word("\n")
}
