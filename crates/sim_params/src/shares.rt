//! The time budget: an upper bound on all times of a run, known before the run.
ghost use Rattle.std.specs.Prelude.{◌≡◌, ◌<◌, ◌^◌};
ghost use Rattle.goal_graph.specs.Fault.{IsOp};
ghost use Rattle.sim_params.specs.Budget.{budget, share, message_share, request_share};

use crate::Costs;
use goal_graph::{Kind, OpId, Sched};

/// Returns the time budget of a run, in nanoseconds: the sum of the most that each operation may add to the times. It
/// is below 2^87.
pub fn budget<C: Costs>(sched: &Sched, costs: &C) -> u128
    ensures { result ≡ budget sched.now (C.model costs.now) }
{
    let _count = sched.count();
    sched.known();
    let mut sum = 0;
    for id in sched.operations() {
        sum += share(sched, costs, *id);
    }
    sum
}

// Returns the most that an operation may add to the times.
fn share<C: Costs>(sched: &Sched, costs: &C, id: OpId) -> u128
    requires { IsOp sched.now id }
    ensures { result ≡ share sched.now (C.model costs.now) id }
{
    let from = id.rank;
    match sched.op(id).kind {
        Kind::Calc { nanos } => u128::from(nanos),
        Kind::Send { bytes, to, .. } => {
            let message = u128::from(message_share(costs, from, to, bytes));
            if costs.eager(from, to, bytes) {
                message
            } else {
                message + u128::from(request_share(costs, from, to))
            }
        }
        Kind::Recv { .. } => 0,
    }
}

// Returns the most that a message may add to the times.
fn message_share<C: Costs>(costs: &C, from: u32, to: u32, bytes: u64) -> u64
    requires { bytes < 2 ^ 40 }
    ensures { result ≡ message_share (C.model costs.now) from to bytes }
{
    let spans = costs.spans(from, to, bytes);
    2 * (spans.over + spans.gap) + spans.flight
}

// Returns the most that the handshake of a rendezvous message may add.
fn request_share<C: Costs>(costs: &C, from: u32, to: u32) -> u64
    ensures { result ≡ request_share (C.model costs.now) from to }
{
    let spans = costs.spans(from, to, 1);
    spans.over + spans.gap + spans.flight + costs.latency(from, to)
}
