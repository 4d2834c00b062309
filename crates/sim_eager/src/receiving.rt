//! A receive takes its message.
ghost use Rattle.std.specs.Prelude.{◌≡◌, ◌+◌, ◌<◌, ◌^◌, max};
ghost use Rattle.goal_graph.specs.Schedule.{IsReceive, IsSend};
ghost use Rattle.sim_params.specs.Costs.{over, gap};
ghost use Rattle.sim_resources.specs.FreeTimes.{SameFreeTimes, cpu_free, rx_free, hold_cpu, hold_rx};
ghost use Rattle.sim_eager.specs.Messages.{IsMessage};

use goal_graph::{OpId, Sched, laws_of_schedules};
use sim_params::Costs;
use sim_resources::Resources;

/// Returns when a receive may take a message that is available from `from` on: once its cpu and the receiving side of
/// its NIC are free. In nanoseconds.
#[tactic(auto, using(goal_graph::proofs::ForCallers::receive_is_op))]
pub fn serve_at(res: &Resources, recv: OpId, from: u64) -> u64
    requires { IsReceive res.now.plans recv }
    ensures { result ≡ max from (max (cpu_free res.now recv) (rx_free res.now recv)) }
{
    from.max(res.cpu(recv).max(res.rx(recv)))
}

/// The receive takes the message of the send at the time `at`, in nanoseconds. Returns when the receive ends, in
/// nanoseconds. The receive holds its cpu until it ends and the receiving side of its NIC for the gap of the message.
/// No other free time changes.
pub fn serve<C: Costs>(
    sched: &Sched,
    costs: &C,
    res: &mut Resources,
    recv: OpId,
    send: OpId,
    at: u64,
) -> u64
    requires same_schedule { res.old.plans ≡ sched.now }
    requires receives { IsReceive sched.now recv }
    requires sends { IsSend sched.now send }
    requires over_fits { at + over sched.now (C.model costs.now) send < 2 ^ 63 }
    requires gap_fits { at + gap sched.now (C.model costs.now) send < 2 ^ 63 }

    ensures end { result ≡ at + over sched.now (C.model costs.now) send }
    ensures holds { SameFreeTimes res.new
        (hold_rx (hold_cpu res.old recv result) recv (at + gap sched.now (C.model costs.now) send)) }
{
    let message = sched.message(send);
    serve_message(sched, costs, res, recv, send, message.to, message.bytes, at)
}

/// Does the same as `serve`, for a send of `bytes` bytes to the rank `to`, without looking the message up.
#[tactic(auto, using(goal_graph::proofs::ForCallers::receive_is_op))]
pub fn serve_message<C: Costs>(
    sched: &Sched,
    costs: &C,
    res: &mut Resources,
    recv: OpId,
    send: OpId,
    to: u32,
    bytes: u64,
    at: u64,
) -> u64
    requires same_schedule { res.old.plans ≡ sched.now }
    requires receives { IsReceive sched.now recv }
    requires message { IsMessage sched.now send to bytes }
    requires over_fits { at + over sched.now (C.model costs.now) send < 2 ^ 63 }
    requires gap_fits { at + gap sched.now (C.model costs.now) send < 2 ^ 63 }

    ensures end { result ≡ at + over sched.now (C.model costs.now) send }
    ensures holds { SameFreeTimes res.new
        (hold_rx (hold_cpu res.old recv result) recv (at + gap sched.now (C.model costs.now) send)) }
{
    sched.known();
    laws_of_schedules();
    let spans = costs.spans(send.rank, to, bytes);
    let end = at + spans.over;
    let received = at + spans.gap;
    res.hold_cpu(recv, end);
    res.hold_rx(recv, received);
    end
}
