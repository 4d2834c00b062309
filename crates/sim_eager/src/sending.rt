//! A send transfers its data.
ghost use Rattle.std.specs.Prelude.{◌≡◌, ◌+◌, ◌<◌, ◌^◌, max};
ghost use Rattle.goal_graph.specs.Schedule.{IsSend};
ghost use Rattle.sim_params.specs.Costs.{over, gap, flight};
ghost use Rattle.sim_resources.specs.FreeTimes.{SameFreeTimes, cpu_free, tx_free, hold_cpu, hold_tx};
ghost use Rattle.sim_eager.specs.Messages.{IsMessage};

use goal_graph::{OpId, Sched, laws_of_schedules};
use sim_params::Costs;
use sim_resources::Resources;

/// When a send that has begun releases its cpu, and when its data arrive, in nanoseconds.
#[derive(Clone, Copy, Debug, PartialEq, Eq)]
pub struct SendTimes {
    /// When the send releases its cpu.
    pub end: u64,
    /// When its data arrive at the receiver.
    pub arrive: u64,
}

/// Returns when a send that is ready at `ready` may begin: once its cpu and the sending side of its NIC are free. In
/// nanoseconds.
#[tactic(auto, using(goal_graph::proofs::ForCallers::send_is_op))]
pub fn begin_at(res: &Resources, send: OpId, ready: u64) -> u64
    requires { IsSend res.now.plans send }
    ensures { result ≡ max ready (max (cpu_free res.now send) (tx_free res.now send)) }
{
    ready.max(res.cpu(send).max(res.tx(send)))
}

/// Sends `bytes` bytes to the rank `to` at the time `at`, in nanoseconds. Returns when the send releases its cpu and
/// when the bytes arrive. The send holds its cpu for the overhead and the sending side of its NIC for the gap. No other
/// free time changes. An eager send makes one transfer. A rendezvous send makes two: its request to send (RTS), and its
/// data.
#[tactic(auto, using(goal_graph::proofs::ForCallers::send_is_op))]
pub fn transfer<C: Costs>(
    costs: &C,
    res: &mut Resources,
    send: OpId,
    to: u32,
    bytes: u64,
    at: u64,
) -> SendTimes
    requires sends { IsSend res.old.plans send }
    requires size { bytes < 2 ^ 40 }
    requires over_fits { at + (C.model costs.now).over send.rank to bytes < 2 ^ 63 }
    requires gap_fits { at + (C.model costs.now).gap send.rank to bytes < 2 ^ 63 }
    requires flight_fits { at + (C.model costs.now).flight send.rank to bytes < 2 ^ 63 }

    ensures end { result.end ≡ at + (C.model costs.now).over send.rank to bytes }
    ensures arrive { result.arrive ≡ at + (C.model costs.now).flight send.rank to bytes }
    ensures holds { SameFreeTimes res.new
        (hold_tx (hold_cpu res.old send result.end) send (at + (C.model costs.now).gap send.rank to bytes)) }
{
    let spans = costs.spans(send.rank, to, bytes);
    let end = at + spans.over;
    let sent = at + spans.gap;
    let arrive = at + spans.flight;
    res.hold_cpu(send, end);
    res.hold_tx(send, sent);
    SendTimes { end, arrive }
}

/// Begins an eager send at the time `at`, in nanoseconds. Returns when it releases its cpu and when its data arrive.
/// The send holds its cpu for the overhead and the sending side of its NIC for the gap. No other free time changes.
pub fn eager_begin<C: Costs>(
    sched: &Sched,
    costs: &C,
    res: &mut Resources,
    send: OpId,
    at: u64,
) -> SendTimes
    requires same_schedule { res.old.plans ≡ sched.now }
    requires sends { IsSend sched.now send }
    requires over_fits { at + over sched.now (C.model costs.now) send < 2 ^ 63 }
    requires gap_fits { at + gap sched.now (C.model costs.now) send < 2 ^ 63 }
    requires flight_fits { at + flight sched.now (C.model costs.now) send < 2 ^ 63 }

    ensures end { result.end ≡ at + over sched.now (C.model costs.now) send }
    ensures arrive { result.arrive ≡ at + flight sched.now (C.model costs.now) send }
    ensures holds { SameFreeTimes res.new
        (hold_tx (hold_cpu res.old send result.end) send (at + gap sched.now (C.model costs.now) send)) }
{
    let message = sched.message(send);
    eager_begin_message(sched, costs, res, send, message.to, message.bytes, at)
}

/// Does the same as `eager_begin`, for a send of `bytes` bytes to the rank `to`, without looking the message up.
pub fn eager_begin_message<C: Costs>(
    sched: &Sched,
    costs: &C,
    res: &mut Resources,
    send: OpId,
    to: u32,
    bytes: u64,
    at: u64,
) -> SendTimes
    requires same_schedule { res.old.plans ≡ sched.now }
    requires message { IsMessage sched.now send to bytes }
    requires over_fits { at + over sched.now (C.model costs.now) send < 2 ^ 63 }
    requires gap_fits { at + gap sched.now (C.model costs.now) send < 2 ^ 63 }
    requires flight_fits { at + flight sched.now (C.model costs.now) send < 2 ^ 63 }

    ensures end { result.end ≡ at + over sched.now (C.model costs.now) send }
    ensures arrive { result.arrive ≡ at + flight sched.now (C.model costs.now) send }
    ensures holds { SameFreeTimes res.new
        (hold_tx (hold_cpu res.old send result.end) send (at + gap sched.now (C.model costs.now) send)) }
{
    sched.known();
    laws_of_schedules();
    transfer(costs, res, send, to, bytes, at)
}
