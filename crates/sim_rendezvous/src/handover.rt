//! A rendezvous send transfers its data.
ghost use Rattle.std.specs.Prelude.{◌≡◌, ◌+◌, ◌<◌, ◌^◌, max};
ghost use Rattle.goal_graph.specs.Schedule.{IsSend};
ghost use Rattle.sim_params.specs.Costs.{over, gap, flight};
ghost use Rattle.sim_resources.specs.FreeTimes.{SameFreeTimes, cpu_free, tx_free, hold_cpu, hold_tx};
ghost use Rattle.sim_eager.specs.Messages.{IsMessage};

use goal_graph::{OpId, Sched, laws_of_schedules};
use sim_eager::{begin_at, transfer};
use sim_params::Costs;
use sim_resources::Resources;

/// Returns when a rendezvous send may transfer its data: once its clear to send (CTS) is back, at `cleared`, and its
/// cpu and the sending side of its NIC are free. In nanoseconds.
pub fn data_at(res: &Resources, send: OpId, cleared: u64) -> u64
    requires { IsSend res.now.plans send }
    ensures { result ≡ max cleared (max (cpu_free res.now send) (tx_free res.now send)) }
{
    begin_at(res, send, cleared)
}

/// When a rendezvous send that has transferred its data ends, and when its receive can take them, in nanoseconds.
#[derive(Clone, Copy, Debug, PartialEq, Eq)]
pub struct Sent {
    /// When the send ends and releases its cpu.
    pub end: u64,
    /// When its receive can take the data.
    pub available: u64,
}

/// Transfers the data of a rendezvous send at the time `at`, in nanoseconds. Returns when the send ends and when its
/// receive can take the data. The send holds its cpu for the overhead and the sending side of its NIC for the gap. No
/// other free time changes.
pub fn data<C: Costs>(sched: &Sched, costs: &C, res: &mut Resources, send: OpId, at: u64) -> Sent
    requires same_schedule { res.old.plans ≡ sched.now }
    requires sends { IsSend sched.now send }
    requires over_fits { at + over sched.now (C.model costs.now) send < 2 ^ 63 }
    requires gap_fits { at + gap sched.now (C.model costs.now) send < 2 ^ 63 }
    requires flight_fits { at + flight sched.now (C.model costs.now) send < 2 ^ 63 }

    ensures end { result.end ≡ at + over sched.now (C.model costs.now) send }
    ensures available { result.available ≡ at + flight sched.now (C.model costs.now) send }
    ensures holds { SameFreeTimes res.new
        (hold_tx (hold_cpu res.old send result.end) send (at + gap sched.now (C.model costs.now) send)) }
{
    let message = sched.message(send);
    data_message(sched, costs, res, send, message.to, message.bytes, at)
}

/// Does the same as `data`, for a send of `bytes` bytes to the rank `to`, without looking the message up.
pub fn data_message<C: Costs>(
    sched: &Sched,
    costs: &C,
    res: &mut Resources,
    send: OpId,
    to: u32,
    bytes: u64,
    at: u64,
) -> Sent
    requires same_schedule { res.old.plans ≡ sched.now }
    requires message { IsMessage sched.now send to bytes }
    requires over_fits { at + over sched.now (C.model costs.now) send < 2 ^ 63 }
    requires gap_fits { at + gap sched.now (C.model costs.now) send < 2 ^ 63 }
    requires flight_fits { at + flight sched.now (C.model costs.now) send < 2 ^ 63 }

    ensures end { result.end ≡ at + over sched.now (C.model costs.now) send }
    ensures available { result.available ≡ at + flight sched.now (C.model costs.now) send }
    ensures holds { SameFreeTimes res.new
        (hold_tx (hold_cpu res.old send result.end) send (at + gap sched.now (C.model costs.now) send)) }
{
    sched.known();
    laws_of_schedules();
    let begun = transfer(costs, res, send, to, bytes, at);
    Sent {
        end: begun.end,
        available: begun.arrive,
    }
}
