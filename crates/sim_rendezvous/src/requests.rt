//! The request to send (RTS) of a rendezvous send, and its clear to send (CTS).
ghost use Rattle.std.specs.Prelude.{◌≡◌, ℕ, ◌+◌, ◌<◌, ◌^◌};
ghost use Rattle.goal_graph.specs.Schedule.{IsSend};
ghost use Rattle.sim_params.specs.Costs.{over_one, gap_one, flight_one, latency};
ghost use Rattle.sim_resources.specs.FreeTimes.{SameFreeTimes, hold_cpu, hold_tx};
ghost use Rattle.sim_eager.specs.Messages.{IsMessage};

use goal_graph::{OpId, Sched};
use sim_eager::transfer;
use sim_params::Costs;
use sim_resources::Resources;

/// The size of a request to send, in bytes.
const REQUEST: u64 = 1;

/// Begins a rendezvous send at the time `at`. Returns when its request to send arrives. Both are in nanoseconds. The
/// request, of one byte, holds the cpu of the send for the overhead and the sending side of its NIC for the gap. No
/// other free time changes.
pub fn request<C: Costs>(sched: &Sched, costs: &C, res: &mut Resources, send: OpId, at: u64) -> u64
    requires same_schedule { res.old.plans ≡ sched.now }
    requires sends { IsSend sched.now send }
    requires over_fits { at + over_one sched.now (C.model costs.now) send < 2 ^ 63 }
    requires gap_fits { at + gap_one sched.now (C.model costs.now) send < 2 ^ 63 }
    requires flight_fits { at + flight_one sched.now (C.model costs.now) send < 2 ^ 63 }

    ensures arrive { result ≡ at + flight_one sched.now (C.model costs.now) send }
    ensures holds { SameFreeTimes res.new
        (hold_tx (hold_cpu res.old send (at + over_one sched.now (C.model costs.now) send)) send (at + gap_one sched.now (C.model costs.now) send)) }
{
    let message = sched.message(send);
    request_to(sched, costs, res, send, message.to, at)
}

/// Does the same as `request`, for a send to the rank `to`, without looking the message up.
pub fn request_to<C: Costs>(
    sched: &Sched,
    costs: &C,
    res: &mut Resources,
    send: OpId,
    to: u32,
    at: u64,
) -> u64
    requires same_schedule { res.old.plans ≡ sched.now }
    requires goes_to { (bytes : ℕ) × IsMessage sched.now send to bytes }
    requires over_fits { at + over_one sched.now (C.model costs.now) send < 2 ^ 63 }
    requires gap_fits { at + gap_one sched.now (C.model costs.now) send < 2 ^ 63 }
    requires flight_fits { at + flight_one sched.now (C.model costs.now) send < 2 ^ 63 }

    ensures arrive { result ≡ at + flight_one sched.now (C.model costs.now) send }
    ensures holds { SameFreeTimes res.new
        (hold_tx (hold_cpu res.old send (at + over_one sched.now (C.model costs.now) send)) send (at + gap_one sched.now (C.model costs.now) send)) }
{
    transfer(costs, res, send, to, REQUEST, at).arrive
}

/// Returns when the clear to send reaches the sender if the rendezvous send is paired at `paired`: one latency later.
/// Both are in nanoseconds.
pub fn clear<C: Costs>(sched: &Sched, costs: &C, send: OpId, paired: u64) -> u64
    requires sends { IsSend sched.now send }
    requires latency_fits { paired + latency sched.now (C.model costs.now) send < 2 ^ 63 }
    ensures { result ≡ paired + latency sched.now (C.model costs.now) send }
{
    let message = sched.message(send);
    clear_to(sched, costs, send, message.to, paired)
}

/// Does the same as `clear`, for a send to the rank `to`, without looking the message up.
pub fn clear_to<C: Costs>(sched: &Sched, costs: &C, send: OpId, to: u32, paired: u64) -> u64
    requires goes_to { (bytes : ℕ) × IsMessage sched.now send to bytes }
    requires latency_fits { paired + latency sched.now (C.model costs.now) send < 2 ^ 63 }
    ensures { result ≡ paired + latency sched.now (C.model costs.now) send }
{
    paired + costs.latency(send.rank, to)
}
