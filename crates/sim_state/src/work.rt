//! What each operation does.
ghost use Rattle.std.specs.Prelude.{◌≡◌};
ghost use Rattle.goal_graph.specs.Schedule.{IsSend};
ghost use Rattle.goal_graph.specs.Fault.{IsOp};
ghost use Rattle.sim_state.specs.Tasks.{task_of, is_needed, work_of};

use crate::task::Task;
use goal_graph::{Kind, OpId, Sched};
use sim_params::Costs;

/// What an operation does, in 16 bytes. A run reads it at each step, and the operation itself is further away in
/// memory.
#[derive(Clone, Copy)]
pub struct Work {
    /// The nanoseconds of a calc, or the bytes of a send; 0 for a receive.
    pub amount: u64,
    /// The rank to which a send goes; 0 for any other operation.
    pub to: u32,
    /// The task.
    pub task: Task,
    /// Whether another operation needs it.
    pub is_needed: bool,
}

// The task of a send: whether it is eager.
fn task_of_send<C: Costs>(sched: &Sched, costs: &C, send: OpId) -> Task
    requires { IsSend sched.now send }
    ensures { result ≡ task_of sched.now (C.model costs.now) send }
{
    let message = sched.message(send);
    if costs.eager(send.rank, message.to, message.bytes) {
        Task::Eager
    } else {
        Task::Rendezvous
    }
}

// Whether another operation needs it.
fn is_needed(sched: &Sched, id: OpId) -> bool
    requires { IsOp sched.now id }
    ensures { result ≡ is_needed sched.now id }
{
    !sched.waiting_on(id).is_empty()
}

/// Returns what an operation does, by the schedule and the costs.
pub fn work_of<C: Costs>(sched: &Sched, costs: &C, id: OpId) -> Work
    requires { IsOp sched.now id }
    ensures { result ≡ work_of sched.now (C.model costs.now) id }
{
    let is_needed = is_needed(sched, id);
    match sched.op(id).kind {
        Kind::Calc { nanos } => Work {
            amount: nanos,
            to: 0,
            task: Task::Calc,
            is_needed,
        },
        Kind::Send { bytes, to, .. } => Work {
            amount: bytes,
            to,
            task: task_of_send(sched, costs, id),
            is_needed,
        },
        Kind::Recv { .. } => Work {
            amount: 0,
            to: 0,
            task: Task::Receive,
            is_needed,
        },
    }
}
