//! The queues of a matcher, if each pattern names a source and a tag: at each pattern, receives wait for messages, or
//! messages for receives, and the first that came is the next to be taken.
ghost use Rattle.std.specs.Prelude.{◌≡◌, ◌<◌, ◌≤◌, ◌+◌, ◌∷◌, [], ◌++◌, false, length, Some, List, IfOk, slice_get, slice_set};
ghost use Rattle.goal_graph.specs.declared.action.OpId.{OpId};
ghost use Rattle.goal_graph.specs.Schedule.{operations, IsSend, IsReceive};
ghost use Rattle.goal_graph.specs.Fault.{IsOp};
ghost use Rattle.goal_graph.specs.declared.action.Class.TheVariants.{Post, Arrive};
ghost use Rattle.goal_graph.specs.Action.{happened};
ghost use Rattle.sim_match.specs.PostsAndArrivals.{send_for, receive_for};
ghost use Rattle.sim_match.specs.Patterns.{own_list};
ghost use Rattle.sim_match.specs.ListNumbers.{AreNamed, AreNumbered};
ghost use Rattle.sim_match.specs.Matcher.{actions_of, IsNew};
ghost use Rattle.sim_match.specs.Queues.{come, taken_by, AreInLine, AreLeft, AreKept};

use crate::capacities::Side;
use crate::list_numbers::{ListNumbers, decoded};
use goal_graph::{OpId, Sched};
use goal_limits::NoMemory;
use sim_order::{Past, Steps};
use std::alloc::Global;
use std::sync::ledger::Ledger;

/// The operations that wait at a pattern, all of one side.
#[derive(Clone, Copy, Debug)]
pub struct Queue {
    /// The first of them.
    pub first: OpId,
    /// The place of the last among all operations.
    pub last: u32,
    /// Their side, or `None` if no operation waits.
    pub waits: Option<Side>,
}

impl Queue {
    // The queue in which no operation waits.
    const NONE: Queue = Queue {
        first: OpId { rank: 0, op: 0 },
        last: 0,
        waits: None,
    };
}

/// The queue of each pattern. `next` is empty if there are no patterns.
#[derive(Drop)]
pub struct Queues {
    /// The queue of each pattern.
    pub queues: Vec<Queue>,
    /// For each operation, in order: the code of the number of its list until it comes, and then the place of the next
    /// one in its queue.
    pub next: Vec<u32>,
    /// The operations of the posts and arrivals so far, for proofs only.
    pub events: Past<OpId>,
}

// Returns a queue in which one operation waits.
fn alone(sched: &Sched, id: OpId, side: Side) -> Queue
    requires { IsOp sched.now id }
    ensures waits { result.waits ≡ Some side }
    ensures first { result.first ≡ id }
    ensures last { slice_get (operations sched.now) result.last ≡ Some id }
{
    Queue {
        first: id,
        last: sched.index(id),
        waits: Some(side),
    }
}

// Appends an operation to a queue.
fn behind(sched: &Sched, queue: Queue, next: &mut [u32], id: OpId) -> Queue
    requires op { IsOp sched.now id }
    requires within { queue.last < length next.old }
    ensures waits { result.waits ≡ queue.waits }
    ensures first { result.first ≡ queue.first }
    ensures last { slice_get (operations sched.now) result.last ≡ Some id }
    ensures linked { next.new ≡ slice_set next.old queue.last result.last }
{
    let place = sched.index(id);
    next[queue.last as usize] = place;
    Queue {
        first: queue.first,
        last: place,
        waits: queue.waits,
    }
}

// Returns a queue without its first operation.
fn without_first(sched: &Sched, queue: Queue, next: &[u32]) -> Queue
    requires line { (xs : List OpId) × AreInLine (operations sched.now) next.now queue xs }
    ensures { (x : OpId) (xs : List OpId) → AreInLine (operations sched.now) next.now queue (x ∷ xs) → AreLeft (operations sched.now) next.now queue result xs }
{
    let place = sched.index(queue.first);
    if place == queue.last {
        return Queue::NONE;
    }
    let behind = next[place as usize];
    Queue {
        first: sched.operations()[behind as usize],
        last: queue.last,
        waits: queue.waits,
    }
}

impl Queues {
    /// Creates queues without posts and arrivals. `Err` means out of memory.
    pub fn new(alloc: Global, sched: &Sched, numbers: ListNumbers) -> Result<Queues, NoMemory>
        requires numbered { AreNumbered sched.now numbers }
        requires named { numbers.others ≡ None }
        ensures kept { IfOk result (λ queues. AreKept sched.now queues) }
        ensures events { IfOk result (λ queues. queues.events.items ≡ []) }
    {
        let queues = vec![in alloc; Queue::NONE; numbers.count]?;
        Ok(Queues {
            queues,
            next: numbers.own,
            events: Past::new(),
        })
    }

    // Lets an operation come to its queue. If operations of the other side wait there, it takes the first of them,
    // which is returned. Otherwise it waits.
    fn come(&mut self, sched: &Sched, list: usize, id: OpId, side: Side) -> Option<OpId>
        requires kept { AreKept sched.now self.old }
        requires own { (kept : AreKept sched.now self.old) → own_list sched.now kept.keys id ≡ Some list }
        requires fresh { IsNew sched.now (actions_of sched.now self.old.events.items) (come side id) }
        ensures kept { AreKept sched.now self.new }
        ensures events { self.new.events.items ≡ self.old.events.items ++ id ∷ [] }
        ensures taken { result ≡ taken_by side sched.now (actions_of sched.now self.old.events.items) id }
    {
        self.events.push(&id);
        let queue = self.queues[list];
        match queue.waits {
            None => {
                self.queues[list] = alone(sched, id, side);
                None
            }
            Some(waits) => {
                if waits.is(side) {
                    self.queues[list] = behind(sched, queue, &mut self.next, id);
                    None
                } else {
                    self.queues[list] = without_first(sched, queue, &self.next);
                    Some(queue.first)
                }
            }
        }
    }

    // Returns the number of the list of a send that has not come, if the schedule has its pattern.
    fn list_of_send(&self, sched: &Sched, send: OpId) -> Option<usize>
        requires kept { AreKept sched.now self.now }
        requires send { IsSend sched.now send }
        requires fresh { happened Arrive send (actions_of sched.now self.now.events.items) ≡ false }
        ensures { (kept : AreKept sched.now self.now) → result ≡ own_list sched.now kept.keys send }
    {
        if self.queues.is_empty() {
            return None;
        }
        decoded(self.next[sched.index(send) as usize])
    }

    /// Posts a receive. Returns the send that it takes, if any. Two probes are counted: one of the operation that
    /// waits, and one of the receive when it waits itself.
    pub fn post<L: Ledger>(
        &mut self,
        sched: &Sched,
        recv: OpId,
        steps: &mut Steps<L>,
    ) -> Option<OpId>
        requires kept { AreKept sched.now self.old }
        requires receive { IsReceive sched.now recv }
        requires fresh { happened Post recv (actions_of sched.now self.old.events.items) ≡ false }
        ensures kept { AreKept sched.now self.new }
        ensures events { self.new.events.items ≡ self.old.events.items ++ recv ∷ [] }
        ensures taken { result ≡ send_for sched.now (actions_of sched.now self.old.events.items) recv }
        ensures counted { steps.new ≡ steps.old + 2 }
    {
        steps.tick();
        steps.tick();
        let list = self.next[sched.index(recv) as usize] as usize;
        self.come(sched, list, recv, Side::Receives)
    }

    /// Lets a send arrive. Returns the receive that takes it. Two probes are counted, as for a receive.
    pub fn arrive<L: Ledger>(
        &mut self,
        sched: &Sched,
        send: OpId,
        steps: &mut Steps<L>,
    ) -> Option<OpId>
        requires kept { AreKept sched.now self.old }
        requires send { IsSend sched.now send }
        requires fresh { happened Arrive send (actions_of sched.now self.old.events.items) ≡ false }
        ensures kept { AreKept sched.now self.new }
        ensures events { self.new.events.items ≡ self.old.events.items ++ send ∷ [] }
        ensures taken { result ≡ receive_for sched.now (actions_of sched.now self.old.events.items) send }
        ensures counted { steps.new ≤ steps.old + 8 }
    {
        steps.tick();
        steps.tick();
        match self.list_of_send(sched, send) {
            Some(list) => self.come(sched, list, send, Side::Sends),
            None => {
                self.events.push(&send);
                None
            }
        }
    }
}
