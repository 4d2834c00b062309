//! The capacities of the lists of a matcher.
ghost use Rattle.std.specs.Prelude.{ℕ, ◌≡◌, ◌+◌, ◌<◌, ◌^◌, length, slice_get, Some, IfOk};
ghost use Rattle.goal_graph.specs.Schedule.{operations};
ghost use Rattle.sim_match.specs.declared.capacities.Capacity.{Capacity};
ghost use Rattle.sim_match.specs.ListNumbers.{AreNumbered};
ghost use Rattle.sim_match.specs.Capacities.{room_of, AreCapacities, AreCounted, AreOnce, AreWithin};
ghost use Rattle.sim_match.specs.Queues.{waits_as};

use crate::list_numbers::ListNumbers;
use goal_graph::{Kind, Sched};
use std::alloc::{AllocError, Global};

/// For how many receives and sends a list needs room.
#[derive(Clone, Copy, Debug, PartialEq, Eq)]
pub struct Capacity {
    /// The number of its receives.
    pub receives: u32,
    /// The number of sends for it.
    pub sends: u32,
}

/// A side of the lists of a matcher.
#[derive(Clone, Copy, Debug, PartialEq, Eq)]
pub enum Side {
    /// Their receives.
    Receives,
    /// The sends for them.
    Sends,
}

impl Side {
    /// Returns the room that a list needs for this side.
    pub fn room(self, capacity: &Capacity) -> u32
        ensures { result ≡ room_of self capacity.now }
    {
        match self {
            Side::Receives => capacity.receives,
            Side::Sends => capacity.sends,
        }
    }

    /// Returns whether it is that side.
    pub fn is(self, side: Side) -> bool
        ensures { result ≡ waits_as (Some self) side }
    {
        match (self, side) {
            (Side::Receives, Side::Receives) | (Side::Sends, Side::Sends) => true,
            (Side::Receives, Side::Sends) | (Side::Sends, Side::Receives) => false,
        }
    }
}

// Counts a send in each of these lists.
#[inline(always)]
fn count_send(capacities: &mut [Capacity], numbers: [Option<usize>; 4])
    requires once { AreOnce numbers }
    requires within { AreWithin numbers (length capacities.old) }
    requires small { (list : ℕ) (capacity : Capacity) → slice_get capacities.old list ≡ Some capacity → capacity.sends + 1 < 2 ^ 32 }
    ensures { AreCounted numbers capacities.old capacities.new }
{
    for number in numbers {
        match number {
            Some(list) => {
                let capacity = &mut capacities[list];
                capacity.sends += 1;
            }
            None => {}
        }
    }
}

/// Returns the capacity of each list. `Err` means out of memory.
pub fn capacities(
    alloc: Global,
    sched: &Sched,
    numbers: &ListNumbers,
) -> Result<Vec<Capacity>, AllocError>
    requires numbered { AreNumbered sched.now numbers.now }
    requires few { length (operations sched.now) < 2 ^ 32 }
    ensures { IfOk result (λ capacities. (n : AreNumbered sched.now numbers.now) → AreCapacities sched.now n.keys (operations sched.now) capacities.items) }
{
    let none = Capacity {
        receives: 0,
        sends: 0,
    };
    let mut capacities = vec![in alloc; none; numbers.count]?;
    for id in sched.operations() {
        match sched.op(*id).kind {
            Kind::Recv { .. } => {
                let list = numbers.list_of_receive(sched, *id);
                let capacity = &mut capacities[list];
                capacity.receives += 1;
            }
            Kind::Send { .. } => {
                count_send(&mut capacities, numbers.lists_of_send(sched, *id));
            }
            Kind::Calc { .. } => {}
        }
    }
    Ok(capacities)
}
