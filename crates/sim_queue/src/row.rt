//! Twelve keys in a heap.
ghost use Rattle.std.specs.Prelude.{◌≡◌, ◌+◌, ◌<◌, ◌≤◌, IfOk, length, slice_set};
ghost use Rattle.sim_queue.specs.Row.{keyed, twelve_keys};

use crate::{EventQueue, SlotHeap};
use goal_limits::NoMemory;
use sim_order::{Counted, Steps};
use std::alloc::Global;
use std::sync::ledger::Ledger;

// Gives a slot of a heap of twelve a key. It needs at most 10 comparisons, since twelve has four binary digits.
fn put_number<L: Ledger>(
    queue: &mut SlotHeap<Counted<u64>>,
    slot: u32,
    number: u64,
    steps: &mut Steps<L>,
)
    requires twelve { length queue.old ≡ 12 }
    requires slot_in { slot < 12 }
    ensures put { queue.new ≡ slice_set queue.old slot (keyed number) }
    ensures twelve { length queue.new ≡ 12 }
    ensures counted { steps.new ≤ steps.old + 10 }
{
    queue.put(slot, Counted(number), steps);
}

/// Returns a heap of twelve slots with the keys 1, 10, 2, 11, 12, 3, 21, 13, 14, 15, 16 and 5, in the order of the
/// slots. It needs at most 120 comparisons. `Err` means out of memory. (28 is the number of its row in a table of
/// tests.)
pub fn row_28<L: Ledger>(
    alloc: Global,
    steps: &mut Steps<L>,
) -> Result<SlotHeap<Counted<u64>>, NoMemory>
    ensures keys { IfOk result (λ q. q ≡ twelve_keys) }
    ensures counted { steps.new ≤ steps.old + 120 }
{
    let mut queue = SlotHeap::new(alloc, 12)?;
    put_number(&mut queue, 0, 1, steps);
    put_number(&mut queue, 1, 10, steps);
    put_number(&mut queue, 2, 2, steps);
    put_number(&mut queue, 3, 11, steps);
    put_number(&mut queue, 4, 12, steps);
    put_number(&mut queue, 5, 3, steps);
    put_number(&mut queue, 6, 21, steps);
    put_number(&mut queue, 7, 13, steps);
    put_number(&mut queue, 8, 14, steps);
    put_number(&mut queue, 9, 15, steps);
    put_number(&mut queue, 10, 16, steps);
    put_number(&mut queue, 11, 5, steps);
    Ok(queue)
}
