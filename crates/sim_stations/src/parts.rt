//! The parts of a table that belong to groups.
ghost use Rattle.std.specs.Prelude.{◌≡◌, ◌+◌, ◌<◌, ◌^◌, IfOk, length, map, sum};
ghost use Rattle.sim_stations.specs.Parts.{room_of, ArePacked, AreWithoutKeys};

use goal_limits::NoMemory;
use sim_order::CompactKey;
use sim_queue::{AtZero, HeapItem};
use std::alloc::Global;

/// The part of a table that belongs to a group. Its first `count` places have a key.
#[derive(Clone, Copy)]
pub struct Part {
    /// The first place.
    pub start: u32,
    /// The number of places.
    pub room: u32,
    /// The number of places that have a key, the first ones.
    pub count: u32,
}

/// Returns parts with these numbers of places, one after another, and the number of all places. No place has a key.
/// `Err` means out of memory.
pub fn parts(alloc: Global, counts: &[u32]) -> Result<(Vec<Part>, u32), NoMemory>
    requires { sum counts.now < 2 ^ 32 }
    ensures all { IfOk result (λ r. r.1 ≡ sum counts.now) }
    ensures packed { IfOk result (λ r. ArePacked r.0.items r.1) }
    ensures rooms { IfOk result (λ r. map room_of r.0.items ≡ counts.now) }
    ensures none { IfOk result (λ r. AreWithoutKeys r.0.items) }
{
    let mut parts = Vec::with_capacity(alloc, counts.len())?;
    let mut end = 0;
    'groups: for count in counts {
        let room = *count;
        parts.push(Part {
            start: end,
            room,
            count: 0,
        })?;
        end += room;
    }
    Ok((parts, end))
}

/// Creates `count` items that do not belong to any group. `Err` means out of memory.
pub fn no_items(alloc: Global, count: usize) -> Result<Vec<HeapItem<AtZero>>, NoMemory>
    ensures { IfOk result (λ items. length items.items ≡ count) }
{
    let none = HeapItem::new(CompactKey::from_tail(0, 0), 0);
    let items = vec![in alloc; none; count]?;
    Ok(items)
}
