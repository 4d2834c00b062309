//! The plain queue.
ghost use Rattle.std.specs.Prelude.{◌≡◌, ◌<◌, ◌≤◌, ◌^◌, Some, None, IfOk, length, replicate, slice_set, vec_len};
ghost use Rattle.sim_queue.specs.Scan.{lesser};

use crate::EventQueue;
use goal_limits::NoMemory;
use sim_order::{EventOrder, Steps};
use std::alloc::Global;
use std::marker::Model;
use std::sync::ledger::Ledger;

/// A queue that reads every slot to find the least key.
#[derive(Drop)]
pub struct VecQueue<K> {
    keys: Vec<Option<K>>,
}

impl<K> Model for VecQueue<K> {
    ghost use Rattle.std.specs.Prelude.{List, Option, ◌<◌, ◌^◌, vec_len};

    ghost Value = { List (Option K) };

    ghost view = { λ q. q.keys.items };

    ghost invariant = { λ q. vec_len q.keys < 2 ^ 32 };
}

impl<K: EventOrder + Copy> VecQueue<K> {
    /// Creates a queue of `slots` slots without keys. `Err` means out of memory.
    pub fn new(alloc: Global, slots: u32) -> Result<VecQueue<K>, NoMemory>
        ensures { IfOk result (λ q. q ≡ replicate slots None) }
    {
        let mut keys = Vec::new(alloc);
        keys.resize(slots as usize, None)?;
        Ok(VecQueue { keys })
    }
}

// Returns the lesser of the best slot so far and another; the best so far if neither is less.
fn lesser<K: EventOrder + Copy, L: Ledger>(
    best: Option<(u32, K)>,
    slot: u32,
    key: K,
    steps: &mut Steps<L>,
) -> (u32, K)
    ensures tells { result ≡ lesser K.before best slot key }
    ensures onward { steps.old ≤ steps.new }
{
    match best {
        Some((other, least)) => {
            if key.before(&least, steps) {
                (slot, key)
            } else {
                (other, least)
            }
        }
        None => (slot, key),
    }
}

impl<K: EventOrder + Copy> EventQueue<K> for VecQueue<K> {
    ghost keys = { λ q. q };

    fn put<L: Ledger>(&mut self, slot: u32, key: K, _steps: &mut Steps<L>) {
        self.keys[slot as usize] = Some(key);
    }

    fn drop_slot<L: Ledger>(&mut self, slot: u32, _steps: &mut Steps<L>) {
        if (slot as usize) < self.keys.len() {
            self.keys[slot as usize] = None;
        }
    }

    fn least<L: Ledger>(&self, steps: &mut Steps<L>) -> Option<(u32, K)> {
        let mut best = None;
        'slots: for (slot, entry) in self.keys.iter().enumerate() {
            if let Some(key) = entry {
                best = Some(lesser(best, slot as u32, *key, steps));
            }
        }
        best
    }
}
