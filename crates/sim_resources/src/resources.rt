//! The cpus and NICs of a schedule, with their free times.
ghost use Rattle.std.specs.Prelude.{◌≡◌, ◌<◌, ℕ, IfOk, List, Some, length, max, slice_get, slice_set};
ghost use Rattle.goal_graph.specs.Fault.{IsOp};
ghost use Rattle.goal_graph.specs.Schedule.{IsSend, IsReceive};
ghost use Rattle.sim_resources.specs.FreeTimes.{SameFreeTimes, cpu_free, tx_free, rx_free, hold_cpu, hold_tx, hold_rx, unheld};
ghost use Rattle.sim_resources.specs.Numbering.{AreNumbered, AreStationed};
ghost use Rattle.sim_resources.specs.ByNumber.{AreTimesByNumber};
ghost use Rattle.sim_resources.specs.declared.pair.Pair.{Pair};

use crate::station::StationNumbers;
use goal_graph::{OpId, Sched};
use goal_limits::NoMemory;
use std::alloc::Global;
use std::marker::Model;

/// Until when each cpu, and each side of each NIC, of a schedule's ranks is held. Times are in nanoseconds.
#[derive(Drop)]
pub struct Resources<'a> {
    sched: &'a Sched,
    // the numbers of the cpus and of the sides of NICs
    stations: StationNumbers,
    // when each of them is free
    free: Vec<u64>,
}

impl<'a> Model for Resources<'a> {
    ghost use Rattle.std.specs.Prelude.{◌≡◌, length};
    ghost use Rattle.goal_graph.specs.Schedule.{operations};
    ghost use Rattle.sim_resources.specs.FreeTimes.{Holds};
    ghost use Rattle.sim_resources.specs.Numbering.{AreNumbered};
    ghost use Rattle.sim_resources.specs.Held.{cpu_number, side_number, senders, receivers, held};

    ghost Value = { Holds };

    ghost view = { λ r. record {
      plans = r.sched.now;
      cpu = held (operations r.sched.now) (cpu_number r.sched.now r.stations) r.free.items;
      tx = held (senders r.sched.now) (side_number r.sched.now r.stations) r.free.items;
      rx = held (receivers r.sched.now) (side_number r.sched.now r.stations) r.free.items;
    } };

    ghost invariant = { λ r. AreNumbered r.sched.now r.stations × (length r.free.items ≡ r.stations.resources) };
}

// Returns when a resource is free.
fn free(times: &[u64], number: u32) -> u64
    requires { number < length times.now }
    ensures { (t : ℕ) → slice_get times.now number ≡ Some t → result ≡ t }
{
    times[number as usize]
}

// Holds a resource at least until a time.
fn raise(times: &mut [u64], number: u32, until: u64)
    requires { number < length times.old }
    ensures { (t : ℕ) → slice_get times.old number ≡ Some t → times.new ≡ slice_set times.old number (max t until) }
{
    let time = &mut times[number as usize];
    *time = (*time).max(until);
}

impl<'a> Resources<'a> {
    /// Creates the resources of a schedule, each free at 0. `Err` means out of memory.
    pub fn new(alloc: Global, sched: &'a Sched) -> Result<Resources<'a>, NoMemory>
        ensures { IfOk result (λ r. SameFreeTimes r (unheld sched.now)) }
    {
        let stations = StationNumbers::new(alloc, sched)?;
        let free = vec![in alloc; 0; stations.resources as usize]?;
        Ok(Resources {
            sched,
            stations,
            free,
        })
    }

    /// Returns the numbers of the operations' stations and of their resources.
    pub fn stations(&self) -> &StationNumbers
        ensures { AreNumbered self.now.plans result.now }
    {
        &self.stations
    }

    /// Returns when each cpu and each side of a NIC is free, by the numbers that `stations` gives. Two numberings of
    /// one schedule give each operation the same numbers.
    pub fn free_times(&self) -> &[u64]
        ensures { (numbers : List ℕ) (pairs : List Pair) → AreStationed self.now.plans numbers pairs → AreTimesByNumber self.now numbers pairs result.now }
    {
        &self.free
    }

    /// Returns when the cpu that an operation uses is free.
    pub fn cpu(&self, id: OpId) -> u64
        requires { IsOp self.now.plans id }
        ensures { result ≡ cpu_free self.now id }
    {
        let pair = self.stations.pair_of(self.sched, id);
        free(&self.free, pair.cpu)
    }

    /// Returns when the sending side of the NIC that a send uses is free.
    pub fn tx(&self, id: OpId) -> u64
        requires { IsSend self.now.plans id }
        ensures { result ≡ tx_free self.now id }
    {
        let pair = self.stations.pair_of(self.sched, id);
        free(&self.free, pair.side)
    }

    /// Returns when the receiving side of the NIC that a receive uses is free.
    pub fn rx(&self, id: OpId) -> u64
        requires { IsReceive self.now.plans id }
        ensures { result ≡ rx_free self.now id }
    {
        let pair = self.stations.pair_of(self.sched, id);
        free(&self.free, pair.side)
    }

    /// Holds the cpu that an operation uses, at least until a time.
    pub fn hold_cpu(&mut self, id: OpId, until: u64)
        requires { IsOp self.old.plans id }
        ensures { SameFreeTimes self.new (hold_cpu self.old id until) }
    {
        let pair = self.stations.pair_of(self.sched, id);
        raise(&mut self.free, pair.cpu, until);
    }

    /// Holds the sending side of the NIC that a send uses, at least until a time.
    pub fn hold_tx(&mut self, id: OpId, until: u64)
        requires { IsSend self.old.plans id }
        ensures { SameFreeTimes self.new (hold_tx self.old id until) }
    {
        let pair = self.stations.pair_of(self.sched, id);
        raise(&mut self.free, pair.side, until);
    }

    /// Holds the receiving side of the NIC that a receive uses, at least until a time.
    pub fn hold_rx(&mut self, id: OpId, until: u64)
        requires { IsReceive self.old.plans id }
        ensures { SameFreeTimes self.new (hold_rx self.old id until) }
    {
        let pair = self.stations.pair_of(self.sched, id);
        raise(&mut self.free, pair.side, until);
    }
}
