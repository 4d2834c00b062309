//! The class of a message, and its costs.
ghost use Rattle.std.specs.Prelude.{ℕ, ◌≡◌, ◌≢◌, ◌<◌, length, if◌then◌else◌, IfSome, IfNone};
ghost use Rattle.sim_params.specs.Costs.{log_gops};
ghost use Rattle.sim_params.specs.Numbers.{numbers};
ghost use Rattle.sim_classes.specs.Machine.{class_of, class_between, numbers_of, costs_between};
ghost use Rattle.sim_classes.specs.MachineModels.{machine_model};

use crate::machine::Machine;
use sim_params::{Costs, LogGops, Params, Spans};

impl Machine {
    /// Returns the number of ranks that have a node.
    pub fn ranks(&self) -> u32
        ensures { result ≡ length (machine_model self.now).nodes }
    {
        self.nodes.len() as u32
    }

    /// Returns the number of the class of a message, from 0, by sending and receiving rank. A rank that the machine
    /// does not have is alone on its node.
    pub fn class_of(&self, from: u32, to: u32) -> u32
        ensures class { result ≡ class_of (machine_model self.now) from to }
        ensures within { result < length (machine_model self.now).classes }
    {
        match self.nodes.get(from as usize) {
            Some(a) => match self.nodes.get(to as usize) {
                Some(b) => self.class_between(*a, *b),
                None => self.class_apart(from == to),
            },
            None => self.class_apart(from == to),
        }
    }

    // The class of a message if the machine lacks one of its ranks. `one` is whether they are the same rank.
    fn class_apart(&self, one: bool) -> u32
        ensures class { result ≡ (if one then (machine_model self.now).inside else (machine_model self.now).usual) }
        ensures within { result < length (machine_model self.now).classes }
    {
        if one { self.inside } else { self.usual }
    }

    // The class between two nodes.
    fn class_between(&self, a: u32, b: u32) -> u32
        ensures class { result ≡ class_between (machine_model self.now) a b }
        ensures within { result < length (machine_model self.now).classes }
    {
        if a == b {
            return self.inside;
        }
        match self.pair_classes.class(a, b) {
            Some(class) => class,
            None => self.usual,
        }
    }

    /// Returns the parameters that all classes have, or `None` if two classes differ.
    pub fn uniform(&self) -> Option<Params>
        ensures same { IfSome result (λ p. (class : ℕ) → class < length (machine_model self.now).classes
            → numbers_of (machine_model self.now) class ≡ numbers p) }
        ensures differ { IfNone result ((i : ℕ) × (j : ℕ) × (i < length (machine_model self.now).classes)
            × (j < length (machine_model self.now).classes) × (numbers_of (machine_model self.now) i ≢ numbers_of (machine_model self.now) j)) }
    {
        let first = self.classes[0];
        for params in &self.classes {
            if *params != first {
                return None;
            }
        }
        Some(first)
    }

    // The costs of a message, by sending and receiving rank. Inlined into its callers, it reads only the parameters
    // that they use.
    #[inline(always)]
    fn costs(&self, from: u32, to: u32) -> LogGops
        ensures { log_gops (numbers result.params) ≡ costs_between (machine_model self.now) from to }
    {
        LogGops {
            params: self.classes[self.class_of(from, to) as usize],
        }
    }
}

impl Costs for Machine {
    ghost use Rattle.std.specs.Prelude.{◌≡◌, ◌<◌, ◌^◌};
    ghost use Rattle.sim_params.specs.Costs.{CostModel};
    ghost use Rattle.sim_classes.specs.Machine.{costs_of};
    ghost use Rattle.sim_classes.specs.MachineModels.{machine_model};
    ghost use Rattle.sim_classes.specs.Bounds.{machine_bounded};

    ghost model = { λ m. costs_of (machine_model m) };

    ghost bounded = { λ m. machine_bounded m };

    fn over(&self, from: u32, to: u32, bytes: u64) -> u64 {
        self.costs(from, to).over(from, to, bytes)
    }

    fn gap(&self, from: u32, to: u32, bytes: u64) -> u64 {
        self.costs(from, to).gap(from, to, bytes)
    }

    fn flight(&self, from: u32, to: u32, bytes: u64) -> u64 {
        self.costs(from, to).flight(from, to, bytes)
    }

    fn spans(&self, from: u32, to: u32, bytes: u64) -> Spans {
        self.costs(from, to).spans(from, to, bytes)
    }

    fn latency(&self, from: u32, to: u32) -> u64 {
        self.costs(from, to).latency(from, to)
    }

    fn eager(&self, from: u32, to: u32, bytes: u64) -> bool {
        self.costs(from, to).eager(from, to, bytes)
    }
}
