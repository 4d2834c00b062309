//! Probes that are counted before they are made.
ghost use Rattle.std.specs.Prelude.{◌≡◌, ◌+◌, ◌<◌, ◌^◌};

use sim_order::Steps;
use std::marker::Model;
use std::sync::ledger::Ledger;

/// Probes of entries that are counted and not yet made. Contracts see their number. Only `count` adds one, and counts a
/// step; each probe takes one away. So at any time at most as many probes were made as were counted.
#[derive(Debug, Drop)]
pub struct Credit {
    looks: u64,
}

impl Model for Credit {
    ghost use Rattle.std.specs.Prelude.{ℕ};

    ghost Value = { ℕ };

    ghost view = { λ c. c.looks };
}

impl Credit {
    /// Creates a credit of no probes.
    pub fn none() -> Credit
        ensures { result ≡ 0 }
    {
        Credit { looks: 0 }
    }

    /// Counts a probe that will be made.
    pub fn count<L: Ledger>(&mut self, steps: &mut Steps<L>)
        requires { self.old + 1 < 2 ^ 64 }
        ensures more { self.new ≡ self.old + 1 }
        ensures ticks { steps.new ≡ steps.old + 1 }
    {
        steps.tick();
        self.looks += 1;
    }

    /// Makes a probe that was counted.
    pub fn look(&mut self)
        requires { 0 < self.old }
        ensures { self.new + 1 ≡ self.old }
    {
        self.looks -= 1;
    }
}
