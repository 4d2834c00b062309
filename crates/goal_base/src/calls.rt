//! Which calls of a device in memory fail.
ghost use Rattle.std.specs.Prelude.{◌≡◌, ◌↔◌, IsTrue, IfOk};

use goal_limits::NoMemory;
use std::alloc::Global;
use std::marker::Model;

// The numbers of the calls that fail, and the number of calls made so far, at most 2^64-1.
#[derive(Drop)]
pub(crate) struct Calls {
    fails: Vec<u64>,
    made: u64,
}

impl Model for Calls {
    ghost use Rattle.goal_base.specs.Calls.{CallPlan};

    ghost Value = { CallPlan };

    ghost view = { λ c. record { fails = c.fails.items; made = c.made } };
}

impl Calls {
    ghost use Rattle.goal_base.specs.Calls.{IsFailing, next_call};

    // Creates the plan before the first call.
    pub(crate) fn new(alloc: Global, fails: &[u64]) -> Result<Calls, NoMemory>
        ensures { IfOk result (λ calls. calls ≡ record { fails = fails.now; made = 0 }) }
    {
        Ok(Calls {
            fails: Vec::from_slice(alloc, fails)?,
            made: 0,
        })
    }

    // Counts a call, and returns whether it is to fail.
    pub(crate) fn count(&mut self) -> bool
        ensures failing { IsTrue result ↔ IsFailing self.old }
        ensures counted { self.new ≡ next_call self.old }
    {
        if self.made == u64::MAX {
            return false;
        }
        self.made += 1;
        self.fails.contains(&self.made)
    }
}
