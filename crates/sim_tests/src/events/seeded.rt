//! The engine and the plain evaluator of the rules do the same on small schedules, which are drawn from a seed.
ghost use Rattle.std.specs.Prelude.{◌<◌};

use super::evaluator::{AfterHistory, run};
use super::told;
use crate::same::{same, same_list};
use goal_graph::{Dep, Kind, Op, RankPlan, Sched, Timed, When};
use sim_events::Engine;
use sim_params::{LogGops, Params};
use std::alloc::{AllocError, Global};
use std::process::Abort;
use std::test::Fail;

// A linear congruential generator.
#[derive(Drop)]
struct Seeded {
    state: u64,
}

impl Seeded {
    // The next number, below `n`.
    fn below(&mut self, n: u32) -> u32
        requires { 0 < n }
        ensures { result < n }
    {
        self.state = self
            .state
            .wrapping_mul(6_364_136_223_846_793_005)
            .wrapping_add(1_442_695_040_888_963_407);
        ((self.state >> 33) % u64::from(n)) as u32
    }

    fn is_one_in(&mut self, n: u32) -> bool
        requires { 0 < n }
    {
        self.below(n) == 0
    }

    // Adds a dependency, sometimes three times.
    fn depend(&mut self, plan: &mut RankPlan, dep: Dep) -> Result<(), AllocError> {
        let times = if self.is_one_in(4) { 3 } else { 1 };
        for _ in 0..times {
            plan.deps.push(dep)?;
        }
        Ok(())
    }

    // A join: the operation needs all before it.
    fn join(&mut self, plan: &mut RankPlan, later: u32) -> Result<(), AllocError> {
        for earlier in 0..later {
            let when = if self.is_one_in(3) {
                When::AfterStart
            } else {
                When::AfterEnd
            };
            let dep = Dep {
                later,
                earlier,
                when,
            };
            self.depend(plan, dep)?;
        }
        Ok(())
    }

    // Adds an operation of a rank, which may need earlier ones.
    fn add(&mut self, plan: &mut RankPlan, kind: Kind) -> Result<(), AllocError> {
        let later = u32::try_from(plan.ops.len()).unwrap_or(0);
        let nic = match kind {
            Kind::Calc { .. } => 0,
            _ => self.below(2) as u8,
        };
        let cpu = self.below(2) as u8;
        plan.ops.push(Op { kind, cpu, nic })?;
        for when in [When::AfterEnd, When::AfterStart] {
            if later > 0 && self.is_one_in(4) {
                let earlier = self.below(later);
                let dep = Dep {
                    later,
                    earlier,
                    when,
                };
                self.depend(plan, dep)?;
            }
        }
        if self.is_one_in(6) {
            self.join(plan, later)?;
        }
        Ok(())
    }

    fn add_at(&mut self, plans: &mut [RankPlan], rank: u32, kind: Kind) -> Result<(), AllocError> {
        match plans.get_mut(rank as usize) {
            Some(plan) => self.add(plan, kind),
            None => Ok(()),
        }
    }

    // Adds a calc, a send, a receive, or mostly a message with both.
    fn add_some(&mut self, plans: &mut [RankPlan], ranks: u32, sync: u64) -> Result<(), AllocError>
        requires { 0 < ranks }
    {
        let (from, to, tag) = (self.below(ranks), self.below(ranks), self.below(3));
        let bytes = match self.below(6) {
            0 => sync,
            1 | 2 => sync.saturating_add(1),
            small => u64::from(small - 3),
        };
        let send = Kind::Send { bytes, to, tag };
        let recv = Kind::Recv {
            bytes: u64::from(self.below(4)),
            from: if self.is_one_in(4) { None } else { Some(from) },
            tag: if self.is_one_in(4) { None } else { Some(tag) },
        };
        match self.below(16) {
            0 | 1 => {
                let nanos = u64::from(self.below(5));
                self.add_at(plans, from, Kind::Calc { nanos })
            }
            2 => self.add_at(plans, from, send),
            3 => self.add_at(plans, to, recv),
            4..=9 => {
                self.add_at(plans, from, send)?;
                self.add_at(plans, to, recv)
            }
            _ => {
                self.add_at(plans, to, recv)?;
                self.add_at(plans, from, send)
            }
        }
    }

    fn plans(&mut self, alloc: Global, sync: u64) -> Result<Vec<RankPlan>, AllocError> {
        let ranks = 2 + self.below(3);
        let mut plans = Vec::new(alloc);
        for _ in 0..ranks {
            plans.push(RankPlan {
                ops: Vec::new(alloc),
                deps: Vec::new(alloc),
                notes: Vec::new(alloc),
            })?;
        }
        let count = 4 + self.below(4);
        for _ in 0..count {
            self.add_some(&mut plans, ranks, sync)?;
        }
        Ok(plans)
    }
}

// Checks that an engine has done what the evaluator did, in the same order. Returns whether an operation is stuck.
fn compared(
    rt: &impl Abort,
    engine: &Engine<'_, LogGops>,
    after: &AfterHistory<'_>,
    history: &[Timed],
) -> bool {
    same_list(rt, engine.trace(), history);
    let mut stuck = false;
    for id in engine.sched().operations() {
        let expected = (after.start(*id), after.end(*id), after.partner(*id));
        same(rt, &told(rt, engine, id.rank, id.op), &expected);
        stuck |= after.end(*id).is_none();
    }
    stuck
}

// Runs one schedule in both ways, and returns whether an operation is stuck.
fn is_stuck(rt: &impl Abort, alloc: Global, params: Params, seed: u64) -> Result<bool, Fail> {
    let plans = Seeded { state: seed }.plans(alloc, params.sync)?;
    let sched = Sched::build(alloc, plans)?;
    let history = run(alloc, sched.plans(), params)?;
    let after = AfterHistory::of(alloc, sched.plans(), params, &history)?;
    let mut engine = Engine::new(alloc, &sched, LogGops { params })?;
    engine.run();
    Ok(compared(rt, &engine, &after, &history))
}

#[test]
fn as_the_rules_say(rt: HostRuntime) -> Result<(), Fail> {
    let costs = [
        Params::new(2, 1, 1, 1, 0, 3)?,
        Params::new(0, 0, 0, 0, 0, 1)?,
        Params::new(1, 1, 3, 0, 1, 0)?,
        Params::new(3, 0, 1, 1, 2, 2)?,
        Params::new(0, 1, 0, 1, 1, 2)?,
        Params::new(1, 2, 2, 0, 0, 4)?,
    ];
    let mut some_stuck = false;
    let mut some_done = false;
    for seed in 0..60 {
        let params = costs[seed % 6];
        let stuck = is_stuck(&rt, rt.alloc(), params, seed as u64)?;
        some_stuck |= stuck;
        some_done |= !stuck;
    }
    assert!(rt; some_stuck && some_done);
    Ok(())
}
