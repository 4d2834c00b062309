//! The schedule of a probe.
ghost use Rattle.std.specs.Prelude.{◌≡◌, ◌<◌, ◌≤◌, ◌+◌, ◌^◌, [], ◌∷◌, ◌++◌, length, All, OnOk, IfOk};
ghost use Rattle.goal_graph.specs.Schedule.{Plan};
ghost use Rattle.goal_graph.specs.Fault.{IsAccepted};
ghost use Rattle.goal_collectives.specs.Probe.{idle_ranks, op_in, requires_end, after_last, source_in, probe_ranks, with_work, with_receive, with_round, probed};

use crate::draws::{Draws, PROBE_RANKS, Round};
use goal_blocks::build_accepted;
use goal_graph::{Dep, Kind, Op, RankPlan, Sched, When};
use goal_limits::{MAX_ROUNDS, NoMemory};
use std::alloc::{AllocError, Global};

// Returns the plans of ranks without operations. A round adds three operations and two dependencies. Each plan has room
// for a third more than its average share of these, since the ranks of a round are random.
fn idle_ranks(alloc: Global, rounds: u32) -> Result<Vec<RankPlan>, AllocError>
    ensures { IfOk result (λ plans. plans.items ≡ idle_ranks probe_ranks) }
{
    let mut plans = Vec::new(alloc);
    for _rank in 0..PROBE_RANKS {
        let ops = Vec::with_capacity(alloc, (rounds / 16) as usize)?;
        let deps = Vec::with_capacity(alloc, (rounds / 24) as usize)?;
        let notes = Vec::new(alloc);
        plans.push(RankPlan { ops, deps, notes })?;
    }
    Ok(plans)
}

// An operation of the round.
fn op_in(number: u32, kind: Kind) -> Op
    ensures { result ≡ op_in number kind }
{
    Op {
        kind,
        cpu: (number % 4) as u8,
        nic: 0,
    }
}

// The operation `later` needs the end of the operation `earlier`.
fn requires_end(later: u32, earlier: u32) -> Dep
    ensures { result ≡ requires_end later earlier }
{
    Dep {
        later,
        earlier,
        when: When::AfterEnd,
    }
}

// Appends the needs of calc number `calc` of a rank and of the send after it: the calc needs the operation before it,
// if any, and the send needs the calc.
fn add_needs(deps: &mut Vec<Dep>, calc: u32) -> Result<(), AllocError>
    requires { calc < 2 ^ 31 }
    ensures { OnOk result (deps.new.items
        ≡ deps.old.items ++ (after_last calc ++ requires_end (calc + 1) calc ∷ [])) }
{
    if calc > 0 {
        deps.push(requires_end(calc, calc - 1))?;
    }
    deps.push(requires_end(calc + 1, calc))?;
    Ok(())
}

// Appends the calc and the send of a round.
#[tactic(auto, unfolding(crate::specs::Probe::with_work))]
fn add_work(plan: &mut RankPlan, number: u32, round: Round) -> Result<(), AllocError>
    requires { length plan.old.ops < 2 ^ 31 }
    ensures { OnOk result (plan.new ≡ with_work number round plan.old) }
{
    add_needs(&mut plan.deps, plan.ops.len() as u32)?;
    let nanos = round.nanos;
    plan.ops.push(op_in(number, Kind::Calc { nanos }))?;
    let send = Kind::Send {
        bytes: round.bytes,
        to: round.to,
        tag: number,
    };
    plan.ops.push(op_in(number, send))?;
    Ok(())
}

// Returns the source of the receive of a round: any in every eighth round.
fn source_in(number: u32, round: Round) -> Option<u32>
    ensures { result ≡ source_in number round }
{
    if number % 8 == 7 {
        None
    } else {
        Some(round.from)
    }
}

// Appends the receive of a round.
#[tactic(auto, unfolding(crate::specs::Probe::with_receive))]
fn add_receive(plan: &mut RankPlan, number: u32, round: Round) -> Result<(), AllocError>
    ensures { OnOk result (plan.new ≡ with_receive number round plan.old) }
{
    let receive = Kind::Recv {
        bytes: round.bytes,
        from: source_in(number, round),
        tag: Some(number),
    };
    plan.ops.push(op_in(number, receive))?;
    Ok(())
}

// Appends a round.
fn add_round(plans: &mut [RankPlan], number: u32, round: Round) -> Result<(), AllocError>
    requires ranks { length plans.old ≡ probe_ranks }
    requires from { round.from < probe_ranks }
    requires to { round.to < probe_ranks }
    requires few { All (λ (p : Plan). length p.ops < 2 ^ 31) plans.old }
    ensures { OnOk result (plans.new ≡ with_round number round plans.old) }
{
    add_work(&mut plans[round.from as usize], number, round)?;
    add_receive(&mut plans[round.to as usize], number, round)?;
    Ok(())
}

/// Returns the schedule of a probe: `rounds` rounds of a calc, a send and a receive among 64 ranks, drawn from a seed.
/// It makes one pass over the rounds.
///
/// # Errors
///
/// Only `NoMemory`.
pub fn probe_plan(alloc: Global, rounds: u32, seed: u64) -> Result<Sched, NoMemory>
    requires { rounds ≤ MAX_ROUNDS }
    ensures probed { IfOk result (λ sched. sched ≡ probed rounds seed) }
    ensures accepted { IfOk result (λ sched. IsAccepted sched) }
{
    match probe_plans(alloc, rounds, seed) {
        Ok(plans) => build_accepted(alloc, plans),
        Err(_) => Err(NoMemory),
    }
}

// The plans of a probe.
fn probe_plans(alloc: Global, rounds: u32, seed: u64) -> Result<Vec<RankPlan>, AllocError>
    requires { rounds ≤ MAX_ROUNDS }
    ensures { IfOk result (λ plans. plans.items ≡ probed rounds seed) }
{
    let mut plans = idle_ranks(alloc, rounds)?;
    let mut draws = Draws::new(seed);
    for number in 0..rounds {
        add_round(&mut plans, number, draws.round())?;
    }
    Ok(plans)
}
