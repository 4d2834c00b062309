//! Whether a collective has a schedule, and the schedule that its formula gives.
ghost use Rattle.std.specs.Prelude.{◌≡◌, ◌≢◌, ◌≤◌, ◌↔◌, IsTrue, OnOk, IfOk, IfErr};
ghost use Rattle.goal_graph.specs.Fault.{IsAccepted};
ghost use Rattle.goal_blocks.specs.Certified.{IsCertifiedFor};
ghost use Rattle.goal_blocks.specs.Entries.{made_by};
ghost use Rattle.goal_blocks.specs.Generated.{made, HasPower, IsPossible};
ghost use Rattle.goal_blocks.specs.GenFaults.{IsGenFault};
ghost use Rattle.goal_blocks.specs.Right.{IsCertifiedByProof, IsRightFor};

use crate::gen_fault::GenFault;
use crate::steps::{Formula, plans_of};
use goal_graph::{PlanFault, RankPlan, Sched};
use goal_limits::{Collective, MAX_BYTES, NoMemory};
use std::alloc::Global;

// Returns whether the number of ranks is a power of two. Also true if the collective does not require it.
fn has_power(what: Collective, ranks: u32) -> bool
    ensures { IsTrue result ↔ HasPower what ranks }
{
    match what {
        Collective::Allreduce => ranks.is_power_of_two(),
        _ => true,
    }
}

/// Checks that a collective has a schedule for this number of ranks.
///
/// # Errors
///
/// The first of these: no rank, or more than the collective may have; a root that is not a rank; an allreduce whose
/// number of ranks is not a power of two. It is never `NoMemory`.
pub fn possible(what: Collective, ranks: u32) -> Result<(), GenFault>
    ensures possible { OnOk result (IsPossible what ranks) }
    ensures fault { IfErr result (λ fault. IsGenFault what ranks fault) }
    ensures memory { IfErr result (λ fault. fault ≢ GenFault.NoMemory) }
{
    let limit = what.most_ranks();
    if ranks == 0 || limit < ranks {
        return Err(GenFault::Ranks { limit });
    }
    if !what.has_root(ranks) {
        return Err(GenFault::Root);
    }
    if !has_power(what, ranks) {
        return Err(GenFault::NotPowerOfTwo);
    }
    Ok(())
}

/// Returns the schedule of plans that break no rule.
///
/// # Errors
///
/// `NoMemory` where memory runs out.
pub fn build_accepted(alloc: Global, plans: Vec<RankPlan>) -> Result<Sched, NoMemory>
    requires { IsAccepted plans.items }
    ensures { IfOk result (λ sched. sched ≡ plans.items) }
{
    match Sched::build(alloc, plans) {
        Ok(sched) => Ok(sched),
        Err(PlanFault::NoMemory) => Err(NoMemory),
        Err(_) => unreachable!(),
    }
}

/// Returns the schedule of a collective for `ranks` ranks, with messages of `bytes` bytes, by a formula that gives its
/// operations. It makes one pass over the ranks and their operations.
///
/// # Errors
///
/// Only `NoMemory`.
pub fn schedule_by<F: Formula>(
    alloc: Global,
    what: Collective,
    ranks: u32,
    bytes: u64,
    formula: &F,
) -> Result<Sched, GenFault>
    requires possible { IsPossible what ranks }
    requires size { bytes ≤ MAX_BYTES }
    requires told { made_by (F.rank_count formula.now) (F.op_count formula.now) (F.entry_at formula.now)
        ≡ made what ranks bytes }
    ensures made { IfOk result (λ sched. sched ≡ made what ranks bytes) }
    ensures accepted { IfOk result (λ sched. IsAccepted sched) }
    ensures certified { IsCertifiedByProof what ranks → IfOk result (λ sched. IsCertifiedFor what sched) }
    ensures right { IfOk result (λ sched. IsRightFor what sched) }
    ensures memory { IfErr result (λ fault. fault ≡ GenFault.NoMemory) }
{
    let plans = plans_of(alloc, formula)?;
    match build_accepted(alloc, plans) {
        Ok(sched) => Ok(sched),
        Err(NoMemory) => Err(GenFault::NoMemory),
    }
}
