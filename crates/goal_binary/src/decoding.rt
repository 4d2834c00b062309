//! Reading a compiled file as its schedule.
ghost use Rattle.std.specs.Prelude.{◌≡◌, ◌≢◌, ◌⊎◌, List, Ok, IfOk, IfErr, IsErrOf, IsOkUnless};
ghost use Rattle.goal_graph.specs.Schedule.{Plan};
ghost use Rattle.goal_graph.specs.Fault.{IsAccepted};
ghost use Rattle.goal_graph.specs.Widths.{AreInWidth};
ghost use Rattle.goal_binary.specs.File.{file, old};
ghost use Rattle.goal_binary.specs.Meaning.{plans_at, meaning, IsFileFault};
ghost use Rattle.goal_binary.specs.Returned.{IsLimitFault, fault_of_plans, Gives};

use crate::fault::FileFault;
use crate::fields::opening_at;
use crate::ranks::records_at;
use goal_graph::{PlanFault, RankPlan, Sched};
use std::alloc::Global;

/// Returns the plans at the front, and the place after them.
#[tactic(auto, unfolding(crate::specs::Meaning::plans_at))]
fn plans_at(alloc: Global, bytes: &[u8]) -> Result<(Vec<RankPlan>, usize), FileFault>
    ensures { Gives (λ x. (x.0.items, x.1)) result (plans_at bytes.now) }
{
    let (layout, ranks) = opening_at(bytes)?;
    records_at(alloc, bytes, layout, ranks)
}

/// Returns the plans that all the bytes mean.
#[tactic(auto, unfolding(crate::specs::Meaning::meaning))]
fn read(alloc: Global, bytes: &[u8]) -> Result<Vec<RankPlan>, FileFault>
    ensures { Gives (λ v. v.items) result (meaning bytes.now) }
{
    let (plans, after) = plans_at(alloc, bytes)?;
    if after < bytes.len() {
        return Err(FileFault::Extra { at: after as u64 });
    }
    Ok(plans)
}

/// Returns the fault of the plans as a fault of the file.
fn fault_of_plans(fault: PlanFault) -> FileFault
    ensures { result ≡ fault_of_plans fault }
{
    match fault {
        PlanFault::NoMemory => FileFault::NoMemory,
        fault => FileFault::Plan(fault),
    }
}

/// Returns the schedule of a compiled file, or its first fault.
fn schedule_of(alloc: Global, bytes: &[u8]) -> Result<Sched, FileFault>
    ensures ok { IfOk result (λ sched. meaning bytes.now ≡ Ok sched) }
    ensures accepted { IfOk result (λ sched. IsAccepted sched) }
    ensures fault { IfErr result (λ fault. fault ≢ FileFault.NoMemory → IsFileFault bytes.now fault) }
{
    let plans = match read(alloc, bytes) {
        Ok(plans) => plans,
        Err(fault) => return Err(fault),
    };
    match Sched::build(alloc, plans) {
        Ok(sched) => Ok(sched),
        Err(fault) => Err(fault_of_plans(fault)),
    }
}

/// Returns the schedule of a compiled file of version 1 or 2.
///
/// The bytes are read once, from the front. A list gets room at once for the number of items that its count says, but
/// for at most half as many as bytes follow (`room` in items.rt), since each item has at least two bytes. So a count in
/// a damaged file takes no memory for items that cannot follow.
///
/// # Errors
///
/// The first of these:
///
/// - the fault of the first field, in the order of the file, that is cut off or has a value that no file of the version
///   can have there;
/// - the fault of bytes after the last rank;
/// - the first fault of the plans, which is neither `Count` nor `Value`.
///
/// `NoMemory` may come at any time.
pub fn decode(alloc: Global, bytes: &[u8]) -> Result<Sched, FileFault>
    // The plans are those that the bytes mean, and they are a schedule.
    ensures ok { IfOk result (λ sched. meaning bytes.now ≡ Ok sched) }
    ensures accepted { IfOk result (λ sched. IsAccepted sched) }

    // The fault is that of the bytes, or of their plans; and every such fault is returned, unless memory runs out.
    ensures fault { IfErr result (λ fault. fault ≢ FileFault.NoMemory → IsFileFault bytes.now fault) }
    ensures faults { (fault : FileFault) → IsFileFault bytes.now fault
        → IsErrOf result fault ⊎ IsErrOf result FileFault.NoMemory }

    // The fault is never that of a count or a value over its limit.
    ensures limits { IfErr result (λ fault. IsLimitFault fault → ⊥) }

    // The bytes are the file of the schedule or its old file: no third file is accepted for it.
    ensures file { IfOk result (λ sched. (bytes.now ≡ file sched) ⊎ (bytes.now ≡ old sched)) }

    // Each of the two files of a schedule is read as that schedule, unless memory runs out.
    ensures again { (plans : List Plan) → IsAccepted plans → AreInWidth plans → ((bytes.now ≡ file plans) ⊎ (bytes.now ≡ old plans))
        → IfOk result (λ sched. sched ≡ plans) × IsOkUnless result FileFault.NoMemory }
{
    schedule_of(alloc, bytes)
}
