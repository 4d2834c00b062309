//! The seventh fault of certification: an operation that has no end in the walk.
ghost use Rattle.std.specs.Prelude.{◌≡◌, OnOk, IfErr};
ghost use Rattle.goal_blocks.specs.Walk.{IsWalk};
ghost use Rattle.goal_certify.specs.Stages.{IsFree, IsStopped};

use super::Walker;
use goal_blocks::CertFault;

/// Walks to the end, and reports the least operation that has no end. `Ok` if each operation has one.
pub fn check_stalls(walker: &mut Walker) -> Result<(), CertFault>
    ensures plans { walker.new.plans ≡ walker.old.plans }
    ensures free { OnOk result (IsFree walker.new.plans 6 7) }
    ensures fault { IfErr result (IsStopped walker.new.plans 6 7) }
{
    walker.finish();
    check_ends(walker)
}

// The least operation that has no end at the end of the walk.
fn check_ends(walker: &Walker) -> Result<(), CertFault>
    requires { IsWalk walker.now.plans walker.now.history }
    ensures free { OnOk result (IsFree walker.now.plans 6 7) }
    ensures fault { IfErr result (IsStopped walker.now.plans 6 7) }
{
    for id in walker.sched().operations() {
        if !walker.has_ended(*id) {
            return Err(CertFault::Stalls { op: *id });
        }
    }
    Ok(())
}
