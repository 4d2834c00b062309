//! The certifier: the stages, in the order of faults.
ghost use Rattle.std.specs.Prelude.{◌≡◌, ◌⊎◌, length, OnOk, IfErr, IsOkUnless, IsErrOf};
ghost use Rattle.goal_blocks.specs.declared.cert_fault.CertFault.{CertFault};
ghost use Rattle.goal_blocks.specs.Collectives.{initial, wanted};
ghost use Rattle.goal_blocks.specs.Certified.{IsCertifiedFor};
ghost use Rattle.goal_blocks.specs.Right.{IsRightFor};
ghost use Rattle.goal_certify.specs.Certifying.{IsFaultFor};
ghost use Rattle.goal_certify.specs.Stages.{HasNone, IsFirstOf, IsFree, IsStopped};

use crate::channels::check_channels;
use crate::races::check_races;
use crate::sizes::check_sizes;
use crate::walk::check_walk;
use goal_blocks::{CertFault, Collective, Segment, laws_of_certified_schedules, laws_of_faults};
use goal_graph::Sched;
use std::alloc::Global;

/// Returns the first fault in the plans of a schedule: in its sizes, channels and races. `Ok` if there is none.
pub fn check_plans(alloc: Global, sched: &Sched) -> Result<(), CertFault>
    ensures free { OnOk result (IsFree sched.now 0 6) }
    ensures fault { IfErr result (IsStopped sched.now 0 6) }
{
    check_sizes(sched)?;
    check_channels(alloc, sched)?;
    check_races(alloc, sched)
}

// The first fault of all.
fn find_fault(alloc: Global, sched: &Sched, what: Collective) -> Result<(), CertFault>
    ensures free { OnOk result (HasNone sched.now (initial what (length sched.now)) (wanted what (length sched.now)) 0 9) }
    ensures fault { IfErr result (λ fault. fault ≡ CertFault.NoMemory ⊎ IsFirstOf sched.now (initial what (length sched.now)) (wanted what (length sched.now)) 0 9 fault) }
{
    check_plans(alloc, sched)?;
    check_walk(alloc, sched, what, Segment::first())
}

/// Certifies a schedule for a collective.
///
/// A certified schedule does what the collective wants in every interleaving, whichever sends are eager: each operation
/// ends, each send is paired with the receive of its channel, and each slot holds at the end what is wanted of it.
///
/// # Errors
///
/// The first fault of the schedule, exactly if it has one. Every call may also return `NoMemory`, which says nothing of
/// the schedule.
pub fn certify(alloc: Global, sched: &Sched, what: Collective) -> Result<(), CertFault>
    ensures certified { OnOk result (IsCertifiedFor what sched.now) }
    ensures right { OnOk result (IsRightFor what sched.now) }
    ensures fault { IfErr result (λ fault. fault ≡ CertFault.NoMemory ⊎ IsFaultFor what sched.now fault) }

    // With enough memory, the result is that of the schedule.
    ensures accepts { IsCertifiedFor what sched.now → IsOkUnless result CertFault.NoMemory }
    ensures faults { (fault : CertFault) → IsFaultFor what sched.now fault → IsErrOf result fault ⊎ IsErrOf result CertFault.NoMemory }
{
    sched.known();
    laws_of_faults();
    laws_of_certified_schedules();
    find_fault(alloc, sched, what)
}
