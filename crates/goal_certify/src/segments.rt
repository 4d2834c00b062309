// Certifies collectives that are done in segments.
ghost use Rattle.std.specs.Prelude.{ℕ, ◌≡◌, ◌⊎◌, ◌+◌, ◌*◌, ◌^◌, ◌<◌, ◌≤◌, OnOk, IfErr, IsErrAnd};
ghost use Rattle.goal_blocks.specs.Segments.{IsCertifiedIn, AreAllRight};
ghost use Rattle.goal_certify.specs.declared.segments.SegmentFault.{SegmentFault};
ghost use Rattle.goal_certify.specs.Segments.{IsSegmentFault};

use crate::certifier::check_plans;
use crate::walk::check_walk;
use goal_blocks::{CertFault, Collective, Segment, laws_of_faults, laws_of_segments};
use goal_graph::Sched;
use std::alloc::Global;

/// The first block of slots in which a schedule is not certified, and why.
#[derive(Clone, Copy, Debug, PartialEq, Eq)]
pub struct SegmentFault {
    /// The number of the block, from 0.
    pub block: u32,
    /// The first fault there, in the schedule's own numbers of slots.
    pub fault: CertFault,
}

/// Certifies a schedule for a collective that is done in `count` segments, each in a block of `width` slots. Segment j
/// uses the slots from `j * width` on as the collective uses those from 0 on.
///
/// Each segment is certified on its own: the collective's initial values are in its block and nowhere else, unless the
/// collective names slots beyond `width`. A schedule that passes leaves the wanted values in each block, in every
/// interleaving and for every choice of eager sends, when it starts with that segment alone. `certify_at_once` also
/// certifies that the segments do not mix. This function takes one walk per segment.
///
/// # Errors
///
/// The first block in which the schedule is not certified, with its first fault there, exactly where there is one.
/// `NoMemory`, with some block, may replace any result; it says nothing about the schedule.
pub fn certify_segments(
    alloc: Global,
    sched: &Sched,
    what: Collective,
    width: u32,
    count: u32,
) -> Result<(), SegmentFault>
    requires { count * width ≤ 2 ^ 32 }
    ensures certified { OnOk result ((block : ℕ) → block < count → IsCertifiedIn what width block sched.now) }
    ensures right { OnOk result (AreAllRight what width count sched.now) }
    ensures fault { IfErr result (λ told. told.fault ≡ CertFault.NoMemory ⊎ IsSegmentFault what width count sched.now told) }

    // With enough memory, the result is that of the schedule.
    ensures accepts { ((block : ℕ) → block < count → IsCertifiedIn what width block sched.now)
        → IfErr result (λ told. told.fault ≡ CertFault.NoMemory) }
    ensures faults { (found : SegmentFault) → IsSegmentFault what width count sched.now found
        → IsErrAnd result (λ told. told ≡ found ⊎ told.fault ≡ CertFault.NoMemory) }
{
    sched.known();
    laws_of_faults();
    laws_of_segments();
    if count == 0 {
        return Ok(());
    }
    match check_plans(alloc, sched) {
        Ok(()) => {}
        Err(fault) => return Err(SegmentFault { block: 0, fault }),
    }
    for block in 0..count {
        match check_walk(alloc, sched, what, Segment { width, block }) {
            Ok(()) => {}
            Err(fault) => return Err(SegmentFault { block, fault }),
        }
    }
    Ok(())
}
