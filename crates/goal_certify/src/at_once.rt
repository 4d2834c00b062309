// Certifies all segments of a collective in one run that begins with all of them.
ghost use Rattle.std.specs.Prelude.{◌≡◌, ◌⊎◌, ◌*◌, ◌^◌, ◌<◌, ◌≤◌, length, Err, OnOk, IfErr, IsErrAnd};
ghost use Rattle.goal_limits.specs.Limits.{rank_limit};
ghost use Rattle.goal_certify.specs.declared.at_once.AtOnceFault.{AtOnceFault};
ghost use Rattle.goal_certify.specs.AtOnce.{named, AreCertifiedAtOnce, AreRightAtOnce, IsAtOnceFault, IsOutOfMemory};

use crate::segments::{SegmentFault, certify_segments};
use crate::walk::find_stray;
use goal_blocks::{Collective, Segment, laws_of_faults, laws_of_joined_starts};
use goal_graph::Sched;
use std::alloc::Global;

/// Why not all segments of a collective are certified at once.
#[derive(Clone, Copy, Debug, PartialEq, Eq)]
pub enum AtOnceFault {
    /// A block has fewer slots than the collective names. A width of 0 is always too narrow.
    Narrow,
    /// A segment is not certified in its block.
    Segment(SegmentFault),
    /// A contribution of segment `from` ends in a slot of another segment's block.
    Stray {
        /// The number of the segment's block, from 0.
        from: u32,
        /// The rank of the slot.
        rank: u32,
        /// The slot, in the schedule's own numbers.
        slot: u32,
    },
}

// Returns the number of slots that a collective names, from slot 0 on.
fn named_slots(what: Collective, ranks: u32) -> u32
    requires few { ranks ≤ rank_limit }
    ensures named { result ≡ named what ranks }
{
    match what {
        Collective::Allgather
        | Collective::Gather { .. }
        | Collective::Scatter { .. }
        | Collective::ReduceScatter => ranks,
        Collective::Alltoall => ranks + ranks,
        _ => 1,
    }
}

/// Certifies that all `count` segments of a collective are right in one run that begins with all of them. Segment j
/// uses the slots from `j * width` on as the collective uses those from 0 on.
///
/// A schedule that passes is right in every interleaving and for every choice of eager sends. At the end each segment's
/// slots hold what the collective wants there, and no contribution of another segment. `certify_segments` is weaker: it
/// starts with one segment at a time, so a calc that adds a slot of one segment to a slot of another adds nothing.
///
/// This takes two walks per segment.
///
/// # Errors
///
/// - `Narrow` exactly where a block has fewer slots than the collective names.
/// - Else `Segment` with the fault of `certify_segments`, if it finds one.
/// - Else `Stray` with the first segment that leaves a contribution in the block of another, and the least such slot.
///
/// `Segment` with `NoMemory` may replace any result but `Narrow`; it says nothing about the schedule.
pub fn certify_at_once(
    alloc: Global,
    sched: &Sched,
    what: Collective,
    width: u32,
    count: u32,
) -> Result<(), AtOnceFault>
    requires { count * width ≤ 2 ^ 32 }
    ensures certified { OnOk result (AreCertifiedAtOnce what width count sched.now) }
    ensures right { OnOk result (AreRightAtOnce what width count sched.now) }
    ensures fault { IfErr result (λ told. IsOutOfMemory told ⊎ IsAtOnceFault what width count sched.now told) }

    // With enough memory, the result is that of the schedule.
    ensures narrow { width < named what (length sched.now) → result ≡ Err AtOnceFault.Narrow }
    ensures accepts { AreCertifiedAtOnce what width count sched.now → IfErr result IsOutOfMemory }
    ensures faults { (found : AtOnceFault) → IsAtOnceFault what width count sched.now found
        → IsErrAnd result (λ told. told ≡ found ⊎ IsOutOfMemory told) }
{
    sched.known();
    laws_of_faults();
    laws_of_joined_starts();
    if width < named_slots(what, sched.plans().len() as u32) {
        return Err(AtOnceFault::Narrow);
    }
    match certify_segments(alloc, sched, what, width, count) {
        Ok(()) => {}
        Err(found) => return Err(AtOnceFault::Segment(found)),
    }
    for block in 0..count {
        match find_stray(alloc, sched, what, Segment { width, block }, count) {
            Ok(None) => {}
            Ok(Some((rank, slot))) => {
                return Err(AtOnceFault::Stray {
                    from: block,
                    rank,
                    slot,
                });
            }
            Err(fault) => return Err(AtOnceFault::Segment(SegmentFault { block, fault })),
        }
    }
    Ok(())
}
