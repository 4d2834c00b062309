//! The schedule of a collective, or why there is none.
ghost use Rattle.std.specs.Prelude.{◌≡◌, ◌≢◌, ◌≤◌, true, OnOk, IfOk, IfErr, IsErrOf, IsOkUnless};
ghost use Rattle.goal_graph.specs.Fault.{IsAccepted};
ghost use Rattle.goal_limits.specs.Makers.{is_made_by_generate};
ghost use Rattle.goal_blocks.specs.Certified.{IsCertifiedFor};
ghost use Rattle.goal_blocks.specs.Right.{IsCertifiedByProof, IsRightFor};
ghost use Rattle.goal_blocks.specs.Generated.{made, IsPossible};
ghost use Rattle.goal_blocks.specs.GenFaults.{IsGenFault};

use crate::formula::CollectiveRequest;
use goal_blocks::{Collective, GenFault, possible, schedule_by};
use goal_graph::Sched;
use goal_limits::MAX_BYTES;
use std::alloc::Global;

/// Returns the schedule of a broadcast, barrier, allgather, allreduce or alltoall for `ranks` ranks, with messages of
/// `bytes` bytes. It makes one pass over the ranks and their operations.
///
/// # Errors
///
/// The first of these: no rank, or more than the collective may have; a root that is not a rank; an allreduce whose
/// number of ranks is not a power of two; out of memory.
pub fn generate(alloc: Global, what: Collective, ranks: u32, bytes: u64) -> Result<Sched, GenFault>
    requires made_here { is_made_by_generate what ≡ true }
    requires size { bytes ≤ MAX_BYTES }

    // The schedule is that of the formula.
    ensures made { IfOk result (λ sched. sched ≡ made what ranks bytes) }
    ensures accepted { IfOk result (λ sched. IsAccepted sched) }
    ensures exact { OnOk result (IsPossible what ranks) }

    // It is right in every interleaving, and certified unless it holds too many contributions.
    ensures certified { IsCertifiedByProof what ranks → IfOk result (λ sched. IsCertifiedFor what sched) }
    ensures right { IfOk result (λ sched. IsRightFor what sched) }

    // A fault is returned exactly if it is the first; memory can run out only if there is none.
    ensures fault { IfErr result (λ fault. IsGenFault what ranks fault) }
    ensures faults { (fault : GenFault) → IsGenFault what ranks fault → fault ≢ GenFault.NoMemory
        → IsErrOf result fault }
    ensures possible { IsPossible what ranks → IsOkUnless result GenFault.NoMemory }
{
    possible(what, ranks)?;
    let request = CollectiveRequest { what, ranks, bytes };
    schedule_by(alloc, what, ranks, bytes, &request)
}
