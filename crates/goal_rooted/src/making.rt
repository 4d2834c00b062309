//! The schedule of a collective, or why there is none.
ghost use Rattle.std.specs.Prelude.{◌≡◌, ◌≢◌, ◌≤◌, false, OnOk, IfOk, IfErr, IsErrOf, IsOkUnless};
ghost use Rattle.goal_graph.specs.Fault.{IsAccepted};
ghost use Rattle.goal_limits.specs.Makers.{is_made_by_generate};
ghost use Rattle.goal_blocks.specs.Certified.{IsCertifiedFor};
ghost use Rattle.goal_blocks.specs.Right.{IsCertifiedByProof, IsRightFor};
ghost use Rattle.goal_blocks.specs.Generated.{made, IsPossible};
ghost use Rattle.goal_rooted.specs.Faults.{IsRootedFault};

use crate::fault::RootedFault;
use crate::formula::RootedRequest;
use goal_blocks::{Collective, schedule_by};
use goal_graph::Sched;
use goal_limits::MAX_BYTES;
use std::alloc::Global;

/// Returns the schedule of a reduce, gather, scatter, reduce_scatter or scan for `ranks` ranks, with messages of
/// `bytes` bytes. It makes one pass over the ranks and their operations.
///
/// # Errors
///
/// The first of these: no rank, or more than the collective may have; a root that is not a rank; out of memory.
pub fn generate_rooted(
    alloc: Global,
    what: Collective,
    ranks: u32,
    bytes: u64,
) -> Result<Sched, RootedFault>
    requires made_here { is_made_by_generate what ≡ false }
    requires size { bytes ≤ MAX_BYTES }

    // The schedule is that of the formula.
    ensures made { IfOk result (λ sched. sched ≡ made what ranks bytes) }
    ensures accepted { IfOk result (λ sched. IsAccepted sched) }
    ensures exact { OnOk result (IsPossible what ranks) }

    // It is right in every interleaving, and certified unless it holds too many contributions.
    ensures certified { IsCertifiedByProof what ranks → IfOk result (λ sched. IsCertifiedFor what sched) }
    ensures right { IfOk result (λ sched. IsRightFor what sched) }

    // A fault is returned exactly if it is the first; memory can run out only if there is none.
    ensures fault { IfErr result (λ fault. IsRootedFault what ranks fault) }
    ensures faults { (fault : RootedFault) → IsRootedFault what ranks fault → fault ≢ RootedFault.NoMemory
        → IsErrOf result fault }
    ensures possible { IsPossible what ranks → IsOkUnless result RootedFault.NoMemory }
{
    let limit = what.most_ranks();
    if ranks == 0 || limit < ranks {
        return Err(RootedFault::Ranks { limit });
    }
    if !what.has_root(ranks) {
        return Err(RootedFault::Root);
    }
    let request = RootedRequest { what, ranks, bytes };
    match schedule_by(alloc, what, ranks, bytes, &request) {
        Ok(sched) => Ok(sched),
        Err(_) => Err(RootedFault::NoMemory),
    }
}
