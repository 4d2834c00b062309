// The last three kinds of faults, which the walk finds: an operation has no end, too many contributions are held at
// some point, or a slot does not hold the wanted value at the end.
ghost use Rattle.std.specs.Prelude.{◌≡◌, ◌+◌, ◌*◌, ◌^◌, ◌≤◌, [], None, replicate, OnOk, IfOk, IfErr, IfSome, IfNone};
ghost use Rattle.goal_blocks.specs.Channels.{HasNoWildcard};
ghost use Rattle.goal_blocks.specs.declared.cert_fault.CertFault.TheVariants.{Wrong, NoMemory};
ghost use Rattle.goal_blocks.specs.Segments.{IsCertifiedIn};
ghost use Rattle.goal_blocks.specs.Certification.{IsSmall, HasEqualLengths};
ghost use Rattle.goal_certify.specs.AtOnce.{IsCertifiedApart, IsFaultApart};
ghost use Rattle.goal_certify.specs.Left.{IsLeftIn, IsTooMuchIn};
ghost use Rattle.goal_certify.specs.Stages.{IsFreeIn, IsStoppedIn, SpeaksOfValues, NoneStalls};

use super::Walker;
use super::parcel::{Holdings, Parcel};
use super::stalls::check_stalls;
use super::stray::first_stray;
use super::values::carry;
use goal_blocks::{CertFault, Collective, Segment, SlotTable, initial_size, laws_of_faults};
use goal_graph::Sched;
use goal_limits::MAX_WEIGHT;
use goal_values::SlotValues;
use std::alloc::{AllocError, Global};

// No parcel for any of `count` operations.
fn no_parcels(alloc: Global, count: u32) -> Result<Vec<Option<Parcel>>, AllocError>
    ensures { IfOk result (λ parcels. parcels.items ≡ replicate count None) }
{
    let mut parcels = Vec::with_capacity(alloc, count as usize)?;
    for _number in 0..count {
        parcels.push(None)?;
    }
    Ok(parcels)
}

// Walks from the start of a segment to the end, and returns the final values of the slots. Stops with a fault at the
// first point at which more contributions are held than the limit. The walker has taken no step yet.
fn final_values(
    alloc: Global,
    walker: &mut Walker,
    what: Collective,
    segment: Segment,
) -> Result<SlotValues, CertFault>
    requires fits { segment.block * segment.width + segment.width ≤ 2 ^ 32 }
    requires small { IsSmall walker.old.plans }
    requires no_wildcard { HasNoWildcard walker.old.plans }
    requires lengths { HasEqualLengths walker.old.plans }
    requires start { walker.old.history ≡ [] }
    ensures plans { walker.new.plans ≡ walker.old.plans }
    ensures left { IfOk result (λ s. IsLeftIn what segment walker.old.plans s.kept) }
    ensures fault { IfErr result (IsTooMuchIn what segment walker.old.plans) }
{
    let sched = walker.sched();
    let ranks = sched.plans().len() as u32;
    let held = initial_size(ranks, what);
    if held > MAX_WEIGHT {
        return Err(CertFault::Weight { held });
    }
    let Ok(table) = SlotTable::new(alloc, sched) else {
        return Err(CertFault::NoMemory);
    };
    let store = SlotValues::new(alloc, ranks, what, segment);
    let parcels = no_parcels(alloc, sched.count())?;
    let mut held = Holdings {
        store,
        parcels,
        carried: 0,
    };
    match carry(walker, &table, &mut held) {
        Ok(()) => {}
        Err(fault) => {
            walker.known();
            return Err(fault);
        }
    }
    Ok(held.store)
}

// Reports the first point of the walk at which more contributions are held than the limit. If there is none, reports
// the least slot whose final value is not what the collective wants in the segment. The walker has taken no step yet.
fn check_values(
    alloc: Global,
    walker: &mut Walker,
    what: Collective,
    segment: Segment,
) -> Result<(), CertFault>
    requires fits { segment.block * segment.width + segment.width ≤ 2 ^ 32 }
    requires small { IsSmall walker.old.plans }
    requires no_wildcard { HasNoWildcard walker.old.plans }
    requires lengths { HasEqualLengths walker.old.plans }
    requires start { walker.old.history ≡ [] }
    ensures plans { walker.new.plans ≡ walker.old.plans }
    ensures free { OnOk result (IsFreeIn what segment walker.old.plans 7 9) }
    ensures fault { IfErr result (IsStoppedIn what segment walker.old.plans 7 9) }
{
    let store = match final_values(alloc, walker, what, segment) {
        Ok(store) => store,
        Err(fault) => return Err(fault),
    };
    match store.first_wrong(what, segment) {
        Ok(Some((rank, slot))) => Err(CertFault::Wrong { rank, slot }),
        Ok(None) => Ok(()),
        Err(_) => Err(CertFault::NoMemory),
    }
}

/// Walks once through a schedule, and reports the first of these faults that it has:
///
/// 1. the least operation without an end;
/// 2. the first point at which more contributions are held than the limit;
/// 3. the least slot whose final value is not what the collective wants in the segment.
///
/// `NoMemory` if memory runs out.
pub fn check_walk(
    alloc: Global,
    sched: &Sched,
    what: Collective,
    segment: Segment,
) -> Result<(), CertFault>
    requires fits { segment.block * segment.width + segment.width ≤ 2 ^ 32 }
    requires small { IsSmall sched.now }
    requires no_wildcard { HasNoWildcard sched.now }
    requires lengths { HasEqualLengths sched.now }
    ensures free { OnOk result (IsFreeIn what segment sched.now 6 9) }
    ensures fault { IfErr result (IsStoppedIn what segment sched.now 6 9) }
    ensures stalls_first { IfErr result (λ fault. SpeaksOfValues fault → NoneStalls sched.now) }
{
    let Ok(mut walker) = Walker::new(alloc, sched) else {
        return Err(CertFault::NoMemory);
    };
    let found = check_values(alloc, &mut walker, what, segment);
    check_stalls(&mut walker)?;
    found
}

/// Walks through a schedule that is certified in a segment, with that segment alone at the start. Returns the least
/// slot in the block of another of the `count` segments that is not empty at the end, or `NoMemory`.
pub fn find_stray(
    alloc: Global,
    sched: &Sched,
    what: Collective,
    segment: Segment,
    count: u32,
) -> Result<Option<(u32, u32)>, CertFault>
    requires fits { segment.block * segment.width + segment.width ≤ 2 ^ 32 }
    requires blocks { count * segment.width ≤ 2 ^ 32 }
    requires certified { IsCertifiedIn what segment.width segment.block sched.now }
    ensures none { IfOk result (λ found. IfNone found (IsCertifiedApart what segment.width count segment.block sched.now)) }
    ensures some { IfOk result (λ found. IfSome found (λ p. IsFaultApart what segment.width count segment.block sched.now (Wrong p.0 p.1))) }
    ensures fault { IfErr result (λ fault. fault ≡ NoMemory) }
{
    laws_of_faults();
    let Ok(mut walker) = Walker::new(alloc, sched) else {
        return Err(CertFault::NoMemory);
    };
    match final_values(alloc, &mut walker, what, segment) {
        Ok(store) => Ok(first_stray(&store, sched.plans().len() as u32, segment, count)),
        Err(fault) => Err(fault),
    }
}
