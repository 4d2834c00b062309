//! The faults of channels: wildcards, two operations at one end, ends without the other, and lengths that differ.
ghost use Rattle.std.specs.Prelude.{◌≡◌, ◌↔◌, length, map, OnOk, IfErr, IfSome, IfNone, IsTrue};
ghost use Rattle.goal_graph.specs.declared.action.OpId.{OpId};
ghost use Rattle.goal_graph.specs.Schedule.{operations};
ghost use Rattle.goal_graph.specs.Fault.{IsOp};
ghost use Rattle.goal_blocks.specs.Channels.{AreOfOneChannel, HasNoWildcard, HasNoDoubleChannel};
ghost use Rattle.goal_blocks.specs.Slots.{slots};
ghost use Rattle.goal_blocks.specs.Faults.{IsLeast, op_key, IsWildcard, AreDouble, IsUnpaired, HaveOtherLengths};
ghost use Rattle.goal_certify.specs.Ends.{AreEndsOf};
ghost use Rattle.goal_certify.specs.Stages.{IsFree, IsStopped};

use crate::ends::{End, Ends};
use crate::slot_counts::slot_counts;
use goal_blocks::CertFault;
use goal_graph::{Kind, OpId, Sched};
use std::alloc::Global;

// Whether a receive takes any source or any tag.
fn is_wildcard(sched: &Sched, id: OpId) -> bool
    requires { IsOp sched.now id }
    ensures { IsTrue result ↔ IsWildcard sched.now id }
{
    match sched.op(id).kind {
        Kind::Recv { from, tag, .. } => from.is_none() || tag.is_none(),
        Kind::Calc { .. } | Kind::Send { .. } => false,
    }
}

// The first receive that takes any source or any tag.
fn check_wildcards(sched: &Sched) -> Result<(), CertFault>
    ensures free { OnOk result (IsFree sched.now 1 2) }
    ensures fault { IfErr result (IsStopped sched.now 1 2) }
{
    for id in sched.operations() {
        if is_wildcard(sched, *id) {
            return Err(CertFault::Wildcard { op: *id });
        }
    }
    Ok(())
}

// The least operation before this one that has its kind and channel.
fn double_of(sched: &Sched, ends: &Ends, id: OpId) -> Option<OpId>
    requires exists { IsOp sched.now id }
    requires ends { AreEndsOf sched.now ends.now }
    ensures least { IfSome result (IsLeast op_key (λ first. AreDouble sched.now first id)) }
    ensures none { IfNone result ((first : OpId) → ¬ (AreDouble sched.now first id)) }
{
    match End::of(id, sched.op(id).kind) {
        Some(end) => match ends.first(end) {
            Some(first) if first != id => Some(first),
            _ => None,
        },
        None => None,
    }
}

// The first operation that has the kind and channel of one before it.
fn check_doubles(sched: &Sched, ends: &Ends) -> Result<(), CertFault>
    requires { AreEndsOf sched.now ends.now }
    ensures free { OnOk result (IsFree sched.now 2 3) }
    ensures fault { IfErr result (IsStopped sched.now 2 3) }
{
    for id in sched.operations() {
        if let Some(first) = double_of(sched, ends, *id) {
            return Err(CertFault::DoubleChannel { first, second: *id });
        }
    }
    Ok(())
}

// Whether a send has no receive of its channel, or a receive no send.
fn is_unpaired(sched: &Sched, ends: &Ends, id: OpId) -> bool
    requires exists { IsOp sched.now id }
    requires ends { AreEndsOf sched.now ends.now }
    requires no_wildcard { HasNoWildcard sched.now }
    ensures { IsTrue result ↔ IsUnpaired sched.now id }
{
    match End::of(id, sched.op(id).kind) {
        Some(end) => ends.first(end.other()).is_none(),
        None => false,
    }
}

// The first send without a receive of its channel, or receive without a send.
fn check_pairs(sched: &Sched, ends: &Ends) -> Result<(), CertFault>
    requires ends { AreEndsOf sched.now ends.now }
    requires no_wildcard { HasNoWildcard sched.now }
    ensures free { OnOk result (IsFree sched.now 3 4) }
    ensures fault { IfErr result (IsStopped sched.now 3 4) }
{
    for id in sched.operations() {
        if is_unpaired(sched, ends, *id) {
            return Err(CertFault::Unpaired { op: *id });
        }
    }
    Ok(())
}

// The receive of the channel of a send.
fn receive_of(sched: &Sched, ends: &Ends, send: OpId) -> Option<OpId>
    requires exists { IsOp sched.now send }
    requires ends { AreEndsOf sched.now ends.now }
    requires no_double { HasNoDoubleChannel sched.now }
    ensures found { IfSome result (AreOfOneChannel sched.now send) }
    ensures only { IfSome result (λ recv. (x : OpId) → AreOfOneChannel sched.now send x → x ≡ recv) }
    ensures none { IfNone result ((x : OpId) → ¬ (AreOfOneChannel sched.now send x)) }
{
    match End::of(send, sched.op(send).kind) {
        Some(end) if end.is_send => ends.first(end.other()),
        _ => None,
    }
}

// The receive of the channel of a send, if its number of slots differs.
fn other_length(sched: &Sched, ends: &Ends, counts: &[u64], send: OpId) -> Option<OpId>
    requires exists { IsOp sched.now send }
    requires ends { AreEndsOf sched.now ends.now }
    requires no_double { HasNoDoubleChannel sched.now }
    requires counts { counts.now ≡ map (λ x. length (slots sched.now x)) (operations sched.now) }
    ensures least { IfSome result (IsLeast op_key (λ recv. HaveOtherLengths sched.now send recv)) }
    ensures none { IfNone result ((recv : OpId) → ¬ (HaveOtherLengths sched.now send recv)) }
{
    match receive_of(sched, ends, send) {
        Some(recv) => {
            let sent = counts[sched.index(send) as usize];
            let received = counts[sched.index(recv) as usize];
            if sent == received { None } else { Some(recv) }
        }
        None => None,
    }
}

// The first send whose number of slots differs from that of the receive of its channel.
fn check_lengths(sched: &Sched, ends: &Ends, counts: &[u64]) -> Result<(), CertFault>
    requires ends { AreEndsOf sched.now ends.now }
    requires no_double { HasNoDoubleChannel sched.now }
    requires counts { counts.now ≡ map (λ x. length (slots sched.now x)) (operations sched.now) }
    ensures free { OnOk result (IsFree sched.now 4 5) }
    ensures fault { IfErr result (IsStopped sched.now 4 5) }
{
    for id in sched.operations() {
        if let Some(recv) = other_length(sched, ends, counts, *id) {
            return Err(CertFault::Lengths { send: *id, recv });
        }
    }
    Ok(())
}

// Whether the operations are in pairs at the ends of channels, the two of each with the same number of slots. It takes
// one pass, without searches.
fn are_sound(sched: &Sched, ends: &Ends, counts: &[u64]) -> bool
    requires ends { AreEndsOf sched.now ends.now }
    requires no_wildcard { HasNoWildcard sched.now }
    requires counts { counts.now ≡ map (λ x. length (slots sched.now x)) (operations sched.now) }
    ensures { IsTrue result → IsFree sched.now 2 5 }
{
    let Some(pairs) = ends.pairs() else {
        return false;
    };
    for number in 0..pairs {
        let (receive, send) = ends.pair(number);
        if counts[sched.index(receive) as usize] != counts[sched.index(send) as usize] {
            return false;
        }
    }
    true
}

/// Returns the first fault of channels: a wildcard, then two operations at one end of a channel, then an end without
/// the other, then numbers of slots that differ. The last three are searched for only if one pass over the ends does
/// not rule them out.
pub fn check_channels(alloc: Global, sched: &Sched) -> Result<(), CertFault>
    ensures free { OnOk result (IsFree sched.now 1 5) }
    ensures fault { IfErr result (IsStopped sched.now 1 5) }
{
    check_wildcards(sched)?;
    let ends = Ends::of(alloc, sched)?;
    let counts = slot_counts(alloc, sched)?;
    if are_sound(sched, &ends, &counts) {
        return Ok(());
    }
    check_doubles(sched, &ends)?;
    check_pairs(sched, &ends)?;
    check_lengths(sched, &ends, &counts)
}
