//! How an action changes the values of slots and those under way. Contributions are counted before they are added, so
//! that never more than `MAX_WEIGHT` are held.
ghost use Rattle.std.specs.Prelude.{◌≡◌, ℕ, ◌+◌, ◌<◌, ◌≤◌, Some, None, slice_index_or, slice_set, length, map, OnOk, IfOk, IfErr};
ghost use Rattle.goal_limits.specs.Limits.{weight_limit};
ghost use Rattle.goal_graph.specs.Fault.{IsOp};
ghost use Rattle.goal_blocks.specs.declared.cert_fault.CertFault.TheVariants.{NoMemory};
ghost use Rattle.goal_blocks.specs.Slots.{slots, adds};
ghost use Rattle.goal_graph.specs.declared.action.Class.TheVariants.{Begin, Data, Serve};
ghost use Rattle.goal_blocks.specs.Values.{add_all, write};
ghost use Rattle.goal_blocks.specs.Values.{Store as ValueStore};
ghost use Rattle.goal_blocks.specs.Weight.{stored};
ghost use Rattle.goal_blocks.specs.Walk.{IsWalk};
ghost use Rattle.goal_blocks.specs.Channels.{HasNoWildcard};
ghost use Rattle.goal_blocks.specs.Certification.{IsSmall, HasEqualLengths};
ghost use Rattle.goal_blocks.specs.Faults.{IsTooHeavy, IsFirstTooHeavy};
ghost use Rattle.goal_values.specs.Kept.{values};
ghost use Rattle.goal_values.specs.Sums.{HasGrown};
ghost use Rattle.goal_values.specs.Summed.{payload_values, IsPayload};
ghost use Rattle.goal_certify.specs.Carried.{size_of, values_of_parcel, parcel_of, IsOver, AddsOver, AddsWithin, Holds, FollowsOn, GrowsTooHeavy, IsTaken, HasEqualEnds};
ghost use Rattle.goal_certify.specs.WalkSoFar.{act_of};

use super::Walker;
use super::action::PlainAction;
use super::parcel::{Holdings, Parcel};
use goal_blocks::{CertFault, SlotTable};
use goal_graph::{Class, Kind, OpId};
use goal_limits::MAX_WEIGHT;
use goal_values::SlotValues;

/// Adds what the notes of a calc say, in their order, while `others` other contributions are held. `Err` is `Weight`
/// before the first addition by which more than `MAX_WEIGHT` would be held, or `NoMemory`.
pub fn add_notes(
    table: &SlotTable,
    store: &mut SlotValues,
    calc: OpId,
    others: u64,
) -> Result<(), CertFault>
    requires small { IsSmall table.now }
    requires exists { IsOp table.now calc }
    requires ranks { store.old.kept.ranks ≡ length table.now }
    requires light { stored store.old.kept.ranks (values store.old.kept) + others ≤ weight_limit }
    ensures added { OnOk result (values store.new.kept ≡ add_all calc.rank (adds table.now calc) (values store.old.kept)) }
    ensures within { OnOk result (AddsWithin store.old.kept.ranks calc.rank (adds table.now calc) (values store.old.kept) others) }
    ensures over { IfErr result (IsOver (AddsOver store.old.kept.ranks calc.rank (adds table.now calc) (values store.old.kept) others)) }
    ensures ranks { store.new.kept.ranks ≡ store.old.kept.ranks }
    ensures grown { HasGrown store.old.sums store.new.sums }
{
    for adding in table.adds_of(calc) {
        let total = store.held() + others + store.size_at(calc.rank, adding.from);
        if total > MAX_WEIGHT {
            return Err(CertFault::Weight { held: total });
        }
        let Ok(()) = store.add(calc.rank, adding.from, adding.to) else {
            return Err(CertFault::NoMemory);
        };
    }
    Ok(())
}

/// Returns the values that a send reads, while `others` other contributions are under way. `Err` is `Weight`
/// if more than `MAX_WEIGHT` would then be held, or `NoMemory`.
pub fn hand_over(
    table: &SlotTable,
    store: &SlotValues,
    send: OpId,
    others: u64,
) -> Result<Parcel, CertFault>
    requires small { IsSmall table.now }
    requires exists { IsOp table.now send }
    requires ranks { store.now.kept.ranks ≡ length table.now }
    requires light { stored store.now.kept.ranks (values store.now.kept) + others ≤ weight_limit }
    ensures parcel { IfOk result (λ p. values_of_parcel store.now.sums p ≡ parcel_of (map (values store.now.kept send.rank) (slots table.now send))) }
    ensures payload { IfOk result (λ p. IsPayload store.now.sums p.payload) }
    ensures within { OnOk result (stored store.now.kept.ranks (values store.now.kept) + others + size_of (map (values store.now.kept send.rank) (slots table.now send)) ≤ weight_limit) }
    ensures over { IfErr result (IsOver (λ total. (stored store.now.kept.ranks (values store.now.kept) + others + size_of (map (values store.now.kept send.rank) (slots table.now send)) ≡ total) × IsTooHeavy total)) }
{
    let slots = table.slots_of(send);
    let Ok(payload) = store.read(send.rank, slots) else {
        return Err(CertFault::NoMemory);
    };
    let size = store.payload_size(&payload);
    let total = store.held() + others + size;
    if total > MAX_WEIGHT {
        return Err(CertFault::Weight { held: total });
    }
    Ok(Parcel { payload, size })
}

/// Sets the slots of a receive to the values of a parcel, in order. `Err` is always `NoMemory`.
pub fn take(
    table: &SlotTable,
    store: &mut SlotValues,
    recv: OpId,
    parcel: Parcel,
) -> Result<(), CertFault>
    requires small { IsSmall table.now }
    requires exists { IsOp table.now recv }
    requires ranks { store.old.kept.ranks ≡ length table.now }
    requires payload { IsPayload store.old.sums parcel.payload }
    requires lengths { length (slots table.now recv) ≡ length parcel.payload.terms.items }
    requires light { stored store.old.kept.ranks (values store.old.kept) + size_of (payload_values store.old.sums parcel.payload) ≤ weight_limit }
    ensures written { OnOk result (values store.new.kept ≡ write recv.rank (slots table.now recv) (payload_values store.old.sums parcel.payload) (values store.old.kept)) }
    ensures fault { IfErr result (λ fault. fault ≡ NoMemory) }
    ensures ranks { store.new.kept.ranks ≡ store.old.kept.ranks }
    ensures sums { store.new.sums ≡ store.old.sums }
{
    let slots = table.slots_of(recv);
    let Ok(()) = store.write(recv.rank, slots, &parcel.payload) else {
        return Err(CertFault::NoMemory);
    };
    Ok(())
}

// Takes the parcel at a place, which then has none.
fn take_out(parcels: &mut Vec<Option<Parcel>>, place: usize) -> Option<Parcel>
    requires { place < length parcels.old.items }
    ensures taken { result ≡ slice_index_or parcels.old.items place None }
    ensures after { parcels.new.items ≡ slice_set parcels.old.items place None }
{
    parcels[place].take()
}

// Puts a parcel at a place.
fn put_in(parcels: &mut Vec<Option<Parcel>>, place: usize, parcel: Parcel)
    requires { place < length parcels.old.items }
    ensures { parcels.new.items ≡ slice_set parcels.old.items place (Some parcel) }
{
    parcels[place] = Some(parcel);
}

// A calc or a send begins: a calc adds, and a send changes nothing.
fn begin(
    walker: &Walker,
    table: &SlotTable,
    held: &mut Holdings,
    action: PlainAction,
) -> Result<(), CertFault>
    requires taken { IsTaken walker.now table.now action held.old }
    requires class { action.class ≡ Begin }
    ensures follows { OnOk result (FollowsOn walker.now held.old held.new) }
    ensures over { IfErr result (GrowsTooHeavy walker.now held.old) }
{
    walker.known();
    match walker.sched().op(action.op).kind {
        Kind::Calc { .. } => add_notes(table, &mut held.store, action.op, held.carried),
        Kind::Send { .. } => Ok(()),
        Kind::Recv { .. } => unreachable!(),
    }
}

// A receive takes the values of its partner.
fn serve(
    walker: &Walker,
    table: &SlotTable,
    held: &mut Holdings,
    action: PlainAction,
) -> Result<(), CertFault>
    requires taken { IsTaken walker.now table.now action held.old }
    requires ends { HasEqualEnds walker.now.plans }
    requires class { action.class ≡ Serve }
    ensures follows { OnOk result (FollowsOn walker.now held.old held.new) }
    ensures fault { IfErr result (λ fault. fault ≡ NoMemory) }
{
    walker.known();
    let Some(send) = walker.partner(action.op) else {
        unreachable!()
    };
    let place = walker.sched().index(send) as usize;
    let Some(parcel) = take_out(&mut held.parcels, place) else {
        unreachable!()
    };
    held.carried -= parcel.size;
    match take(table, &mut held.store, action.op, parcel) {
        Ok(()) => Ok(()),
        Err(fault) => Err(fault),
    }
}

// A send reads the values that it sends.
fn send(
    walker: &Walker,
    table: &SlotTable,
    held: &mut Holdings,
    action: PlainAction,
) -> Result<(), CertFault>
    requires taken { IsTaken walker.now table.now action held.old }
    requires class { action.class ≡ Data }
    ensures follows { OnOk result (FollowsOn walker.now held.old held.new) }
    ensures over { IfErr result (GrowsTooHeavy walker.now held.old) }
{
    walker.known();
    let parcel = match hand_over(table, &held.store, action.op, held.carried) {
        Ok(parcel) => parcel,
        Err(fault) => return Err(fault),
    };
    held.carried += parcel.size;
    let place = walker.sched().index(action.op) as usize;
    put_in(&mut held.parcels, place, parcel);
    Ok(())
}

/// Applies an action that has just happened to what is held.
pub fn apply(
    walker: &Walker,
    table: &SlotTable,
    held: &mut Holdings,
    action: PlainAction,
) -> Result<(), CertFault>
    requires taken { IsTaken walker.now table.now action held.old }
    requires ends { HasEqualEnds walker.now.plans }
    ensures follows { OnOk result (FollowsOn walker.now held.old held.new) }
    ensures over { IfErr result (GrowsTooHeavy walker.now held.old) }
{
    walker.known();
    match action.class {
        Class::Begin => begin(walker, table, held, action),
        Class::Data => send(walker, table, held, action),
        Class::Serve => match serve(walker, table, held, action) {
            Ok(()) => Ok(()),
            Err(fault) => Err(fault),
        },
        Class::Arrive => Ok(()),
        Class::Post => Ok(()),
    }
}

/// Walks to the end, and applies each action to what is held. Stops with `Weight` at the first action after which too
/// much is held, or with `NoMemory`.
pub fn carry(walker: &mut Walker, table: &SlotTable, held: &mut Holdings) -> Result<(), CertFault>
    requires small { IsSmall walker.old.plans }
    requires ends { HasEqualEnds walker.old.plans }
    requires table { table.now ≡ walker.old.plans }
    requires held { (first : ValueStore) × Holds walker.old.plans first walker.old.history held.old }
    ensures plans { walker.new.plans ≡ walker.old.plans }
    ensures walk { OnOk result (IsWalk walker.new.plans walker.new.history) }
    ensures held { OnOk result ((first : ValueStore) → Holds walker.old.plans first walker.old.history held.old
        → Holds walker.new.plans first walker.new.history held.new) }
    ensures over { IfErr result (λ fault. (first : ValueStore) → Holds walker.old.plans first walker.old.history held.old
        → IsOver (λ total. IsFirstTooHeavy walker.new.plans first walker.new.history total) fault) }
{
    'steps: while let Some(action) = walker.next() {
        match apply(walker, table, held, action) {
            Ok(()) => {}
            Err(stopped) => return Err(stopped),
        }
    }
    Ok(())
}
