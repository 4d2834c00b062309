//! Races: two operations of a rank touch one slot, one of them writes it, and neither ends before the other starts.
//!
//! Needs never leave a rank, so each rank is checked on its own:
//!
//! - `before` makes for each operation a row of bits: the operations that end before it starts.
//! - `table` makes for each slot the row of the operations that touch it, and of those that write it.
//! - `ordered` tests touch by touch whether the operations that share a slot are ordered as their numbers are. In most
//!   ranks they are.
//! - For the other ranks `table` makes a row for each operation: those with which it shares a slot that one of the two
//!   writes. `search` finds the least pair in these rows, and its least slot.
ghost use Rattle.std.specs.Prelude.{◌≡◌, ◌*◌, ◌<◌, ◌≤◌, true, false, length, OnOk, IfOk, IfErr};
ghost use Rattle.goal_limits.specs.Limits.{certified_op_limit};
ghost use Rattle.goal_graph.specs.Schedule.{ops_at};
ghost use Rattle.goal_blocks.specs.Certification.{IsSmall};
ghost use Rattle.goal_certify.specs.Stages.{IsFree, IsStopped};
ghost use Rattle.goal_certify.specs.Touches.{AreTouches};
ghost use Rattle.goal_certify.specs.Table.{AreEmpty, AreMarked};
ghost use Rattle.goal_certify.specs.Before.{AreRows};
ghost use Rattle.goal_certify.specs.Races.{IsFirstOfRank};

mod before;
mod ordered;
mod rows;
mod search;
mod table;
mod touches;

use before::rows_before;
use goal_blocks::CertFault;
use goal_graph::Sched;
use ordered::are_ordered;
use rows::clear_rows;
use search::{first_open, least_slot};
use std::alloc::{AllocError, Global};
use table::{mark, shared_rows, wipe};
use touches::{Touch, touches_of_rank};

/// Searches for two operations of a rank that race. `Ok` if there are none.
///
/// # Errors
///
/// The least race, or `NoMemory`.
pub fn check_races(alloc: Global, sched: &Sched) -> Result<(), CertFault>
    requires small { IsSmall sched.now }
    ensures free { OnOk result (IsFree sched.now 5 6) }
    ensures fault { IfErr result (λ fault. IsStopped sched.now 5 6 fault) }
{
    let mut touchers = Vec::new(alloc);
    let mut writers = Vec::new(alloc);
    let mut before = Vec::new(alloc);
    let ranks = sched.plans().len() as u32;
    for rank in 0..ranks {
        let found = race_in_rank(alloc, sched, rank, &mut touchers, &mut writers, &mut before)?;
        if let Some(
            RankRace {
                first,
                second,
                slot,
            },
        ) = found
        {
            return Err(CertFault::Race {
                rank,
                first,
                second,
                slot,
            });
        }
    }
    Ok(())
}

/// Two operations of a rank that race, and their slot.
#[derive(Clone, Copy)]
pub(crate) struct RankRace {
    /// The lesser operation.
    pub first: u32,
    /// The greater operation.
    pub second: u32,
    /// The least slot that both touch and one of them writes.
    pub slot: u32,
}

// The least race of a rank, if there is one. All rows are empty before and after.
fn race_in_rank(
    alloc: Global,
    sched: &Sched,
    rank: u32,
    touchers: &mut Vec<u64>,
    writers: &mut Vec<u64>,
    before: &mut Vec<u64>,
) -> Result<Option<RankRace>, AllocError>
    requires small { IsSmall sched.now }
    requires rank { rank < length sched.now }
    requires touchers { AreEmpty touchers.old.items }
    requires writers { AreEmpty writers.old.items }
    requires before { AreEmpty before.old.items }
    ensures race { IfOk result (IsFirstOfRank sched.now rank) }
    ensures touchers { OnOk result (AreEmpty touchers.new.items) }
    ensures writers { OnOk result (AreEmpty writers.new.items) }
    ensures before { OnOk result (AreEmpty before.new.items) }
{
    let plan = &sched.plans()[rank as usize];
    let touches = touches_of_rank(alloc, plan)?;
    mark(touchers, &touches, false)?;
    mark(writers, &touches, true)?;
    rows_before(alloc, sched, rank, before)?;
    let found = find_race(alloc, sched, rank, &touches, touchers, writers, before)?;
    wipe(touchers, &touches, false);
    wipe(writers, &touches, true);
    clear_rows(before, sched.op_count(rank) as usize);
    Ok(found)
}

// The least race of a rank with these touches, if there is one.
fn find_race(
    alloc: Global,
    sched: &Sched,
    rank: u32,
    touches: &[Touch],
    touchers: &[u64],
    writers: &[u64],
    before: &[u64],
) -> Result<Option<RankRace>, AllocError>
    requires rank { rank < length sched.now }
    requires few { length (ops_at sched.now rank) ≤ certified_op_limit }
    requires touches { AreTouches sched.now rank touches.now }
    requires touchers { AreMarked false touches.now touchers.now }
    requires writers { AreMarked true touches.now writers.now }
    requires room { 32 * length (ops_at sched.now rank) ≤ length before.now }
    requires before { AreRows sched.now rank before.now (λ op. op < length (ops_at sched.now rank)) }
    ensures { IfOk result (IsFirstOfRank sched.now rank) }
{
    let count = sched.op_count(rank);
    if are_ordered(before, touches, touchers, writers) {
        return Ok(None);
    }
    let shared = shared_rows(alloc, touches, touchers, writers, count as usize)?;
    let Some(pair) = first_open(before, &shared, count) else {
        return Ok(None);
    };
    match least_slot(touches, touchers, writers, pair) {
        Some(slot) => Ok(Some(RankRace {
            first: pair.first,
            second: pair.second,
            slot,
        })),
        None => unreachable!(),
    }
}
