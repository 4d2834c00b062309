//! The first fault of certification: what is too large to be certified.
ghost use Rattle.std.specs.Prelude.{◌≡◌, ◌≤◌, ◌↔◌, ◌^◌, All, Any, length, sum_by, OnOk, OnSome, IfErr, IfSome, IfNone, IsTrue};
ghost use Rattle.goal_blocks.specs.Certification.{NamesLowSlots, moved_count};
ghost use Rattle.goal_certify.specs.Stages.{IsFree, IsStopped};

use goal_blocks::CertFault;
use goal_graph::{Note, Sched};
use goal_limits::{MAX_CERTIFIED_OPS, MAX_MOVED, MAX_NOTES, MAX_SLOT};

// Whether a note names no slot that is too high.
fn names_low_slots(note: Note) -> bool
    ensures { IsTrue result ↔ NamesLowSlots note }
{
    match note {
        Note::Moves { lo, hi, .. } => lo <= MAX_SLOT && hi <= MAX_SLOT,
        Note::Adds { from, to, .. } => from <= MAX_SLOT && to <= MAX_SLOT,
    }
}

/// Returns how many slots a note moves.
pub fn count_moved(note: Note) -> u64
    ensures moved { result ≡ moved_count note }
    ensures few { result ≤ 2 ^ 32 }
{
    match note {
        Note::Moves { lo, hi, .. } => (u64::from(hi) + 1).saturating_sub(u64::from(lo)),
        Note::Adds { .. } => 0,
    }
}

// How many slots the notes of a rank move, or `None` if one of them names a slot that is too high.
fn count_all_moved(notes: &[Note]) -> Option<u64>
    requires { length notes.now ≤ MAX_NOTES }
    ensures low { OnSome result (All NamesLowSlots notes.now) }
    ensures moved { IfSome result (λ count. count ≡ sum_by moved_count notes.now) }
    ensures few { IfSome result (λ count. count ≤ 2 ^ 36) }
    ensures high { IfNone result (Any (λ note. ¬ (NamesLowSlots note)) notes.now) }
{
    let mut count: u64 = 0;
    for note in notes {
        if !names_low_slots(*note) {
            return None;
        }
        count += count_moved(*note);
    }
    Some(count)
}

/// Reports the least rank with one of these faults: it has too many operations; a note of it has a slot that is too
/// high; its moves and those of all lesser ranks name too many slots. Takes one pass over the notes.
pub fn check_sizes(sched: &Sched) -> Result<(), CertFault>
    ensures free { OnOk result (IsFree sched.now 0 1) }
    ensures fault { IfErr result (IsStopped sched.now 0 1) }
{
    let mut moved: u64 = 0;
    for (rank, plan) in sched.plans().iter().enumerate() {
        let rank = rank as u32;
        if plan.ops.len() > MAX_CERTIFIED_OPS {
            return Err(CertFault::TooLarge { rank });
        }
        match count_all_moved(&plan.notes) {
            Some(count) => moved += count,
            None => return Err(CertFault::TooLarge { rank }),
        }
        if moved > MAX_MOVED {
            return Err(CertFault::TooLarge { rank });
        }
    }
    Ok(())
}
