// Whether an operation is ready, by the needs from its cursor on.
ghost use Rattle.std.specs.Prelude.{◌≡◌, ◌<◌, ◌+◌, if◌then◌else◌};
ghost use Rattle.goal_graph.specs.Allowed.{is_ready};
ghost use Rattle.goal_graph.specs.Fault.{IsOp};
ghost use Rattle.goal_certify.specs.Cursors.{IsCursorOf};

use super::cursor::Cursor;
use super::progress::Progress;
use goal_graph::OpId;
use sim_order::Steps;
use std::marker::Brand;
use std::sync::ledger::{Blank, Ledger};

/// Returns whether all needs of an operation are met. Moves its cursor to the first need that is not met, or to the
/// end. The next call starts there.
///
/// `looked`: the counter rises by the number of places that the cursor moves, and by 1 if a need is not met. Only
/// probes of needs that tick this counter are bounded.
pub fn is_ready<P: Progress, L: Ledger>(
    progress: &P,
    id: OpId,
    cursor: &mut Cursor,
    looks: &mut Steps<L>,
) -> bool
    requires op { IsOp (P.plans progress.now) id }
    requires cursor { IsCursorOf (P.plans progress.now) (P.eager progress.now) (P.actions progress.now) id cursor.old }
    ensures ready { result ≡ is_ready (P.plans progress.now) (P.eager progress.now) (P.actions progress.now) id }
    ensures cursor { IsCursorOf (P.plans progress.now) (P.eager progress.now) (P.actions progress.now) id cursor.new }
    ensures looked { looks.new + cursor.old.at ≡ looks.old + cursor.new.at + (if result then 0 else 1) }
{
    // a schedule has at most MAX_DEPS dependencies, so a place among them fits 32 bits
    let _plans = progress.sched().plans();
    let needs = progress.needs(id);
    if needs.is_empty() {
        return true;
    }
    for at in cursor.at as usize..needs.len() {
        let need = needs[at];
        let needed = OpId {
            rank: id.rank,
            op: need.op,
        };
        looks.tick();
        if !progress.is_met(need.when, needed) {
            *cursor = Cursor { at: at as u32 };
            return false;
        }
    }
    *cursor = Cursor {
        at: needs.len() as u32,
    };
    true
}

/// Returns the same as [`is_ready`], without a counter.
pub fn is_ready_uncounted<P: Progress>(progress: &P, id: OpId, cursor: &mut Cursor) -> bool
    requires op { IsOp (P.plans progress.now) id }
    requires cursor { IsCursorOf (P.plans progress.now) (P.eager progress.now) (P.actions progress.now) id cursor.old }
    ensures ready { result ≡ is_ready (P.plans progress.now) (P.eager progress.now) (P.actions progress.now) id }
    ensures cursor { IsCursorOf (P.plans progress.now) (P.eager progress.now) (P.actions progress.now) id cursor.new }
{
    is_ready_once::<P, Brand>(progress, id, cursor, Blank::new(1))
}

// Returns the same, with a new counter.
fn is_ready_once<P: Progress, L: Ledger>(
    progress: &P,
    id: OpId,
    cursor: &mut Cursor,
    blank: Blank,
) -> bool
    requires name { blank.name ≡ L.name }
    requires parts { blank.parts ≡ L.parts }
    requires some { 0 < blank.parts }
    requires op { IsOp (P.plans progress.now) id }
    requires cursor { IsCursorOf (P.plans progress.now) (P.eager progress.now) (P.actions progress.now) id cursor.old }
    ensures ready { result ≡ is_ready (P.plans progress.now) (P.eager progress.now) (P.actions progress.now) id }
    ensures cursor { IsCursorOf (P.plans progress.now) (P.eager progress.now) (P.actions progress.now) id cursor.new }
{
    let mut looks = Steps::<L>::new(blank);
    is_ready(progress, id, cursor, &mut looks)
}
