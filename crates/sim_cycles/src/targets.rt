//! Which operations stuck ones wait for, by places in their list.
ghost use Rattle.std.specs.Prelude.{◌≡◌, ◌<◌, length, Contains, IfOk};
ghost use Rattle.sim_cycles.specs.Knots.{named, stuck_ops};
ghost use Rattle.sim_cycles.specs.Laws.{IsInOrder, NamesListed};
ghost use Rattle.sim_cycles.specs.Places.{op_at, AreTargets};

use goal_graph::{OpId, Stuck, Why};
use std::alloc::{AllocError, Global};

/// Returns for each stuck operation the place of the one that its reason names, or its own if it is alone. `Err` means
/// out of memory.
pub fn targets(alloc: Global, list: &[Stuck]) -> Result<Vec<usize>, AllocError>
    requires order { IsInOrder list.now }
    requires listed { NamesListed list.now }
    ensures { IfOk result (λ targets. AreTargets list.now targets.items) }
{
    let mut targets = Vec::new(alloc);
    for (at, stuck) in list.iter().enumerate() {
        let target = match named(stuck.why) {
            Some(id) => place(list, id),
            None => at,
        };
        targets.push(target)?;
    }
    Ok(targets)
}

// The operation that a reason names.
fn named(why: Why) -> Option<OpId>
    ensures { result ≡ named why }
{
    match why {
        Why::Op(id) => Some(id),
        Why::Partner(id) => Some(id),
        Why::Alone => None,
    }
}

// The place of an operation in the list.
fn place(list: &[Stuck], id: OpId) -> usize
    requires order { IsInOrder list.now }
    requires listed { Contains (stuck_ops list.now) id }
    ensures inside { result < length list.now }
    ensures there { op_at list.now result ≡ id }
{
    list.partition_point(|stuck| stuck.op < id)
}
