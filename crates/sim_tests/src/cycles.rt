//! The lines of knots.
use crate::same::{same, same_list};
use goal_graph::OpId;
use sim_cycles::{Knot, OpList, knots, knots_text};
use std::test::Fail;

// One operation that holds up two others, and a ring of two ranks.
#[test]
fn alone_and_ring(rt: HostRuntime) -> Result<(), Fail> {
    let id = |rank, op| OpId { rank, op };
    let alone = vec![in rt.alloc(); id(0, 0)]?;
    let ring = vec![in rt.alloc(); id(1, 0), id(2, 1), id(2, 0), id(1, 1)]?;
    let lone = Knot {
        lone: true,
        members: OpList::from(alone),
        behind: 3,
    };
    let round = Knot {
        lone: false,
        members: OpList::from(ring),
        behind: 4,
    };
    let list = vec![in rt.alloc(); lone, round]?;
    let text = knots_text(rt.alloc(), &list)?;
    let lines = "alone 0 0 behind 3\nring 1 0 2 1 2 0 1 1 behind 4\n";
    same_list(&rt, text.as_slice(), lines.as_bytes());
    Ok(())
}

// If nothing is stuck, there is no knot.
#[test]
fn nothing_stuck(rt: HostRuntime) -> Result<(), Fail> {
    let found = knots(rt.alloc(), &[])?;
    same(&rt, &found.len(), &0);
    Ok(())
}
