//! Canonical text: what is printed and read again is the same schedule.
use super::binary::{kinds_of, message, plan_of};
use crate::same::same_list;
use goal_graph::{Kind, Sched};
use goal_parser::read_text;
use goal_print::print_text;
use std::test::Fail;

/// The canonical text of the message's schedule.
pub const MESSAGE_PRINTED: &[u8] =
    b"num_ranks 2\nrank 0 {\nl1: send 10b to 1 tag 0 cpu 0 nic 0\n}\nrank 1 {\nl1: recv 10b from 0 tag 0 cpu 0 nic 0\n}\n";

#[test]
fn one_message(rt: HostRuntime) -> Result<(), Fail> {
    let alloc = rt.alloc();
    let sched = message(alloc)?;
    let text = print_text(alloc, &sched)?;
    same_list(&rt, text.as_slice(), MESSAGE_PRINTED);
    Ok(())
}

#[test]
fn printed_and_read(rt: HostRuntime) -> Result<(), Fail> {
    let alloc = rt.alloc();
    let calc = Kind::Calc { nanos: 7 };
    let recv = Kind::Recv {
        bytes: 10,
        from: None,
        tag: None,
    };
    let plans = vec![in alloc; plan_of(alloc, calc)?, plan_of(alloc, recv)?]?;
    let sched = Sched::build(alloc, plans)?;
    let text = print_text(alloc, &sched)?;
    let again = read_text(alloc, &text)?;
    let kinds = kinds_of(alloc, &again)?;
    same_list(&rt, &kinds, &[calc, recv]);
    Ok(())
}
