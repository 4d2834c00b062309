//! Inputs that come in pieces, cut at each index.
ghost use Rattle.std.specs.Prelude.{◌<◌};

use super::binary::{MESSAGE, MESSAGE_TEXT};
use super::print::MESSAGE_PRINTED;
use crate::same::{same, same_list};
use goal_base::MemHost;
use goal_binary::FileFault;
use goal_graph::PlanFault;
use goal_input::{InputFault, read_schedule};
use goal_parser::TextFault;
use goal_print::print_text;
use std::alloc::Global;
use std::process::Abort;
use std::test::Fail;

// The second fault is after the first.
const TWO_FAULTS: &[u8] = b"num_ranks 2 rank 0 { send 10x to 1 } rank 5 {";

const REPEATED: &[u8] = b"num_ranks 2 rank 0 { send 10b to 1 } rank 0 { }";

const CYCLE: &[u8] = b"num_ranks 2 rank 1 { calc 5 l1: calc 5 l1 requires l1 }";

// An input, and what is printed of its schedule, or why there is none.
#[derive(Clone, Copy)]
struct InputRow<'a> {
    input: &'a [u8],
    printed: Result<&'a [u8], InputFault>,
}

const ROWS: [InputRow<'static>; 7] = [
    InputRow {
        input: MESSAGE_TEXT,
        printed: Ok(MESSAGE_PRINTED),
    },
    InputRow {
        input: &MESSAGE,
        printed: Ok(MESSAGE_PRINTED),
    },
    InputRow {
        input: b"",
        printed: Err(InputFault::Text(TextFault::Syntax { at: 0 })),
    },
    InputRow {
        input: TWO_FAULTS,
        printed: Err(InputFault::Text(TextFault::Lex { at: 26 })),
    },
    InputRow {
        input: REPEATED,
        printed: Err(InputFault::Text(TextFault::Repeat { at: 42 })),
    },
    InputRow {
        input: CYCLE,
        printed: Err(InputFault::Text(TextFault::Plan(PlanFault::Cycle { rank: 1, op: 1 }))),
    },
    InputRow {
        input: b"\x89GOAL",
        printed: Err(InputFault::File(FileFault::Short { at: 5 })),
    },
];

// Reads an input from a host that moves at most `most` bytes per call and fails at the calls `fails`, and prints its
// schedule.
fn print_by(
    alloc: Global,
    input: &[u8],
    most: usize,
    fails: &[u64],
) -> Result<Result<Vec<u8>, InputFault>, Fail>
    requires { 0 < most }
{
    let mut host = MemHost::new(alloc, most, fails)?;
    host.add("a", input)?;
    match read_schedule(alloc, &mut host, "a") {
        Ok(sched) => Ok(Ok(print_text(alloc, &sched)?)),
        Err(input_fault) => Ok(Err(input_fault)),
    }
}

// Checks what was printed, or why there is no schedule.
fn is_printed(
    rt: &impl Abort,
    found: Result<Vec<u8>, InputFault>,
    wanted: Result<&[u8], InputFault>,
) {
    match (found, wanted) {
        (Ok(found), Ok(wanted)) => same_list(rt, found.as_slice(), wanted),
        (found, wanted) => same(rt, &found.err(), &wanted.err()),
    }
}

#[test]
fn cut_at_each_place(rt: HostRuntime) -> Result<(), Fail> {
    for row in &ROWS {
        for most in 0..row.input.len() {
            let found = print_by(rt.alloc(), row.input, most + 1, &[])?;
            is_printed(&rt, found, row.printed);
        }
    }
    Ok(())
}

// The host fails after the fault of the text was read. The failure is returned.
#[test]
fn failure_before_fault(rt: HostRuntime) -> Result<(), Fail> {
    let found = print_by(rt.alloc(), TWO_FAULTS, 1, &[40])?;
    is_printed(&rt, found, Err(InputFault::Fault));
    let found = print_by(rt.alloc(), TWO_FAULTS, 1, &[80])?;
    is_printed(&rt, found, Err(InputFault::Text(TextFault::Lex { at: 26 })));
    Ok(())
}
