//! What the contracts do not say: the faults of texts that are written out here, beside those of
//! .ci/cases/pieces.rows.
ghost use Rattle.std.specs.Prelude.{◌≤◌, length};

use crate::same::same_list;
use goal_graph::Sched;
use goal_parser::{TextFault, TextReader, read_text};
use goal_print::print_text;
use std::alloc::Global;
use std::process::Abort;
use std::test::Fail;

/// Six operations with a comment between them.
const LONGER: &str = "num_ranks 2
rank 0 {
l1: calc 100 cpu 0
l2: send 10b to 1 tag 0 cpu 0 nic 0
l3: recv 10b from 1 tag 0 cpu 0 nic 0
l2 requires l1
}
rank 1 {
l1: recv 10b from 0 tag 0 cpu 0 nic 0
l2: calc 200 cpu 0 // work
l3: send 10b to 0 tag 0 cpu 0 nic 0
l2 requires l1
l3 requires l2
}
";

/// The canonical text of its schedule.
const LONGER_PRINTED: &str = "num_ranks 2
rank 0 {
l1: calc 100 cpu 0
l2: send 10b to 1 tag 0 cpu 0 nic 0
l3: recv 10b from 1 tag 0 cpu 0 nic 0
l2 requires l1
}
rank 1 {
l1: recv 10b from 0 tag 0 cpu 0 nic 0
l2: calc 200 cpu 0
l3: send 10b to 0 tag 0 cpu 0 nic 0
l2 requires l1
l3 requires l2
}
";

#[test]
fn faults(rt: HostRuntime) -> Result<(), Fail> {
    for (text, fault) in [
        (
            "num_ranks 1 rank 4294967296 { }",
            TextFault::Number { at: 17 },
        ),
        (
            "num_ranks 1 rank 0 { a: calc 1 a: calc 2 }",
            TextFault::Repeat { at: 31 },
        ),
        (
            "num_ranks 1 rank 0 { calc 1 cpu 2 cpu 3 }",
            TextFault::Repeat { at: 34 },
        ),
        (
            "num_ranks 1 rank 0 { recv 1 from any tag any nic 1 tag 2 }",
            TextFault::Repeat { at: 51 },
        ),
        (
            "num_ranks 1 rank 0 { calc 1 cpu 256 }",
            TextFault::Number { at: 32 },
        ),
        (
            "num_ranks 1 rank 0 { send 1b to any }",
            TextFault::Syntax { at: 32 },
        ),
        (
            "num_ranks 1 rank 0 { c requires a a: calc 1 b moves 0 to 1 c moves 0 to 1 }",
            TextFault::UnknownLabel { at: 21 },
        ),
        ("num_ranks 1 rank 0 { calc 5", TextFault::Syntax { at: 27 }),
    ] {
        match read_text(rt.alloc(), text.as_bytes()) {
            Ok(sched) => {
                drop(sched);
                assert!(rt; false, "{text} is read");
            }
            Err(found) => assert_eq!(rt; found, fault, "of {text}"),
        }
    }
    Ok(())
}

/// The schedule of a text that is read in two pieces, or its fault.
fn read_cut(alloc: Global, text: &[u8], cut: usize) -> Result<Sched, TextFault>
    requires { cut ≤ length text.now }
{
    let mut reader = TextReader::new(alloc);
    reader.feed(&text[..cut])?;
    reader.feed(&text[cut..])?;
    reader.finish()
}

/// The schedule of a text that is read byte by byte, or its fault.
fn read_by_bytes(alloc: Global, text: &[u8]) -> Result<Sched, TextFault> {
    let mut reader = TextReader::new(alloc);
    for (place, _) in text.iter().enumerate() {
        reader.feed(&text[place..place + 1])?;
    }
    reader.finish()
}

// Checks that a schedule is that of the longer text.
fn is_longer(rt: &impl Abort, alloc: Global, sched: &Sched) -> Result<(), Fail> {
    let text = print_text(alloc, sched)?;
    same_list(rt, text.as_slice(), LONGER_PRINTED.as_bytes());
    Ok(())
}

#[test]
fn plans(rt: HostRuntime) -> Result<(), Fail> {
    let alloc = rt.alloc();
    let text = LONGER.as_bytes();
    is_longer(&rt, alloc, &read_text(alloc, text)?)?;
    is_longer(&rt, alloc, &read_by_bytes(alloc, text)?)?;
    for cut in 0..=text.len() {
        is_longer(&rt, alloc, &read_cut(alloc, text, cut)?)?;
    }
    Ok(())
}
