//! Calls of `goal` on a host and sinks in memory.
ghost use Rattle.std.specs.Prelude.{◌<◌};

use goal_base::{MemHost, MemSink};
use goal_cli::{Status, goal};
use std::alloc::{AllocError, Global};
use std::fmt::Debug;
use std::process::Abort;
use std::test::Fail;

const MESSAGE: &[u8] =
    b"num_ranks 2 rank 0 { l1: send 10b to 1 tag 0 cpu 0 nic 0 } rank 1 { l1: recv 10b from 0 tag 0 cpu 0 nic 0 }";

// The output of `sim` for the message, of 121 bytes.
const RUN: &[u8] =
    b"ranks 2 ops 2 stuck 0 unread 0 finish 5554\nop 0 0 send start 0 end 1500 match 1 0\nop 1 0 recv start 0 end 5554 match 0 0\n";

// The compiled file of the message.
const FILE: &[u8] = b"\x89GOAL\r\n\x1a\x02\0\0\0\x02\x01\0\0\x01\x01\0\n\x01\0\0\x02\0\0\n";

const CALC: &[u8] = b"num_ranks 1 rank 0 { calc 100 }";

const CYCLE: &[u8] = b"num_ranks 1 rank 0 { l1: calc 1 l2: calc 1 l1 requires l2 l2 requires l1 }";

const READ_FAULT: &[u8] = b"goal: reading failed\n";

const WRITE_FAULT: &[u8] = b"goal: writing failed\n";

// A receive without a send, and a calc that needs it.
const STUCK: &[u8] = b"num_ranks 1 rank 0 { a: recv 1b from 0 b: calc 1 b requires a }";

// The canonical text of a scan over two ranks.
const SCAN: &[u8] = b"num_ranks 2
rank 0 {
l1: send 8b to 1 tag 0 cpu 0 nic 0
l1 moves 0 to 0
}
rank 1 {
l1: recv 8b from 0 tag 0 cpu 0 nic 0
l2: calc 0 cpu 0
l2 requires l1
l1 moves 1 to 1
l2 adds 1 to 0
}
";

// Messages inside a node cost less than those between two, and two ranks are on one node.
const MACHINE: &[u8] =
    b"classes 2 class 2500 1500 1000 6 0 0 0 65535 class 500 300 200 1 0 0 0 65535 inside 1 default 0 ranks 2 0 0 pairs 0";

// The number of bytes that a device moves per call at most, if it is to take everything.
const ALL: usize = 4096;

// A call of `goal` on a host whose file "a" is the text and whose file "m" is the machine, and what it must leave.
#[derive(Clone, Copy)]
struct HostCall<'a> {
    text: &'a [u8],
    line: &'a [&'a str],
    // How many bytes the host and the standard output move per call.
    host_most: usize,
    out_most: usize,
    // The numbers of the calls that fail, of each device.
    host_fails: &'a [u64],
    out_fails: &'a [u64],
    err_fails: &'a [u64],
    status: Status,
    out: &'a [u8],
    err: &'a [u8],
    // The file "b".
    made: Option<&'static [u8]>,
}

// A run of the message on devices that do not fail.
const SIM: HostCall<'static> = HostCall {
    text: MESSAGE,
    line: &["sim", "a"],
    host_most: ALL,
    out_most: ALL,
    host_fails: &[],
    out_fails: &[],
    err_fails: &[],
    status: Status::Done,
    out: RUN,
    err: b"",
    made: None,
};

// Checks that two values are equal. It is a function, because the prover takes long over an `assert_eq!`.
fn same<T: PartialEq + Debug>(rt: &impl Abort, found: &T, wanted: &T) {
    assert_eq!(rt; found, wanted);
}

fn words_of(alloc: Global, line: &[&str]) -> Result<Vec<String>, AllocError> {
    let mut words = Vec::new(alloc);
    for word in line {
        words.push(String::from_str(alloc, word)?)?;
    }
    Ok(words)
}

// Checks that the call of a row leaves what it must.
fn leaves(rt: &impl Abort, alloc: Global, row: &HostCall<'_>) -> Result<(), Fail> {
    assert!(rt; row.host_most > 0);
    assert!(rt; row.out_most > 0);
    let words = words_of(alloc, row.line)?;
    let mut host = MemHost::new(alloc, row.host_most, row.host_fails)?;
    host.add("a", row.text)?;
    host.add("m", MACHINE)?;
    let mut out = MemSink::new(alloc, row.out_most, row.out_fails)?;
    let mut err = MemSink::new(alloc, ALL, row.err_fails)?;
    let status = goal(alloc, &words, &mut host, &mut out, &mut err);
    same(rt, &status, &row.status);
    same(rt, &out.bytes(), &row.out);
    same(rt, &err.bytes(), &row.err);
    same(rt, &host.file("b"), &row.made);
    Ok(())
}

#[test]
fn runs_on_devices(rt: HostRuntime) -> Result<(), Fail> {
    let unread = HostCall {
        host_fails: &[2],
        status: Status::ReadFault,
        out: b"",
        err: READ_FAULT,
        ..SIM
    };
    let cut = HostCall {
        out_most: 10,
        out_fails: &[3],
        status: Status::WriteFault,
        out: b"ranks 2 ops 2 stuck ",
        err: WRITE_FAULT,
        ..SIM
    };
    for row in &[
        unread,
        HostCall {
            text: CALC,
            ..unread
        },
        HostCall {
            line: &["sim", "absent"],
            host_fails: &[],
            ..unread
        },
        cut,
        HostCall {
            text: CALC,
            out: b"ranks 1 ops 1 stuck ",
            ..cut
        },
        HostCall {
            host_most: 1,
            ..SIM
        },
        HostCall {
            text: CYCLE,
            err_fails: &[1],
            status: Status::Refused,
            out: b"",
            ..SIM
        },
    ] {
        leaves(&rt, rt.alloc(), row)?;
    }
    Ok(())
}

#[test]
fn each_command(rt: HostRuntime) -> Result<(), Fail> {
    let stuck = HostCall {
        text: STUCK,
        status: Status::Stuck,
        ..SIM
    };
    let scan = HostCall {
        text: SCAN,
        out: SCAN,
        ..SIM
    };
    for row in &[
        HostCall {
            out: b"ranks 1 ops 2 stuck 2 unread 0 finish 0\nop 0 0 recv start 0 end - match -\nop 0 1 calc start - end -\nstuck 0 0 alone\nstuck 0 1 for op 0 0\n",
            ..stuck
        },
        HostCall {
            line: &["knots", "a"],
            out: b"ranks 1 ops 2 stuck 2 unread 0 finish 0\nalone 0 0 behind 2\n",
            ..stuck
        },
        HostCall {
            line: &["waits", "a"],
            out: b"rank 0 ended 1 wait 0\nrank 1 ended 1 wait 4054\nwait 1 0 4054\n",
            ..SIM
        },
        HostCall {
            line: &["nodes", "a", "m"],
            out: b"ranks 2 ops 2 stuck 0 unread 0 finish 1109\nop 0 0 send start 0 end 300 match 1 0\nop 1 0 recv start 0 end 1109 match 0 0\n",
            ..SIM
        },
        HostCall {
            line: &["show", "a"],
            ..scan
        },
        HostCall {
            line: &["gen", "scan", "2", "8"],
            ..scan
        },
        HostCall {
            line: &["gen", "bcast", "1", "8"],
            out: b"num_ranks 1\n",
            ..SIM
        },
        HostCall {
            line: &["certify", "scan", "a"],
            out: b"certified scan ranks 2\n",
            ..scan
        },
        HostCall {
            line: &["certify", "allreduce", "a"],
            status: Status::NotCertified,
            out: b"not certified: wrong 0 slot 0\n",
            ..scan
        },
        // its one message has 92,870 bytes, and begins at 1196
        HostCall {
            line: &["probe", "1", "1"],
            out: b"ranks 64 ops 3 stuck 0 unread 0 finish 570410\nends 580802\n",
            ..SIM
        },
    ] {
        leaves(&rt, rt.alloc(), row)?;
    }
    Ok(())
}

// The output takes ten bytes per call. Each of its calls fails in turn, and then none.
#[test]
fn output_cut_at_each_call(rt: HostRuntime) -> Result<(), Fail> {
    for number in 1..14usize {
        let row = HostCall {
            out_most: 10,
            out_fails: &[number as u64],
            status: Status::WriteFault,
            out: &RUN[..10 * (number - 1)],
            err: WRITE_FAULT,
            ..SIM
        };
        leaves(&rt, rt.alloc(), &row)?;
    }
    let row = HostCall {
        out_most: 10,
        out_fails: &[14],
        ..SIM
    };
    leaves(&rt, rt.alloc(), &row)
}

// A call of `compile`, on devices that do not fail.
const COMPILE: HostCall<'static> = HostCall {
    line: &["compile", "a", "b"],
    out: b"",
    made: Some(FILE),
    ..SIM
};

// The same, with a failure of the call `number` of the host.
fn fails(rt: &impl Abort, alloc: Global, row: HostCall<'static>, number: u64) -> Result<(), Fail> {
    let row = HostCall {
        host_fails: &[number],
        ..row
    };
    leaves(rt, alloc, &row)
}

// A host that moves at most `most` bytes per call opens the message and reads it to its end in `reads` calls. Then it
// creates its file, writes it in one call and finishes it.
fn compiles_but_for_each_call(
    rt: &impl Abort,
    alloc: Global,
    most: usize,
    reads: u64,
) -> Result<(), Fail>
    requires { reads < 100 }
{
    let done = HostCall {
        host_most: most,
        ..COMPILE
    };
    let unread = HostCall {
        status: Status::ReadFault,
        err: READ_FAULT,
        made: None,
        ..done
    };
    for number in 1..=reads {
        fails(rt, alloc, unread, number)?;
    }
    let cut = HostCall {
        status: Status::WriteFault,
        err: WRITE_FAULT,
        ..done
    };
    fails(rt, alloc, HostCall { made: None, ..cut }, reads + 1)?;
    fails(
        rt,
        alloc,
        HostCall {
            made: Some(b""),
            ..cut
        },
        reads + 2,
    )?;
    fails(rt, alloc, cut, reads + 3)?;
    fails(rt, alloc, done, reads + 4)
}

#[test]
fn files_cut_at_each_call(rt: HostRuntime) -> Result<(), Fail> {
    compiles_but_for_each_call(&rt, rt.alloc(), ALL, 3)?;
    compiles_but_for_each_call(&rt, rt.alloc(), 30, 6)
}
