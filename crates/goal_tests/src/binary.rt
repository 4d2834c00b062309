//! What the contracts do not say: that the calls succeed, and the faults of files that are written out here.
ghost use Rattle.std.specs.Prelude.{◌≡◌, IfOk, IsOkUnless};

use crate::same::{same, same_list};
use goal_binary::{FileFault, decode, encode, encode_old};
use goal_graph::{Dep, Kind, Note, Op, PlanFault, RankPlan, Sched, When};
use goal_limits::NoMemory;
use goal_parser::read_text;
use std::alloc::{AllocError, Global};
use std::process::Abort;
use std::test::Fail;

/// The file of two ranks, of which one sends ten bytes to the other.
pub const MESSAGE: [u8; 27] = [
    0x89, 0x47, 0x4F, 0x41, 0x4C, 0x0D, 0x0A, 0x1A, 0x02, 0x00, 0x00, 0x00, 0x02, //
    0x01, 0x00, 0x00, 0x01, 0x01, 0x00, 0x0A, //
    0x01, 0x00, 0x00, 0x02, 0x00, 0x00, 0x0A,
];

/// The text of the message.
pub const MESSAGE_TEXT: &[u8] =
    b"num_ranks 2 rank 0 { l1: send 10b to 1 tag 0 cpu 0 nic 0 } rank 1 { l1: recv 10b from 0 tag 0 cpu 0 nic 0 }";

/// The file of one rank, which calculates for 300 nanoseconds on cpu 3.
const ON_CPU_3: [u8; 20] = [
    0x89, 0x47, 0x4F, 0x41, 0x4C, 0x0D, 0x0A, 0x1A, 0x02, 0x00, 0x00, 0x00, 0x01, //
    0x01, 0x00, 0x00, 0x10, 0x03, 0xAC, 0x02,
];

/// The file of version 1 of the message.
const OLD_MESSAGE: [u8; 88] = [
    0x89, 0x47, 0x4F, 0x41, 0x4C, 0x0D, 0x0A, 0x1A, 0x01, 0x00, 0x00, 0x00, 0x02, 0x00, 0x00, 0x00,
    0x01, 0x00, 0x00, 0x00, 0x00, 0x00, 0x00, 0x00, 0x00, 0x00, 0x00, 0x00, 0x01, 0x00, 0x00, 0x00,
    0x01, 0x00, 0x00, 0x00, 0x00, 0x00, 0x00, 0x00, 0x00, 0x00, 0x00, 0x00, 0x0A, 0x00, 0x00, 0x00,
    0x00, 0x00, 0x00, 0x00, 0x01, 0x00, 0x00, 0x00, 0x00, 0x00, 0x00, 0x00, 0x00, 0x00, 0x00, 0x00,
    0x02, 0x00, 0x00, 0x00, 0x00, 0x00, 0x00, 0x00, 0x00, 0x00, 0x00, 0x00, 0x00, 0x00, 0x00, 0x00,
    0x0A, 0x00, 0x00, 0x00, 0x00, 0x00, 0x00, 0x00,
];

/// A rank with this operation alone, on cpu 0 and NIC 0. `Err` means out of memory.
pub fn plan_of(alloc: Global, kind: Kind) -> Result<RankPlan, AllocError> {
    Ok(RankPlan {
        ops: vec![in alloc;
            Op {
                kind,
                cpu: 0,
                nic: 0
            },
        ]?,
        deps: Vec::new(alloc),
        notes: Vec::new(alloc),
    })
}

/// The schedule of the message.
pub fn message(alloc: Global) -> Result<Sched, PlanFault> {
    let send = Kind::Send {
        bytes: 10,
        to: 1,
        tag: 0,
    };
    let recv = Kind::Recv {
        bytes: 10,
        from: Some(0),
        tag: Some(0),
    };
    let plans = vec![in alloc; plan_of(alloc, send)?, plan_of(alloc, recv)?]?;
    Sched::build(alloc, plans)
}

// Checks that the files of a schedule are those of the message.
fn is_message(rt: &impl Abort, alloc: Global, sched: &Sched) -> Result<(), Fail> {
    let bytes = encode(alloc, sched)?;
    same_list(rt, bytes.as_slice(), MESSAGE.as_slice());
    let old = encode_old(alloc, sched)?;
    same_list(rt, old.as_slice(), OLD_MESSAGE.as_slice());
    Ok(())
}

#[test]
fn one_message(rt: HostRuntime) -> Result<(), Fail> {
    let sched = message(rt.alloc())?;
    is_message(&rt, rt.alloc(), &sched)
}

#[test]
fn text_of_the_message(rt: HostRuntime) -> Result<(), Fail> {
    let sched = read_text(rt.alloc(), MESSAGE_TEXT)?;
    is_message(&rt, rt.alloc(), &sched)
}

/// Writes the schedule in the current version and reads it again. The contracts of the calls ensure that it is the
/// same.
fn written_and_read(alloc: Global, sched: &Sched) -> Result<Sched, FileFault>
    ensures same { IfOk result (λ again. again ≡ sched.now) }
    ensures only { IsOkUnless result FileFault.NoMemory }
{
    let _plans = sched.plans();
    match encode(alloc, sched) {
        Ok(bytes) => decode(alloc, &bytes),
        Err(_) => Err(FileFault::NoMemory),
    }
}

/// The same in version 1.
fn written_as_before_and_read(alloc: Global, sched: &Sched) -> Result<Sched, FileFault>
    ensures same { IfOk result (λ again. again ≡ sched.now) }
    ensures only { IsOkUnless result FileFault.NoMemory }
{
    let _plans = sched.plans();
    match encode_old(alloc, sched) {
        Ok(bytes) => decode(alloc, &bytes),
        Err(_) => Err(FileFault::NoMemory),
    }
}

/// The kinds of all operations. `Err` means out of memory.
pub fn kinds_of(alloc: Global, sched: &Sched) -> Result<Vec<Kind>, AllocError> {
    let mut kinds = Vec::new(alloc);
    for id in sched.operations() {
        kinds.push(sched.op(*id).kind)?;
    }
    Ok(kinds)
}

// Checks that the schedule has these kinds, also after it was written in both versions and read again.
fn stays(rt: &impl Abort, alloc: Global, sched: &Sched, wanted: &[Kind]) -> Result<(), Fail> {
    let kinds = kinds_of(alloc, sched)?;
    same_list(rt, &kinds, wanted);
    let again = written_and_read(alloc, sched);
    same(rt, &again.ok().map(|it| it.count()), &Some(2));
    let again = written_as_before_and_read(alloc, sched);
    same(rt, &again.ok().map(|it| it.count()), &Some(2));
    Ok(())
}

#[test]
fn the_message_is_read(rt: HostRuntime) -> Result<(), Fail> {
    let sched = decode(rt.alloc(), &MESSAGE)
        .ok()
        .ok_or("the bytes are a file")?;
    let send = Kind::Send {
        bytes: 10,
        to: 1,
        tag: 0,
    };
    let recv = Kind::Recv {
        bytes: 10,
        from: Some(0),
        tag: Some(0),
    };
    stays(&rt, rt.alloc(), &sched, &[send, recv])
}

#[test]
fn a_cut_file_is_short(rt: HostRuntime) -> Result<(), Fail> {
    for (len, _) in MESSAGE.iter().enumerate() {
        let fault = decode(rt.alloc(), &MESSAGE[..len]).err();
        same(&rt, &fault, &Some(FileFault::Short { at: len as u64 }));
    }
    Ok(())
}

/// Puts a byte at an index, if it exists.
fn put(bytes: &mut [u8], place: usize, byte: u8) {
    if let Some(old) = bytes.get_mut(place) {
        *old = byte;
    }
}

/// The fault of a file in which one byte is replaced.
fn damaged(
    alloc: Global,
    file: &[u8],
    place: usize,
    byte: u8,
) -> Result<Option<FileFault>, AllocError> {
    let mut bytes = Vec::from_slice(alloc, file)?;
    put(&mut bytes, place, byte);
    Ok(decode(alloc, &bytes).err())
}

#[test]
fn faults(rt: HostRuntime) -> Result<(), Fail> {
    let alloc = rt.alloc();
    for (place, byte, fault) in [
        (1, 0, FileFault::Magic),
        (8, 3, FileFault::Version { found: 3 }),
        (8, 0, FileFault::Version { found: 0 }),
        (12, 0, FileFault::Field { at: 12 }),
        (16, 3, FileFault::Field { at: 16 }),
        (16, 5, FileFault::Field { at: 16 }),
        (16, 32, FileFault::Field { at: 16 }),
        (16, 65, FileFault::Field { at: 16 }),
        (17, 128, FileFault::Field { at: 17 }),
        (17, 2, FileFault::Plan(PlanFault::Peer { rank: 0, op: 0 })),
        (26, 138, FileFault::Short { at: 27 }),
    ] {
        same(&rt, &damaged(alloc, &MESSAGE, place, byte)?, &Some(fault));
    }
    let mut longer = Vec::from_slice(alloc, &MESSAGE)?;
    longer.push(0)?;
    same(
        &rt,
        &decode(alloc, &longer).err(),
        &Some(FileFault::Extra { at: 27 }),
    );
    Ok(())
}

#[test]
fn faults_of_a_calc(rt: HostRuntime) -> Result<(), Fail> {
    let alloc = rt.alloc();
    same(&rt, &decode(alloc, &ON_CPU_3).is_ok(), &true);
    let field = Some(FileFault::Field { at: 17 });
    same(&rt, &damaged(alloc, &ON_CPU_3, 17, 0)?, &field);
    let field = Some(FileFault::Field { at: 16 });
    same(&rt, &damaged(alloc, &ON_CPU_3, 16, 48)?, &field);
    let mut longer = Vec::from_slice(alloc, &ON_CPU_3[..19])?;
    longer.push(0x82)?;
    longer.push(0x00)?;
    same(
        &rt,
        &decode(alloc, &longer).err(),
        &Some(FileFault::Field { at: 18 }),
    );
    Ok(())
}

#[test]
fn a_number_ends_with_its_tenth_byte(rt: HostRuntime) -> Result<(), Fail> {
    let alloc = rt.alloc();
    let mut bytes = Vec::from_slice(alloc, &ON_CPU_3[..18])?;
    for _ in 0..9 {
        bytes.push(0x80)?;
        let at = bytes.len() as u64;
        same(
            &rt,
            &decode(alloc, &bytes).err(),
            &Some(FileFault::Short { at }),
        );
    }
    for last in [0x80, 0x02, 0x01, 0x00] {
        let mut whole = Vec::from_slice(alloc, &bytes)?;
        whole.push(last)?;
        same(
            &rt,
            &decode(alloc, &whole).err(),
            &Some(FileFault::Field { at: 18 }),
        );
    }
    Ok(())
}

#[test]
fn faults_of_version_1(rt: HostRuntime) -> Result<(), Fail> {
    let alloc = rt.alloc();
    for (place, byte, fault) in [
        (8, 0, FileFault::Version { found: 0 }),
        (12, 0, FileFault::Field { at: 12 }),
        (14, 2, FileFault::Field { at: 12 }),
        (18, 17, FileFault::Field { at: 16 }),
        (20, 1, FileFault::Field { at: 80 }),
        (28, 3, FileFault::Field { at: 28 }),
        (49, 1, FileFault::Field { at: 44 }),
        (65, 4, FileFault::Field { at: 65 }),
        (52, 0, FileFault::Extra { at: 64 }),
        (32, 2, FileFault::Plan(PlanFault::Peer { rank: 0, op: 0 })),
    ] {
        same(
            &rt,
            &damaged(alloc, &OLD_MESSAGE, place, byte)?,
            &Some(fault),
        );
    }
    Ok(())
}

/// The next number of a sequence that begins with a seed.
fn next(state: u64) -> u64 {
    state
        .wrapping_mul(6_364_136_223_846_793_005)
        .wrapping_add(1_442_695_040_888_963_407)
}

/// Some bits of it.
fn bits(state: u64) -> u64 {
    state >> 33
}

/// A drawn operation of a rank, and the next number.
fn drawn_op(state: u64, rank: u32) -> (Op, u64) {
    let kind_state = next(state);
    let size_state = next(kind_state);
    let place_state = next(size_state);
    let any_state = next(place_state);
    let size = bits(size_state) >> (bits(any_state) % 24);
    let tag = (bits(place_state) % 300) as u32;
    let any = bits(any_state) % 4;
    let kind = match bits(kind_state) % 3 {
        0 => Kind::Calc { nanos: size },
        1 => Kind::Send {
            bytes: size,
            to: 1 - rank % 2,
            tag,
        },
        _ => Kind::Recv {
            bytes: size,
            from: if any >= 2 { None } else { Some(1 - rank % 2) },
            tag: if any % 2 == 1 { None } else { Some(tag) },
        },
    };
    let cpu = (bits(kind_state) % 5) as u8;
    let nic = match kind {
        Kind::Calc { .. } => 0,
        _ => (bits(size_state) % 3) as u8,
    };
    (Op { kind, cpu, nic }, any_state)
}

/// A drawn rank of two operations, the second after the first, with a note on a receive if there is one.
fn drawn_plan(alloc: Global, seed: u64, rank: u32) -> Result<RankPlan, AllocError> {
    let mut ops = Vec::new(alloc);
    let mut deps = Vec::new(alloc);
    let mut notes = Vec::new(alloc);
    let mut state = seed;
    for later in 0..2u32 {
        let (op, after) = drawn_op(state, rank);
        state = next(after);
        if later == 1 {
            let when = if bits(state) % 2 == 0 {
                When::AfterEnd
            } else {
                When::AfterStart
            };
            deps.push(Dep {
                later,
                earlier: 0,
                when,
            })?;
        }
        if matches!(op.kind, Kind::Recv { .. }) && notes.is_empty() {
            notes.push(Note::Moves {
                op: later,
                lo: 0,
                hi: (bits(state) % 200) as u32 + 1,
            })?;
        }
        ops.push(op)?;
    }
    Ok(RankPlan { ops, deps, notes })
}

/// Whether bytes have a fault, or are the file of the schedule that is read from them.
fn is_fault_or_file(alloc: Global, bytes: &[u8]) -> Result<bool, NoMemory> {
    let Ok(sched) = decode(alloc, bytes) else {
        return Ok(true);
    };
    let file = encode(alloc, &sched)?;
    let old = encode_old(alloc, &sched)?;
    Ok(file.as_slice() == bytes || old.as_slice() == bytes)
}

// Checks that the file with any byte replaced has a fault or is a file.
fn is_whole(rt: &impl Abort, alloc: Global, file: &[u8]) -> Result<(), Fail> {
    let mut bytes = Vec::from_slice(alloc, file)?;
    let mut neighbour = 0;
    for (place, there) in file.iter().enumerate() {
        for byte in [0, 1, 127, 128, 255, neighbour] {
            put(&mut bytes, place, byte);
            same(rt, &is_fault_or_file(alloc, &bytes)?, &true);
        }
        put(&mut bytes, place, *there);
        neighbour = *there;
    }
    Ok(())
}

// The file of a drawn schedule.
fn drawn_file(alloc: Global, seed: u64) -> Result<Vec<u8>, Fail> {
    let first = drawn_plan(alloc, next(seed), 0)?;
    let second = drawn_plan(alloc, next(next(seed)), 1)?;
    let sched = Sched::build(alloc, vec![in alloc; first, second]?)?;
    Ok(encode(alloc, &sched)?)
}

#[test]
fn each_byte_of_a_hundred_files_replaced(rt: HostRuntime) -> Result<(), Fail> {
    for seed in 0..100u64 {
        let file = drawn_file(rt.alloc(), seed)?;
        is_whole(&rt, rt.alloc(), &file)?;
    }
    Ok(())
}
