//! Hosts and sinks in memory: what a file or a sink has after calls that fail or move few bytes.
ghost use Rattle.std.specs.Prelude.{◌<◌};

use crate::same::{same, same_list};
use goal_base::{
    Host, IoFault, MemHost, MemSink, ReadAll, TextOut, WriteStop, read_all, write_all, write_file,
};
use std::alloc::Global;
use std::process::Abort;
use std::test::Fail;

// A line, of which a sink below takes the first 20 bytes.
const TEXT: &[u8] = b"ranks 2 ops 2 stuck 0 unread 0 finish 5554\n";

// A host with a file "a". It moves at most `most` bytes per call and fails at the calls `fails`.
fn host_of(alloc: Global, most: usize, fails: &[u64]) -> Result<MemHost, Fail>
    requires { 0 < most }
{
    let mut host = MemHost::new(alloc, most, fails)?;
    host.add("a", TEXT)?;
    Ok(host)
}

// Checks that a file is read as these bytes.
fn reads(
    rt: &impl Abort,
    alloc: Global,
    host: &mut MemHost,
    name: &str,
    wanted: &[u8],
) -> Result<(), Fail> {
    let found = read_all(alloc, host, name)?;
    same_list(rt, found.as_slice(), wanted);
    Ok(())
}

// Checks that reading a file fails.
fn fails(rt: &impl Abort, alloc: Global, host: &mut MemHost, name: &str) {
    same(
        rt,
        &read_all(alloc, host, name).err(),
        &Some(ReadAll::Fault),
    );
}

// Checks that the file "a" has these bytes.
fn holds(rt: &impl Abort, host: &MemHost, wanted: &[u8]) -> Result<(), Fail> {
    let file = host.file("a").ok_or("no file")?;
    same(rt, &file, &wanted);
    Ok(())
}

#[test]
fn a_file_is_read_byte_by_byte(rt: HostRuntime) -> Result<(), Fail> {
    let mut host = host_of(rt.alloc(), 1, &[])?;
    host.add("b", b"another")?;
    reads(&rt, rt.alloc(), &mut host, "a", TEXT)?;
    reads(&rt, rt.alloc(), &mut host, "b", b"another")
}

#[test]
fn faults_of_a_host(rt: HostRuntime) -> Result<(), Fail> {
    let mut host = host_of(rt.alloc(), 100, &[2])?;
    fails(&rt, rt.alloc(), &mut host, "a");
    fails(&rt, rt.alloc(), &mut host, "absent");
    reads(&rt, rt.alloc(), &mut host, "a", TEXT)
}

// Creates the file "a" again, on a host that takes four bytes per call.
fn make(rt: &impl Abort, host: &mut MemHost) -> Result<(), Fail> {
    host.create("a")?;
    same(rt, &host.write(b"number")?, &4);
    same(rt, &host.write(b"s")?, &1);
    host.finish()?;
    Ok(())
}

#[test]
fn a_file_is_made(rt: HostRuntime) -> Result<(), Fail> {
    let mut host = host_of(rt.alloc(), 4, &[])?;
    make(&rt, &mut host)?;
    holds(&rt, &host, b"numbs")
}

// Checks what a sink returns for these bytes, and which bytes it has then.
fn takes(
    rt: &impl Abort,
    sink: &mut MemSink,
    bytes: &[u8],
    answer: Result<(), WriteStop>,
    has: &[u8],
) {
    same(rt, &write_all(sink, bytes), &answer);
    same(rt, &sink.bytes(), &has);
}

#[test]
fn a_sink_stops(rt: HostRuntime) -> Result<(), Fail> {
    let mut sink = MemSink::new(rt.alloc(), 10, &[3])?;
    let stop = WriteStop {
        done: 20,
        why: IoFault::Failed,
    };
    takes(&rt, &mut sink, TEXT, Err(stop), b"ranks 2 ops 2 stuck ");
    takes(&rt, &mut sink, b"0", Ok(()), b"ranks 2 ops 2 stuck 0");
    Ok(())
}

#[test]
fn words_and_numbers(rt: HostRuntime) -> Result<(), Fail> {
    let mut text = TextOut::new(rt.alloc());
    text.word("budget ")?;
    text.number(u128::MAX)?;
    text.word("\n")?;
    text.number(0)?;
    same_list(
        &rt,
        text.into_bytes().as_slice(),
        b"budget 340282366920938463463374607431768211455\n0".as_slice(),
    );
    Ok(())
}

#[test]
fn a_file_is_written_whole(rt: HostRuntime) -> Result<(), Fail> {
    let mut host = host_of(rt.alloc(), 4, &[])?;
    host.add("b", b"another")?;
    write_file(&mut host, "a", b"numbers")?;
    reads(&rt, rt.alloc(), &mut host, "a", b"numbers")?;
    reads(&rt, rt.alloc(), &mut host, "b", b"another")
}

#[test]
fn a_file_is_cut_off(rt: HostRuntime) -> Result<(), Fail> {
    let mut host = host_of(rt.alloc(), 4, &[3])?;
    let answer = write_file(&mut host, "a", b"numbers");
    same(&rt, &answer, &Err(IoFault::Failed));
    holds(&rt, &host, b"numb")
}
