//! Sources and sinks in memory, by example.

use np_base::{Seq, Text};
use np_io::{
    GivenSystem, Held, InputFailed, Inputs, MemInputs, MemSink, RealInputs, RealSink, Sink,
    SinkFailed, WholeFault, read_whole, write_whole,
};
use std::alloc::Global;
use std::process::Abort;

// A source of pieces of 16 bytes, the second of whose reads fails: what that would have handed out comes next.
fn failing_source(rt: &impl Abort, alloc: Global) -> MemInputs {
    let mut inputs = MemInputs::new(alloc, 16);
    inputs
        .add("-", b"The quick brown fox jumps over the lazy dog.")
        .expect(rt, "an input");
    inputs.fail_read(2).expect(rt, "a read that fails");
    inputs
}

// Stops the test unless the next read hands out these bytes.
fn expect_read(rt: &impl Abort, inputs: &mut MemInputs, wanted: &[u8]) {
    let mut buffer = [0u8; 64];
    let count = inputs.read(&mut buffer).expect(rt, "a read");
    assert!(rt; buffer.get(..count) == Some(wanted));
}

// Stops the test unless the next read fails.
fn expect_no_read(rt: &impl Abort, inputs: &mut MemInputs) {
    let mut buffer = [0u8; 64];
    assert!(rt; inputs.read(&mut buffer) == Err(InputFailed));
}

// Until a name is begun there is nothing to read, and the end is a read of nothing.
#[test]
fn a_read_fails(rt: HostRuntime) {
    let mut inputs = failing_source(&rt, rt.alloc());
    expect_read(&rt, &mut inputs, b"");
    assert!(rt; inputs.begin("other") == Err(InputFailed));
    inputs.begin("-").expect(&rt, "a name");
    expect_read(&rt, &mut inputs, b"The quick brown ");
    expect_no_read(&rt, &mut inputs);
    expect_read(&rt, &mut inputs, b"fox jumps over t");
    expect_read(&rt, &mut inputs, b"he lazy dog.");
    expect_read(&rt, &mut inputs, b"");
}

// A source of 40 bytes under one name and of none under another, whose fourth beginning fails.
fn source_of_forty(rt: &impl Abort, alloc: Global) -> MemInputs {
    let mut inputs = MemInputs::new(alloc, 16);
    inputs.add("-", &[7u8; 40]).expect(rt, "an input");
    inputs.add("none", &[]).expect(rt, "an empty input");
    inputs.fail_begin(4).expect(rt, "a beginning that fails");
    inputs
}

// Stops the test unless the input of this name is read whole where there is so much room.
fn expect_whole(
    rt: &impl Abort,
    alloc: Global,
    inputs: &mut impl Inputs,
    name: &str,
    room: u64,
    wanted: &[u8],
) {
    let bytes = read_whole(alloc, inputs, name, room).expect(rt, name);
    assert!(rt; bytes.as_slice() == wanted, "{name}");
}

// Stops the test unless the input of 40 bytes is refused so where there is so much room.
fn expect_refused(
    rt: &impl Abort,
    alloc: Global,
    inputs: &mut MemInputs,
    room: u64,
    wanted: WholeFault,
) {
    let read = read_whole(alloc, inputs, "-", room);
    assert!(rt; matches!(&read, Err(fault) if *fault == wanted), "{room}");
}

#[test]
fn example_read_whole(rt: HostRuntime) {
    let mut inputs = source_of_forty(&rt, rt.alloc());
    expect_whole(&rt, rt.alloc(), &mut inputs, "-", 40, &[7; 40]);
    expect_refused(&rt, rt.alloc(), &mut inputs, 39, WholeFault::TooLarge);
    expect_whole(&rt, rt.alloc(), &mut inputs, "none", 0, &[]);
    expect_refused(&rt, rt.alloc(), &mut inputs, 40, WholeFault::InputFailed);
}

// A sink of room for 30 bytes in pieces of 8, whose second write fails.
fn failing_sink(rt: &impl Abort, alloc: Global) -> MemSink {
    let mut out = MemSink::new(alloc, 30, 8).expect(rt, "a sink");
    out.fail_write(2).expect(rt, "a write that fails");
    out
}

// Stops the test unless a write of a text of twenty bytes ends so, and the sink holds these bytes then.
fn expect_write(rt: &impl Abort, out: &mut MemSink, ends: Result<(), SinkFailed>, taken: &[u8]) {
    assert!(rt; write_whole(out, b"twenty bytes of text") == ends);
    assert!(rt; out.taken() == taken);
}

// After the second write the sink holds the first piece alone.
#[test]
fn a_write_fails(rt: HostRuntime) {
    let mut out = failing_sink(&rt, rt.alloc());
    assert!(rt; out.write(b"") == Ok(0));
    expect_write(&rt, &mut out, Err(SinkFailed), b"twenty b");
    expect_write(&rt, &mut out, Ok(()), b"twenty btwenty bytes of text");
    assert!(rt;
        out.write(b"abc") == Err(SinkFailed),
        "three bytes do not fit"
    );
    assert!(rt; out.write(b"ab") == Ok(2));
}

// A name with bytes.
fn held(rt: &impl Abort, alloc: Global, name: &str, bytes: &[u8]) -> Held {
    Held {
        name: Text::of(alloc, name).expect(rt, "a name"),
        bytes: Seq::from_vec(Vec::from_slice(alloc, bytes).expect(rt, "bytes")),
    }
}

// The source of the program, over a system that is given the bytes of names. A name that it is not given has none.
#[test]
fn given_bytes_are_read(rt: HostRuntime) {
    let alloc = rt.alloc();
    let given = [
        held(&rt, alloc, "a", b"those of a"),
        held(&rt, alloc, "-", b"standard input"),
    ];
    let mut inputs = RealInputs::new(GivenSystem { held: &given });
    expect_whole(&rt, alloc, &mut inputs, "-", 14, b"standard input");
    expect_whole(&rt, alloc, &mut inputs, "a", 10, b"those of a");
    expect_whole(&rt, alloc, &mut inputs, "other", 0, b"");
}

// The sink of the program, over a writer in memory.
#[test]
fn a_writer_is_written(rt: HostRuntime) {
    let mut out = RealSink::new(Vec::new(rt.alloc()));
    assert!(rt; write_whole(&mut out, b"twenty bytes of text") == Ok(()));
    assert!(rt; out.into_writer().as_slice() == b"twenty bytes of text".as_slice());
}
