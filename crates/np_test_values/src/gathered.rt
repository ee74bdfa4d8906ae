//! Bytes that are gathered before a sink takes them, by example.

use np_io::{BufferedSink, MemSink};
use std::alloc::Global;
use std::process::Abort;

// Puts these texts one after another, and hands on what is held then. Says whether the sink took all.
fn gather(rt: &impl Abort, alloc: Global, out: &mut MemSink, texts: &[&[u8]]) -> bool {
    let mut gathered = BufferedSink::new(alloc).expect(rt, "room");
    for text in texts {
        if gathered.put(out, text).is_err() {
            return false;
        }
    }
    gathered.finish(out).is_ok()
}

// Stops the test unless a sink of pieces of 8 bytes takes `taken` of these texts, and it is told whether that is all. The call of the
// sink of the number `failing` fails; none has the number 0.
fn expect_taken(
    rt: &impl Abort,
    alloc: Global,
    texts: &[&[u8]],
    failing: u64,
    taken: &[u8],
    whole: bool,
) {
    let mut out = MemSink::new(alloc, 64, 8).expect(rt, "a sink");
    out.fail_write(failing).expect(rt, "a call that fails");
    assert!(rt;
        gather(rt, alloc, &mut out, texts) == whole,
        "call {failing}"
    );
    assert!(rt; out.taken() == taken, "call {failing}");
}

const THREE: &[&[u8]] = &[b"one ", b"two ", b"three"];

#[test]
fn example_gathered(rt: HostRuntime) {
    let alloc = rt.alloc();
    expect_taken(&rt, alloc, &[], 1, b"", true);
    expect_taken(&rt, alloc, &[b"", b"one"], 0, b"one", true);
    expect_taken(&rt, alloc, THREE, 0, b"one two three", true);
    expect_taken(&rt, alloc, THREE, 1, b"", false);
    expect_taken(&rt, alloc, THREE, 2, b"one two ", false);
    expect_taken(&rt, alloc, THREE, 3, b"one two three", true);
}

// Stops the test unless the sink has taken `taken` bytes once `size` more are put.
fn expect_put(
    rt: &impl Abort,
    alloc: Global,
    gathered: &mut BufferedSink,
    out: &mut MemSink,
    size: usize,
    taken: usize,
) {
    let bytes = vec![in alloc; b'x'; size].expect(rt, "bytes");
    gathered.put(out, &bytes).expect(rt, "a sink that takes");
    assert!(rt; out.taken().len() == taken, "{size}");
}

// What does not fit beside what is held is held once that is taken, and of what is more than may be held the last 65,536.
#[test]
fn more_than_may_be_held(rt: HostRuntime) {
    let alloc = rt.alloc();
    let mut out = MemSink::new(alloc, 140_000, 4096).expect(&rt, "a sink");
    let mut gathered = BufferedSink::new(alloc).expect(&rt, "room");
    expect_put(&rt, alloc, &mut gathered, &mut out, 2, 0);
    expect_put(&rt, alloc, &mut gathered, &mut out, 65_536, 2);
    expect_put(&rt, alloc, &mut gathered, &mut out, 65_537, 65_539);
    expect_put(&rt, alloc, &mut gathered, &mut out, 1, 131_075);
    gathered.finish(&mut out).expect(&rt, "a sink that takes");
    assert!(rt; out.taken().len() == 131_076);
}
