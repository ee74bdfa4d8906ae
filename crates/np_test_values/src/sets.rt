//! Sets that texts write, and what the operations make of them.
//!
//! It is proved of all kinds of sets at once.

use crate::pieces::AddrConns;
use np_addr::AddrSet;
use np_base::{Cells, join_all};
use np_conns::ConnSet;
use std::alloc::Global;
use std::process::Abort;

/// A kind of sets that texts write.
pub trait Written: Cells {
    /// The set that the text writes. It stops the test where the text writes none.
    fn read<A: Abort>(rt: &A, alloc: Global, text: &str) -> Self;
}

// Stops the test where an operation gives anything else of two sets without a common spot and of the set that was worked out to be both
// of them together.
fn expect_operations<S: Written>(
    rt: &impl Abort,
    alloc: Global,
    first: &str,
    second: &str,
    whole: &str,
) {
    let first = S::read(rt, alloc, first);
    let second = S::read(rt, alloc, second);
    let whole = S::read(rt, alloc, whole);
    expect_join(rt, &first, &second, &whole);
    expect_difference(rt, &first, &second, &whole);
    expect_bounds(rt, alloc, &whole);
    expect_join_of_all(rt, alloc, first, second, &whole);
}

fn expect_join<S: Cells>(rt: &impl Abort, first: &S, second: &S, whole: &S) {
    let joined = first.join(second).expect(rt, "a join");
    assert!(rt; joined.same(whole), "join");
    assert!(rt; !first.is_empty() && !second.same(whole), "same");
}

fn expect_difference<S: Cells>(rt: &impl Abort, first: &S, second: &S, whole: &S) {
    let met = whole.meet(first).expect(rt, "a meet");
    assert!(rt; met.same(first), "meet");
    let left = whole.minus(first).expect(rt, "a difference");
    assert!(rt; left.same(second), "minus");
}

// Stops the test where the empty set, the set of all or a copy of a set is anything else.
fn expect_bounds<S: Cells>(rt: &impl Abort, alloc: Global, set: &S) {
    let nothing = S::nothing(alloc).expect(rt, "a set of nothing");
    assert!(rt; nothing.is_empty(), "nothing");
    let copied = set.copy().expect(rt, "a copy");
    assert!(rt; copied.same(set), "copy");
    expect_everything(rt, alloc, set);
}

fn expect_everything<S: Cells>(rt: &impl Abort, alloc: Global, set: &S) {
    let everything = S::everything(alloc).expect(rt, "a set of everything");
    let left = set.minus(&everything).expect(rt, "a difference");
    assert!(rt; left.is_empty(), "everything");
}

// Stops the test where the join of a list of two sets is anything else.
fn expect_join_of_all<S: Cells>(rt: &impl Abort, alloc: Global, first: S, second: S, whole: &S) {
    let mut sets = Vec::new(alloc);
    sets.push(first).ok().expect(rt, "a list");
    sets.push(second).ok().expect(rt, "a list");
    let joined = join_all(alloc, &sets).expect(rt, "a join");
    assert!(rt; joined.same(whole), "join_all");
}

#[test]
fn operations_on_addresses(rt: HostRuntime) {
    let (first, second) = ("10.0.0.0/9", "10.128.0.0/9");
    expect_operations::<AddrSet>(&rt, rt.alloc(), first, second, "10.0.0.0/8");
}

// A set of more than two ranges is held otherwise than one of few.
#[test]
fn operations_on_connections(rt: HostRuntime) {
    let first = "TCP 80-89,100,200; SCTP 1,3-65535";
    let whole = "TCP 80-90,92,100,200; UDP 53; SCTP 1,3-65535";
    expect_operations::<ConnSet>(&rt, rt.alloc(), first, "TCP 90,92; UDP 53", whole);
}

// Equal neighbours are one piece.
#[test]
fn operations_on_pieces(rt: HostRuntime) {
    let first = "TCP 80-90 / No Connections";
    let second = "No Connections / TCP 80-90";
    expect_operations::<AddrConns>(&rt, rt.alloc(), first, second, "TCP 80-90");
}
