//! Sets of ports and of connections, and their texts, by example. More texts stand in transcripts/texts.txt.

use crate::sets::Written;
use np_base::{Cells, PortNum};
use np_conns::{ConnSet, Proto, print_conns, read_conns};
use np_sets::IntervalSet;
use std::alloc::Global;
use std::process::Abort;

impl Written for ConnSet {
    fn read<A: Abort>(rt: &A, alloc: Global, text: &str) -> ConnSet {
        read_conns(alloc, text).expect(rt, "connections")
    }
}

// Stops the test where a set that may be held once with the one before it is not what its text writes.
fn expect_shared(rt: &impl Abort, alloc: Global, before: &ConnSet, text: &str) {
    let mut set = ConnSet::read(rt, alloc, text);
    set.share_with(Some(before))
        .expect(rt, "a set that is held once");
    assert!(rt; set.same(&ConnSet::read(rt, alloc, text)), "share_with");
}

// A set stays what it is, whether the one before it has the same ports or others.
#[test]
fn shared_sets(rt: HostRuntime) {
    let alloc = rt.alloc();
    let before = ConnSet::read(&rt, alloc, "TCP 80-89,100,200");
    expect_shared(&rt, alloc, &before, "TCP 80-89,100,200");
    expect_shared(&rt, alloc, &before, "TCP 80-89,100,300");
}

// Ports in no order, of which one stands twice, and which touch.
fn some_ports(rt: &impl Abort, alloc: Global) -> Vec<PortNum> {
    let ports = [
        PortNum::new(90),
        PortNum::new(7),
        PortNum::new(65535),
        PortNum::new(9),
        PortNum::new(7),
        PortNum::new(8),
        PortNum::new(1),
    ];
    Vec::from_array(alloc, ports).expect(rt, "ports")
}

#[test]
fn sets_of_ports(rt: HostRuntime) {
    let ports = some_ports(&rt, rt.alloc());
    let set = IntervalSet::of_points(rt.alloc(), ports).expect(&rt, "a set");
    let [_, second, _, _] = set.ranges() else {
        panic!(rt; "four ranges");
    };
    assert!(rt; second.lo.get() == 7 && second.hi.get() == 9);
}

// Stops the test unless connections have this text.
fn expect_text(rt: &impl Abort, alloc: Global, set: &ConnSet, wanted: &str) {
    let text = print_conns(alloc, set).expect(rt, "a text");
    assert!(rt; text.as_str() == wanted);
}

#[test]
fn connections_to_ports(rt: HostRuntime) {
    let ports = some_ports(&rt, rt.alloc());
    let set = ConnSet::of_ports(rt.alloc(), Proto::Udp, ports).expect(&rt, "a set");
    expect_text(&rt, rt.alloc(), &set, "UDP 1,7-9,90,65535");
}

// The connections over TCP to the ports from 80 to 89.
fn range_of_ports(rt: &impl Abort, alloc: Global) -> ConnSet {
    ConnSet::of(alloc, Proto::Tcp, PortNum::new(80), PortNum::new(89)).expect(rt, "a set")
}

#[test]
fn connections_to_a_range(rt: HostRuntime) {
    let set = range_of_ports(&rt, rt.alloc());
    expect_text(&rt, rt.alloc(), &set, "TCP 80-89");
}
