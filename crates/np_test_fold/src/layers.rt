//! What the layers of a side let pass, with a pod and with an address.
ghost use Rattle.std.specs.Prelude.{◌≡◌, length};

use np_addr::{Family, read_address};
use np_conns::{ConnSet, print_conns};
use np_rules::PodRules;
use np_tiers::{Layer, verdict_set};
use std::alloc::Global;
use std::process::Abort;

/// Stops the test unless the rule of the first pod and that of all pods let it in, and the one of the block does not.
pub fn expect_from_pod(rt: &impl Abort, alloc: Global, rules: &PodRules<'_>)
    requires { length rules.now.lists.pods ≡ 2 }
{
    let layer = rules
        .pod_layer(alloc, 0, Family::Four)
        .expect(rt, "a layer");
    expect_just(rt, alloc, &layer, "TCP 80; UDP 53");
    let set = rules.pod_set(alloc, 0, Family::Four).expect(rt, "a set");
    expect_conns(rt, alloc, &set, "TCP 80; UDP 53");
}

/// Stops the test unless the rule of the block alone lets the address 10.0.0.1 in.
pub fn expect_from_address(rt: &impl Abort, alloc: Global, rules: &PodRules<'_>) {
    let address = read_address("10.0.0.1").expect(rt, "an address");
    let layer = rules.point_layer(alloc, address).expect(rt, "a layer");
    expect_just(rt, alloc, &layer, "TCP 81");
}

/// Stops the test unless a layer allows the connections of this text, and no others.
pub fn expect_just(rt: &impl Abort, alloc: Global, layer: &Layer<ConnSet>, wanted: &str) {
    let conns = verdict_set(alloc, layer).expect(rt, "a verdict");
    expect_conns(rt, alloc, &conns, wanted);
}

/// Stops the test unless connections have this text.
pub fn expect_conns(rt: &impl Abort, alloc: Global, conns: &ConnSet, wanted: &str) {
    let text = print_conns(alloc, conns).expect(rt, "a text");
    assert!(rt; text.as_str() == wanted, "{wanted}");
}
