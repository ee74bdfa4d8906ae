//! What a side lets pass at all addresses.

use crate::layers::expect_conns;
use np_base::{Cells, Point};
use np_rules::{AddrConns, PodRules};
use np_tiers::{Layer, verdict_set};
use std::alloc::Global;
use std::process::Abort;

/// Stops the test unless what arrives from all addresses is right.
pub fn expect_at_addresses(rt: &impl Abort, alloc: Global, rules: &PodRules<'_>) {
    let conns = rules.address_set(alloc).expect(rt, "connections");
    expect_from_block(rt, alloc, &conns);
}

/// The same by the layer.
pub fn expect_by_layer_of_addresses(rt: &impl Abort, alloc: Global, rules: &PodRules<'_>) {
    let layer = rules.address_layer(alloc).expect(rt, "a layer");
    expect_block_allowed(rt, alloc, &layer);
}

fn expect_block_allowed(rt: &impl Abort, alloc: Global, layer: &Layer<AddrConns>) {
    let conns = verdict_set(alloc, layer).expect(rt, "a verdict");
    expect_from_block(rt, alloc, &conns);
}

// Stops the test unless what the rule of the block has arrives from 10.0.0.0/8, and nothing from the other addresses of IPv4 and from
// those of IPv6.
fn expect_from_block(rt: &impl Abort, alloc: Global, conns: &AddrConns) {
    let [below, block, above] = conns.first.pieces() else {
        panic!(rt; "three pieces of IPv4");
    };
    let [six] = conns.second.pieces() else {
        panic!(rt; "one piece of IPv6");
    };
    assert!(rt; below.value.is_empty() && above.value.is_empty() && six.value.is_empty());
    assert!(rt; block.lo.number() == 0x0a00_0000 && block.hi.number() == 0x0aff_ffff);
    expect_conns(rt, alloc, &block.value, "TCP 81");
}
