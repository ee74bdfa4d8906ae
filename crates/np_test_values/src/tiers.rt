//! Layers of tiers, and what they decide, by example. Longer tiers stand in transcripts/tiers.txt.

use crate::sets::Written;
use np_base::{Cells, Seq};
use np_conns::ConnSet;
use np_model::Action;
use np_tiers::{AdminPart, BasePart, Layer, Mark, Marked, carve, verdict_set};
use std::alloc::Global;
use std::process::Abort;

// A list of one.
fn listed<T: Drop>(rt: &impl Abort, alloc: Global, only: T) -> Seq<T> {
    let mut list = Seq::new(alloc);
    list.push(only).expect(rt, "a list");
    list
}

// The part of an action and of the set that a text writes.
fn part<S: Written>(rt: &impl Abort, alloc: Global, action: Action, text: &str) -> AdminPart<S> {
    let set = S::read(rt, alloc, text);
    AdminPart { action, set }
}

// The first part that has a spot decides it, and a pass hands it down past the other admin parts.
fn admin_parts<S: Written>(rt: &impl Abort, alloc: Global) -> Seq<AdminPart<S>> {
    let mut parts = listed(rt, alloc, part(rt, alloc, Action::Allow, "TCP 22"));
    parts
        .push(part(rt, alloc, Action::Pass, "TCP 22-23"))
        .expect(rt, "a pass");
    parts
        .push(part(rt, alloc, Action::Deny, "TCP 22-24"))
        .expect(rt, "a deny");
    parts
}

// The layer of these parts, isolated or not.
fn layer<S: Written>(rt: &impl Abort, alloc: Global, isolated: bool) -> Layer<S> {
    let set = S::read(rt, alloc, "TCP 1-80");
    let base = listed(rt, alloc, BasePart { allow: false, set });
    let net = listed(rt, alloc, S::read(rt, alloc, "TCP 8-23"));
    let admin = admin_parts(rt, alloc);
    Layer {
        admin,
        isolated,
        net,
        base,
    }
}

// Stops the test unless that is what the layer allows.
fn expect_allowed<S: Written>(rt: &impl Abort, alloc: Global, isolated: bool, text: &str) {
    let layer: Layer<S> = layer(rt, alloc, isolated);
    let allowed = verdict_set(alloc, &layer).expect(rt, "a verdict");
    assert!(rt; allowed.same(&S::read(rt, alloc, text)), "{text}");
}

// Only an isolated layer looks at its sets, and only another at the baseline.
#[test]
fn what_a_layer_allows(rt: HostRuntime) {
    let open = "TCP 22,81-65535; UDP 1-65535; SCTP 1-65535";
    expect_allowed::<ConnSet>(&rt, rt.alloc(), false, open);
    expect_allowed::<ConnSet>(&rt, rt.alloc(), true, "TCP 8-23");
}

// Whether this is the set of the entry of a mark.
fn is_marked<S: Cells>(entries: &[Marked<S>], mark: Mark, set: &S) -> bool {
    for entry in entries {
        if entry.mark == mark {
            return entry.set.same(set);
        }
    }
    false
}

// Stops the test unless five marks decide some spot in the layer, and this one these connections.
fn expect_decider<S: Written>(
    rt: &impl Abort,
    alloc: Global,
    isolated: bool,
    mark: Mark,
    text: &str,
) {
    let layer: Layer<S> = layer(rt, alloc, isolated);
    let entries = carve(alloc, &layer).expect(rt, "what decides");
    assert!(rt; entries.items().len() == 5, "{text}");
    assert!(rt;
        is_marked(entries.items(), mark, &S::read(rt, alloc, text)),
        "{text}"
    );
}

// A deny, a rule of the baseline behind a pass, and a set behind a pass.
#[test]
fn what_decides(rt: HostRuntime) {
    let pass = Some(1);
    let deny = Mark::Admin { place: 2 };
    let passed = Mark::Base { pass, place: 0 };
    let net = Mark::Net { pass, place: 0 };
    expect_decider::<ConnSet>(&rt, rt.alloc(), false, deny, "TCP 24");
    expect_decider::<ConnSet>(&rt, rt.alloc(), false, passed, "TCP 23");
    expect_decider::<ConnSet>(&rt, rt.alloc(), true, net, "TCP 23");
}
