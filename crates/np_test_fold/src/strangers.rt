//! What arrives from a pod that nobody has written yet, by the rules of a side and by those that are kept for such pods.
ghost use Rattle.std.specs.Prelude.{◌≡◌, length, IfOk};
ghost use Rattle.np_rules.specs.Prelude.{ArePermitted};

use crate::layers::expect_just;
use np_base::NoMemory;
use np_conns::ConnSet;
use np_model::{Direction, Estate};
use np_rules::{PodRules, Stranger, StrangerRules, joined_set};
use std::alloc::Global;
use std::process::Abort;

// As much arrives from it as from the first pod.
static WANTED: &str = "TCP 80; UDP 53";

// A pod with the labels of the first pod, in its namespace.
fn stranger_like_the_first(rt: &impl Abort, estate: &Estate) -> Stranger
    requires { length estate.now.pods ≡ 2 }
{
    let first = &estate.pods()[0];
    let namespace = first.namespace_labels.labels().copy().expect(rt, "labels");
    let labels = first.labels.copy().expect(rt, "labels");
    Stranger { namespace, labels }
}

/// Stops the test unless what arrives from a pod that nobody has written yet is right, by the rules of a side.
pub fn expect_stranger_by_rules(rt: &impl Abort, alloc: Global, rules: &PodRules<'_>)
    requires { length rules.now.lists.pods ≡ 2 }
{
    let stranger = stranger_like_the_first(rt, rules.estate());
    let layer = rules.stranger_layer(alloc, &stranger).expect(rt, "a layer");
    expect_just(rt, alloc, &layer, WANTED);
}

/// The same by the rules that are kept for such pods.
pub fn expect_stranger_by_kept(rt: &impl Abort, alloc: Global, estate: &Estate)
    requires { length estate.now.pods ≡ 2 }
{
    let rules = StrangerRules::of(alloc, estate, 1, Direction::Ingress).expect(rt, "rules");
    let stranger = stranger_like_the_first(rt, estate);
    expect_kept(rt, alloc, &rules, &stranger);
}

fn expect_kept(rt: &impl Abort, alloc: Global, rules: &StrangerRules<'_>, stranger: &Stranger) {
    let net = permitted(alloc, rules, stranger).expect(rt, "what is permitted");
    let layer = rules.layer(alloc, stranger, net).expect(rt, "a layer");
    expect_just(rt, alloc, &layer, WANTED);
}

// What the NetworkPolicies permit the stranger.
fn permitted(
    alloc: Global,
    rules: &StrangerRules<'_>,
    stranger: &Stranger,
) -> Result<ConnSet, NoMemory>
    ensures { IfOk result (ArePermitted rules.now stranger.now) }
{
    let mut sets = Vec::new(alloc);
    for rule in rules.net() {
        if rule.reaches(rules.namespace(), stranger) {
            sets.push(&rule.conns)?;
        }
    }
    joined_set(alloc, &sets)
}
