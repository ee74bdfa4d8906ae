//! What rules see of the pods of the list.

use np_fold::{Traits, listed_cidrs, relevant_keys};
use np_model::Estate;
use std::alloc::Global;
use std::process::Abort;

/// Stops the test unless the pods have the traits that they should.
pub fn expect_traits(rt: &impl Abort, alloc: Global, estate: &Estate) {
    let keys = relevant_keys(alloc, estate).expect(rt, "keys");
    let cidrs = listed_cidrs(alloc, estate).expect(rt, "blocks");
    let pods = Traits::of_all(alloc, estate.pods(), keys.items(), cidrs.items()).expect(
        rt, "traits",
    );
    assert!(rt; are_right(pods.items()), "traits");
}

// The two of the StatefulSet are in the block that is listed.
fn are_right(pods: &[Traits]) -> bool {
    let [first, second, third] = pods else {
        return false;
    };
    is_seen(first, "db", 1) && is_seen(second, "db", 1) && is_seen(third, "c", 0)
}

// Whether rules see of a pod one label, `app` with this value, and that it is in so many blocks.
fn is_seen(pod: &Traits, app: &str, blocks: usize) -> bool {
    let [label] = pod.labels.items() else {
        return false;
    };
    label.key.as_str() == "app" && label.value.as_str() == app && pod.blocks.items().len() == blocks
}
