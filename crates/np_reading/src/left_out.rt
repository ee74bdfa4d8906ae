//! What is left out of an estate, and counted.
ghost use Rattle.std.specs.Prelude.{◌≡◌, ◌≤◌, false, length, ◌==◌, map, IfOk};
ghost use Rattle.std.specs.List.{list_any};
ghost use Rattle.std.specs.Option.{option_copied, option_map_or};
ghost use Rattle.np_reading.specs.LeftOut as spec;
ghost use Rattle.np_owners.specs.MadePods as made_pods;
ghost use Rattle.np_model.specs.Prelude.{is_networks};

use crate::context::is_on_host;
use np_base::NoMemory;
use np_items::Item;
use np_model::{AdminPeer, AdminPolicy, BasePolicy, Pod, admin_peers};
use np_objects::Object;
use std::alloc::Global;

/// Why an item is left out.
#[derive(Clone, Copy, PartialEq, Eq)]
pub(crate) enum LeftOut {
    /// It is a pod, or gives one, on the network of its node.
    Host,
    /// It is a pod of the phase `Succeeded` or `Failed`.
    Finished,
    /// It is of a kind that is not read.
    Skipped,
}

/// How many items are left out for a reason. `makers` says of each item whether it is a controller that stands for a
/// pod.
pub(crate) fn count_left_out(items: &[Item], makers: &[bool], why: LeftOut) -> u64
    requires few { length items.now ≤ 20000 }
    requires makers { makers.now ≡ made_pods.makers items.now }
    ensures { result ≡ spec.count_left_out items.now why }
{
    let mut count = 0;
    for (place, item) in items.iter().enumerate() {
        if is_for(why, left_out(makers[place], item)) {
            count += 1;
        }
    }
    count
}

// Whether an item is left out for that reason.
fn is_for(why: LeftOut, found: Option<LeftOut>) -> bool
    ensures { result ≡ option_map_or (spec.is_for why) found false }
{
    match found {
        Some(found) => why == found,
        None => false,
    }
}

// Why an item is left out, if it is one that is counted.
fn left_out(makes: bool, item: &Item) -> Option<LeftOut>
    ensures { result ≡ spec.left_out makes item.now }
{
    match item {
        // One on the network of its node counts as that alone.
        Item::Object(Object::Pod(pod)) if pod.host_network => Some(LeftOut::Host),
        Item::Object(Object::Pod(pod)) if pod.finished => Some(LeftOut::Finished),
        Item::Object(Object::Controller(controller)) if makes && is_on_host(controller) => {
            Some(LeftOut::Host)
        }
        Item::Object(Object::Other) => Some(LeftOut::Skipped),
        _ => None,
    }
}

/// How many pods have no address, where some policy lists networks, which match none of them, and else 0.
pub(crate) fn unaddressed(
    alloc: Global,
    pods: &[Pod],
    policies: &[AdminPolicy],
    baseline: Option<&BasePolicy>,
) -> Result<u64, NoMemory>
    ensures { IfOk result (λ count. count ≡ spec.unaddressed pods.now policies.now (option_copied baseline.entry)) }
{
    if list_networks(&admin_peers(alloc, policies, baseline)?) {
        Ok(pods.iter().filter(|pod| has_no_address(pod)).count() as u64)
    } else {
        Ok(0)
    }
}

// Whether some peer lists networks.
fn list_networks(peers: &[&AdminPeer]) -> bool
    ensures { result ≡ list_any is_networks (map (λ peer. peer.now) peers.now) }
{
    for peer in peers {
        if matches!(peer, AdminPeer::Networks { .. }) {
            return true;
        }
    }
    false
}

// Whether a pod has no address.
fn has_no_address(pod: &Pod) -> bool
    ensures { result ≡ (length pod.now.addresses == 0) }
{
    pod.addresses.items().is_empty()
}
