//! Where to look for a side that is the same.
ghost use Rattle.std.specs.Prelude.{◌<◌, AllPairs, length};
ghost use Rattle.np_model.specs.Prelude.{PolicyStandsBefore};

use crate::near_ends::view_at;
use crate::own_policies::own_policies;
use crate::selection::{net_selects, subject_selects};
use crate::views::PodView;
use np_model::{AdminPolicy, Direction, Estate, NamedPort, NetPolicy};

// A number with many bits in all places.
const STEP: u64 = 0x9E37_79B9_7F4A_7C15;

/// A number that sides have which are the same, and that others mostly do not have: so that who looks for the same side need not
/// ask all. Nothing is promised of it. The pod is named by its place in the estate.
pub fn side_mark(estate: &Estate, pod: u32, direction: Direction) -> u64
    requires { pod < length estate.now.pods }
{
    let near = view_at(estate, pod);
    let mut mark = mark_of_admin(estate.admin_policies(), &near);
    mark = mixed(mark, mark_of_net(estate.net_policies(), &near));
    mark = mixed(mark, mark_of_base(estate, &near));
    match direction {
        Direction::Ingress => mixed(mark, mark_of_ports(near.ports)),
        Direction::Egress => mark,
    }
}

// One number more.
fn mixed(mark: u64, number: u64) -> u64 {
    mark.wrapping_add(number).wrapping_add(1).wrapping_mul(STEP)
}

// The places of the AdminNetworkPolicies that select the pod.
fn mark_of_admin(policies: &[AdminPolicy], near: &PodView<'_>) -> u64 {
    let mut mark = 0u64;
    for (place, policy) in policies.iter().enumerate() {
        if subject_selects(&policy.subject, near) {
            mark = mixed(mark, place as u64);
        }
    }
    mark
}

// The places of the NetworkPolicies that select the pod, among which are none of other namespaces.
fn mark_of_net(policies: &[NetPolicy], near: &PodView<'_>) -> u64
    requires { AllPairs PolicyStandsBefore policies.now }
{
    let own = own_policies(policies, near.namespace);
    let mut mark = 0u64;
    for (among, policy) in own.policies.iter().enumerate() {
        if net_selects(policy, near) {
            mark = mixed(mark, own.first.wrapping_add(among) as u64);
        }
    }
    mark
}

// Whether the baseline selects the pod.
fn mark_of_base(estate: &Estate, near: &PodView<'_>) -> u64 {
    match estate.baseline() {
        Some(policy) if subject_selects(&policy.subject, near) => 1,
        _ => 0,
    }
}

// The named ports.
fn mark_of_ports(ports: &[NamedPort]) -> u64 {
    let mut mark = 0u64;
    for port in ports {
        mark = mixed(mark, mark_of_name(port.name.as_str()));
        mark = mixed(mark, u64::from(port.number.get()));
    }
    mark
}

// The bytes of a name.
fn mark_of_name(name: &str) -> u64 {
    let mut mark = 0u64;
    for byte in name.as_bytes() {
        mark = mixed(mark, u64::from(*byte));
    }
    mark
}
