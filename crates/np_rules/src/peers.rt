//! Which ends a peer stands for.
ghost use Rattle.std.specs.Prelude.{◌≡◌, ◌&&◌, [], not, unwrap_or};
ghost use Rattle.std.specs.Option.{option_copied};
ghost use Rattle.std.specs.List.{list_any};
ghost use Rattle.np_addr.specs.Prelude.{block_has, cidr_has, some_block_has};
ghost use Rattle.np_model.specs.Prelude.{is_of};
ghost use Rattle.np_rules.specs.Prelude.{end_view, is_block_of, none_or_any, pod_view, some_inside};
ghost use Rattle.np_rules.specs.model.Peers as spec;

use crate::views::{EndView, PodView};
use np_addr::{Address, Addresses, Cidr, Family, cidr_has};
use np_labels::Selector;
use np_model::{AdminPeer, NetPeer};

/// Whether an end is one of the peers of a rule of a NetworkPolicy of this namespace. No peers at all stand for every
/// end.
pub(crate) fn net_peers_match(namespace: &str, peers: &[NetPeer], far: &EndView<'_>) -> bool
    ensures { result ≡ none_or_any (λ peer. spec.net_peer_matches namespace.now peer (end_view far.now)) peers.now }
{
    peers.is_empty() || some_net_peer_matches(namespace, peers, far)
}

fn some_net_peer_matches(namespace: &str, peers: &[NetPeer], far: &EndView<'_>) -> bool
    ensures { result ≡ list_any (λ peer. spec.net_peer_matches namespace.now peer (end_view far.now)) peers.now }
{
    peers
        .iter()
        .any(|peer| net_peer_matches(namespace, peer, far))
}

fn net_peer_matches(namespace: &str, peer: &NetPeer, far: &EndView<'_>) -> bool
    ensures { result ≡ spec.net_peer_matches namespace.now peer.now (end_view far.now) }
{
    match (peer, far) {
        (NetPeer::Pods { namespaces, pods }, EndView::Pod(pod)) => {
            pods_match(namespace, namespaces.as_ref(), pods.as_ref(), pod)
        }
        (NetPeer::Block { cidr, excepts }, EndView::At(address)) => {
            block_has(cidr, excepts.items(), address)
        }
        _ => false,
    }
}

fn pods_match(
    namespace: &str,
    namespaces: Option<&Selector>,
    pods: Option<&Selector>,
    pod: &PodView<'_>,
) -> bool
    ensures { result ≡ spec.pods_match namespace.now (option_copied namespaces.entry) (option_copied pods.entry) (pod_view pod.now) }
{
    match (namespaces, pods) {
        (None, None) => false,
        (None, Some(pods)) => namespace == pod.namespace && pods.meets(pod.labels),
        (Some(namespaces), None) => namespaces.meets(pod.namespace_labels),
        (Some(namespaces), Some(pods)) => {
            namespaces.meets(pod.namespace_labels) && pods.meets(pod.labels)
        }
    }
}

// Whether an address is in the block and in none of the exceptions.
fn block_has(cidr: &Cidr, excepts: &[Cidr], address: &Address) -> bool
    ensures { result ≡ block_has cidr.now excepts.now address.now }
{
    cidr_has(cidr, *address) && !in_some(excepts, address)
}

// Whether an address is in some of the blocks.
fn in_some(cidrs: &[Cidr], address: &Address) -> bool
    ensures { result ≡ some_block_has cidrs.now address.now }
{
    cidrs.iter().any(|cidr| cidr_has(cidr, *address))
}

/// Whether an end is one of the peers of an admin rule, in a packet of a family.
pub(crate) fn admin_peers_match(peers: &[AdminPeer], far: &EndView<'_>, family: Family) -> bool
    ensures { result ≡ list_any (λ peer. spec.admin_peer_matches peer (end_view far.now) family) peers.now }
{
    peers
        .iter()
        .any(|peer| admin_peer_matches(peer, far, family))
}

fn admin_peer_matches(peer: &AdminPeer, far: &EndView<'_>, family: Family) -> bool
    ensures { result ≡ spec.admin_peer_matches peer.now (end_view far.now) family }
{
    match (peer, far) {
        (AdminPeer::Pods { namespaces, pods }, EndView::Pod(pod)) => {
            namespaces.meets(pod.namespace_labels) && pods.meets(pod.labels)
        }
        (AdminPeer::Networks { cidrs }, EndView::Pod(pod)) => {
            some_address_in(cidrs.items(), pod.addresses, family)
        }
        (AdminPeer::Networks { cidrs }, EndView::At(address)) => in_some(cidrs.items(), address),
        _ => false,
    }
}

// Whether some of the addresses is of the family and in some of the blocks. Without a list there is none.
fn some_address_in(cidrs: &[Cidr], addresses: Option<&Addresses>, family: Family) -> bool
    ensures { result ≡ list_any (λ a. is_of family a && some_block_has cidrs.now a) (unwrap_or (option_copied addresses.entry) []) }
{
    match addresses {
        Some(addresses) => some_inside(cidrs, addresses, family),
        None => false,
    }
}

// Whether some block of the family has some of the addresses. Each block is looked up by halves.
fn some_inside(cidrs: &[Cidr], addresses: &Addresses, family: Family) -> bool
    ensures { result ≡ some_inside family cidrs.now addresses.now }
{
    cidrs.iter().any(|cidr| is_block_of(family, cidr) && addresses.some_in(cidr))
}

// Whether the addresses of a block are of the family.
fn is_block_of(family: Family, cidr: &Cidr) -> bool
    ensures { result ≡ is_block_of family cidr.now }
{
    match cidr {
        Cidr::Four { .. } => family == Family::Four,
        Cidr::Six { .. } => family == Family::Six,
    }
}
