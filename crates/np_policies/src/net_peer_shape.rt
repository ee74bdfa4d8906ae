//! Peers of NetworkPolicies.
ghost use Rattle.std.specs.Prelude.{◌≡◌};
ghost use Rattle.serde_json.specs.View.{view};
ghost use Rattle.np_policies.specs.NetworkPolicies as shapes;

use crate::ip_block_shape::{IpBlock, IpBlockShape};
use crate::selector_shape::SelectorShape;
use np_json::{FaultKind, Shape, ShapeFault, has_member, must_be_object, optional, refuse_if};
use np_labels::Selector;
use np_model::NetPeer;
use serde_json::Value;
use std::alloc::Global;

/// The shape of an entry of `from` or `to` (Kubernetes API reference, NetworkPolicyPeer): `podSelector`,
/// `namespaceSelector` or both, or `ipBlock` alone. Any other combination is `PeerShape`, before all else.
#[derive(Drop)]
pub(crate) struct NetPeerShape;

impl Shape for NetPeerShape {
    type Output = NetPeer;

    ghost reads = { λ _. shapes.net_peer };

    #[tactic(auto, unfolding(crate::specs::NetworkPolicies::net_peer))]
    fn read(&self, alloc: Global, value: &Value) -> Result<NetPeer, ShapeFault> {
        must_be_object(alloc, value)?;
        refuse_if(alloc, is_misshapen(value), FaultKind::PeerShape)?;
        let pods = optional(alloc, value, "podSelector", &SelectorShape)?;
        let namespaces = optional(alloc, value, "namespaceSelector", &SelectorShape)?;
        let block = optional(alloc, value, "ipBlock", &IpBlockShape)?;
        Ok(net_peer_by(pods, namespaces, block))
    }
}

// Whether the peer has none of its three members, or `ipBlock` with another.
fn is_misshapen(value: &Value) -> bool
    ensures { result ≡ shapes.is_misshapen (view value.now) }
{
    let has_selector = has_member(value, "podSelector") || has_member(value, "namespaceSelector");
    if has_member(value, "ipBlock") {
        has_selector
    } else {
        !has_selector
    }
}

fn net_peer_by(
    pods: Option<Selector>,
    namespaces: Option<Selector>,
    block: Option<IpBlock>,
) -> NetPeer
    ensures { result ≡ shapes.net_peer_by pods namespaces block }
{
    match block {
        None => NetPeer::Pods { namespaces, pods },
        Some(IpBlock { cidr, excepts }) => NetPeer::Block { cidr, excepts },
    }
}
