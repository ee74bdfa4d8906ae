//! Peers of admin policies.
ghost use Rattle.serde_json.specs.View.{view};
ghost use Rattle.np_json.specs.Prelude.{Gives};
ghost use Rattle.np_policies.specs.AdminPolicies as shapes;

use crate::ip_block_shape::CidrText;
use crate::net_rule_shape::peers_member;
use crate::subject_shape::{SubjectShape, pods_member};
use np_base::Seq;
use np_json::{
    FaultKind, Shape, ShapeFault, has_member, has_one_of, listed, must_be_object, refuse_if,
    refuse_member_if,
};
use np_model::{AdminPeer, Direction, Subject};
use serde_json::Value;
use std::alloc::Global;

/// The peers of a rule: `from` or `to`, a list that is `EmptyPeers` where it is missing or empty.
#[tactic(auto, unfolding(crate::specs::AdminPolicies::admin_peers))]
pub(crate) fn admin_peers(
    alloc: Global,
    direction: Direction,
    rule: &Value,
) -> Result<Seq<AdminPeer>, ShapeFault>
    ensures { Gives result (shapes.admin_peers direction (view rule.now)) }
{
    let name = peers_member(direction);
    let peers = listed(alloc, rule, name, &AdminPeerShape { direction })?;
    let has_none = peers.items().is_empty();
    refuse_member_if(alloc, name, has_none, FaultKind::EmptyPeers)?;
    Ok(peers)
}

// The shape of an entry of `from` or `to`.
#[derive(Drop)]
struct AdminPeerShape {
    direction: Direction,
}

impl Shape for AdminPeerShape {
    type Output = AdminPeer;

    ghost reads = { λ shape. shapes.admin_peer shape.direction };

    fn read(&self, alloc: Global, value: &Value) -> Result<AdminPeer, ShapeFault> {
        match self.direction {
            Direction::Ingress => ingress_peer(alloc, value),
            Direction::Egress => egress_peer(alloc, value),
        }
    }
}

// An entry of `from` (network-policy-api reference, AdminNetworkPolicyIngressPeer), which is as a subject.
#[tactic(auto, unfolding(crate::specs::AdminPolicies::ingress_peer))]
fn ingress_peer(alloc: Global, value: &Value) -> Result<AdminPeer, ShapeFault>
    ensures { Gives result (shapes.ingress_peer (view value.now)) }
{
    let Subject { namespaces, pods } = SubjectShape.read(alloc, value)?;
    Ok(AdminPeer::Pods { namespaces, pods })
}

// An entry of `to` (network-policy-api reference, AdminNetworkPolicyEgressPeer): exactly one of `namespaces`, `pods`
// and `networks` is there, else `PeerShape`. Before that, `nodes` is `NodePeer` and `domainNames` is `DomainPeer`.
#[tactic(auto, unfolding(crate::specs::AdminPolicies::egress_peer))]
fn egress_peer(alloc: Global, value: &Value) -> Result<AdminPeer, ShapeFault>
    ensures { Gives result (shapes.egress_peer (view value.now)) }
{
    must_be_object(alloc, value)?;
    let has_nodes = has_member(value, "nodes");
    refuse_member_if(alloc, "nodes", has_nodes, FaultKind::NodePeer)?;
    let has_domains = has_member(value, "domainNames");
    refuse_member_if(alloc, "domainNames", has_domains, FaultKind::DomainPeer)?;
    let has_one = has_one_of(value, &["namespaces", "pods", "networks"]);
    refuse_if(alloc, !has_one, FaultKind::PeerShape)?;
    egress_member(alloc, value)
}

// The one member of the three that is there.
fn egress_member(alloc: Global, value: &Value) -> Result<AdminPeer, ShapeFault>
    ensures { Gives result (shapes.egress_member (view value.now)) }
{
    if has_member(value, "networks") {
        return networks(alloc, value);
    }
    let Subject { namespaces, pods } = pods_member(alloc, value)?;
    Ok(AdminPeer::Pods { namespaces, pods })
}

// The member `networks`: a list of blocks of addresses that is `EmptyPeers` where it is empty.
#[tactic(auto, unfolding(crate::specs::AdminPolicies::networks))]
fn networks(alloc: Global, value: &Value) -> Result<AdminPeer, ShapeFault>
    ensures { Gives result (shapes.networks (view value.now)) }
{
    let cidrs = listed(alloc, value, "networks", &CidrText)?;
    let has_none = cidrs.items().is_empty();
    refuse_member_if(alloc, "networks", has_none, FaultKind::EmptyPeers)?;
    Ok(AdminPeer::Networks { cidrs })
}
