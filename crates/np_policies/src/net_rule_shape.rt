//! Rules of NetworkPolicies.
ghost use Rattle.std.specs.Prelude.{◌≡◌};
ghost use Rattle.serde_json.specs.View.{view};
ghost use Rattle.np_json.specs.Prelude.{Gives};
ghost use Rattle.np_policies.specs.NetworkPolicies as shapes;
ghost use Rattle.np_model.specs.Prelude.{direction_text};

use crate::net_peer_shape::NetPeerShape;
use crate::net_port_shape::NetPortShape;
use np_base::Seq;
use np_json::{Shape, ShapeFault, listed, must_be_object};
use np_model::{Direction, NetRule};
use serde_json::Value;
use std::alloc::Global;

/// The rules of a direction.
#[tactic(auto, unfolding(crate::specs::NetworkPolicies::net_rules))]
pub(crate) fn net_rules(
    alloc: Global,
    direction: Direction,
    spec: &Value,
) -> Result<Seq<NetRule>, ShapeFault>
    ensures { Gives result (shapes.net_rules direction (view spec.now)) }
{
    listed(
        alloc,
        spec,
        rules_member(direction),
        &NetRuleShape { direction },
    )
}

// The shape of an entry of `ingress` or `egress` (Kubernetes API reference, NetworkPolicyIngressRule and
// NetworkPolicyEgressRule): `from` or `to`, and `ports`.
#[derive(Drop)]
struct NetRuleShape {
    direction: Direction,
}

impl Shape for NetRuleShape {
    type Output = NetRule;

    ghost reads = { λ shape. shapes.net_rule shape.direction };

    #[tactic(auto, unfolding(crate::specs::NetworkPolicies::net_rule))]
    fn read(&self, alloc: Global, value: &Value) -> Result<NetRule, ShapeFault> {
        must_be_object(alloc, value)?;
        let peers = listed(alloc, value, peers_member(self.direction), &NetPeerShape)?;
        let ports = listed(alloc, value, "ports", &NetPortShape)?;
        Ok(NetRule { peers, ports })
    }
}

/// The member of a rule that lists the other ends.
pub(crate) fn peers_member(direction: Direction) -> &'static str
    ensures { result.now ≡ shapes.peers_member direction }
{
    match direction {
        Direction::Ingress => "from",
        Direction::Egress => "to",
    }
}

/// The member of a spec that lists the rules.
pub(crate) fn rules_member(direction: Direction) -> &'static str
    ensures { result.now ≡ direction_text direction }
{
    match direction {
        Direction::Ingress => "ingress",
        Direction::Egress => "egress",
    }
}
