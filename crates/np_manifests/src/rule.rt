//! Rules (Kubernetes API reference, NetworkPolicyIngressRule and NetworkPolicyEgressRule).
ghost use Rattle.std.specs.Prelude.{◌≡◌, IfOk, map};
ghost use Rattle.serde_json.specs.View.{view};
ghost use Rattle.np_manifests.specs.Manifests as manifests;
ghost use Rattle.np_policies.specs.Prelude.{peers_member};

use crate::manifest::each_value;
use crate::members::put_some;
use np_base::NoMemory;
use np_model::{Direction, NetRule};
use serde_json::{Map, Value};
use std::alloc::Global;

/// The rules of a direction, in their order.
pub(crate) fn rules_value(
    alloc: Global,
    direction: Direction,
    rules: &[NetRule],
) -> Result<Value, NoMemory>
    ensures { IfOk result (λ value. view value ≡ manifests.rules direction rules.now) }
{
    let mut values = Vec::new(alloc);
    for rule in rules {
        values.push(rule_value(alloc, direction, rule)?)?;
    }
    Ok(Value::Array(values))
}

// A rule: its peers and its ports, each where it has some.
fn rule_value(alloc: Global, direction: Direction, rule: &NetRule) -> Result<Value, NoMemory>
    ensures { IfOk result (λ value. view value ≡ manifests.rule_data direction rule.now) }
{
    let peers = each_value(alloc, rule.peers.items())?;
    let ports = each_value(alloc, rule.ports.items())?;
    let mut members = Map::new(alloc);
    put_some(alloc, &mut members, peers_member(direction), peers)?;
    put_some(alloc, &mut members, "ports", ports)?;
    Ok(Value::Object(members))
}

// The member of a rule that lists the other ends.
fn peers_member(direction: Direction) -> &'static str
    ensures { result.now ≡ peers_member direction }
{
    match direction {
        Direction::Ingress => "from",
        Direction::Egress => "to",
    }
}
