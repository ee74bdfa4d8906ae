//! NetworkPolicies.
ghost use Rattle.std.specs.Prelude.{◌≡◌, unwrap_or};
ghost use Rattle.std.specs.List.{list_any};
ghost use Rattle.np_policies.specs.NetworkPolicies as shapes;

use crate::net_rule_shape::net_rules;
use crate::selector_shape::{SelectorShape, everything, or_everything};
use np_base::Seq;
use np_json::{
    NamespacedName, NamespacedNameShape, Shape, ShapeFault, listed, must_be_object, of_type,
    optional, required,
};
use np_labels::Selector;
use np_model::{Direction, NetPolicy, NetRule};
use serde_json::Value;
use std::alloc::Global;

/// The shape of a NetworkPolicy (Kubernetes API reference, NetworkPolicy): `metadata`, which is required, and
/// `spec`.
#[derive(Drop)]
pub(crate) struct NetPolicyShape;

impl Shape for NetPolicyShape {
    type Output = NetPolicy;

    ghost reads = { λ _. shapes.net_policy };

    #[tactic(auto, unfolding(crate::specs::NetworkPolicies::net_policy))]
    fn read(&self, alloc: Global, value: &Value) -> Result<NetPolicy, ShapeFault> {
        let meta = required(alloc, value, "metadata", &NamespacedNameShape)?;
        let spec = optional(alloc, value, "spec", &NetSpecShape)?;
        Ok(net_policy_by(meta, or_empty(alloc, spec)))
    }
}

/// The members of `spec` of a NetworkPolicy.
#[derive(Drop)]
pub struct NetSpec {
    pub subject: Selector,
    pub types: Seq<Direction>,
    pub ingress: Seq<NetRule>,
    pub egress: Seq<NetRule>,
}

// The shape of `spec` (Kubernetes API reference, NetworkPolicySpec): `podSelector`, `policyTypes`, `ingress` and
// `egress`. All rules are read, whatever the types are.
#[derive(Drop)]
struct NetSpecShape;

impl Shape for NetSpecShape {
    type Output = NetSpec;

    ghost reads = { λ _. shapes.net_spec };

    #[tactic(auto, unfolding(crate::specs::NetworkPolicies::net_spec))]
    fn read(&self, alloc: Global, value: &Value) -> Result<NetSpec, ShapeFault> {
        must_be_object(alloc, value)?;
        let subject = optional(alloc, value, "podSelector", &SelectorShape)?;
        let types = listed(alloc, value, "policyTypes", &PolicyType)?;
        let ingress = net_rules(alloc, Direction::Ingress, value)?;
        let egress = net_rules(alloc, Direction::Egress, value)?;
        Ok(NetSpec {
            subject: or_everything(alloc, subject),
            types,
            ingress,
            egress,
        })
    }
}

// An entry of `policyTypes`: `Ingress` or `Egress`, else `BadField`.
#[derive(Drop)]
struct PolicyType;

impl Shape for PolicyType {
    type Output = Direction;

    ghost reads = { λ _. shapes.policy_type };

    #[tactic(auto, unfolding(crate::specs::NetworkPolicies::policy_type))]
    fn read(&self, alloc: Global, value: &Value) -> Result<Direction, ShapeFault> {
        let text = of_type(alloc, value.as_str())?;
        of_type(alloc, direction_named(text))
    }
}

fn direction_named(text: &str) -> Option<Direction>
    ensures { result ≡ shapes.direction_named text.now }
{
    match text {
        "Ingress" => Some(Direction::Ingress),
        "Egress" => Some(Direction::Egress),
        _ => None,
    }
}

// A spec that may be missing: it has no members then.
fn or_empty(alloc: Global, spec: Option<NetSpec>) -> NetSpec
    ensures { result ≡ unwrap_or spec shapes.empty_spec }
{
    match spec {
        Some(spec) => spec,
        None => NetSpec {
            subject: everything(alloc),
            types: Seq::new(alloc),
            ingress: Seq::new(alloc),
            egress: Seq::new(alloc),
        },
    }
}

#[tactic(auto, unfolding(crate::specs::NetworkPolicies::net_policy_by))]
fn net_policy_by(meta: NamespacedName, spec: NetSpec) -> NetPolicy
    ensures { result ≡ shapes.net_policy_by meta spec }
{
    let has_ingress = has_direction(&spec, Direction::Ingress);
    let has_egress = has_direction(&spec, Direction::Egress);
    NetPolicy {
        namespace: meta.namespace,
        name: meta.name,
        subject: spec.subject,
        ingress: rules_if(has_ingress, spec.ingress),
        egress: rules_if(has_egress, spec.egress),
    }
}

// The rules of a direction, if it is among the types.
fn rules_if(has: bool, rules: Seq<NetRule>) -> Option<Seq<NetRule>>
    ensures { result ≡ shapes.rules_if has rules }
{
    if has { Some(rules) } else { None }
}

// Whether the direction is among the types. Without `policyTypes`, or with an empty list, Ingress is, and Egress
// where it has a rule.
fn has_direction(spec: &NetSpec, direction: Direction) -> bool
    ensures { result ≡ shapes.has_direction spec.now direction }
{
    if spec.types.items().is_empty() {
        has_by_default(direction, spec.egress.items())
    } else {
        is_listed(spec.types.items(), direction)
    }
}

fn has_by_default(direction: Direction, egress: &[NetRule]) -> bool
    ensures { result ≡ shapes.has_by_default direction egress.now }
{
    match direction {
        Direction::Ingress => true,
        Direction::Egress => !egress.is_empty(),
    }
}

fn is_listed(types: &[Direction], direction: Direction) -> bool
    ensures { result ≡ list_any (λ listed. shapes.is_same_direction listed direction) types.now }
{
    types.iter().any(|listed| is_same(*listed, direction))
}

fn is_same(a: Direction, b: Direction) -> bool
    ensures { result ≡ shapes.is_same_direction a b }
{
    match (a, b) {
        (Direction::Ingress, Direction::Ingress) | (Direction::Egress, Direction::Egress) => true,
        _ => false,
    }
}
