//! NetworkPolicies (Kubernetes API reference, NetworkPolicy).
ghost use Rattle.std.specs.Prelude.{◌≡◌, IfOk, option_map};
ghost use Rattle.std.specs.Option.{option_copied};
ghost use Rattle.serde_json.specs.View.{view};
ghost use Rattle.np_manifests.specs.Lists.{policy_text};
ghost use Rattle.np_manifests.specs.Manifests as manifests;

use crate::manifest::Manifest;
use crate::members::put_given;
use crate::rule::rules_value;
use np_base::{NoMemory, Seq};
use np_model::{Direction, NetPolicy, NetRule};
use serde_json::{Map, Value, json, put};
use std::alloc::{AllocError, Global};

/// The compact JSON text of a policy, as `serde_json` writes it. `NoMemory` comes for want of memory alone.
///
/// The rules of a direction are written exactly where it is among the policy's types, even if there is none; a list of
/// peers, of ports, of values or of exceptions only where there are some; a selector as `matchExpressions` alone; and
/// `endPort` only where a run has more than one port.
pub fn print_policy(alloc: Global, policy: &NetPolicy) -> Result<Vec<u8>, NoMemory>
    ensures { IfOk result (λ text. text.items ≡ policy_text policy.now) }
{
    Ok(policy_value(alloc, policy)?.to_vec(alloc)?)
}

// A policy.
fn policy_value(alloc: Global, policy: &NetPolicy) -> Result<Value, NoMemory>
    ensures { IfOk result (λ value. view value ≡ manifests.policy policy.now) }
{
    let metadata = metadata_value(alloc, policy)?;
    let spec = spec_value(alloc, policy)?;
    Ok(object_of(alloc, metadata, spec)?)
}

// The object of its metadata and its spec.
fn object_of(alloc: Global, metadata: Value, spec: Value) -> Result<Value, AllocError>
    ensures { IfOk result (λ value. view value ≡ manifests.object_data (view metadata) (view spec)) }
{
    json!(in alloc; {
        "apiVersion": "networking.k8s.io/v1", "kind": "NetworkPolicy", "metadata": metadata, "spec": spec
    })
}

// Its name and its namespace.
fn metadata_value(alloc: Global, policy: &NetPolicy) -> Result<Value, NoMemory>
    ensures { IfOk result (λ value. view value ≡ manifests.metadata policy.now) }
{
    let name = policy.name.as_str();
    let namespace = policy.namespace.as_str();
    Ok(json!(in alloc; {"name": name, "namespace": namespace})?)
}

// Whom it selects, its types and its rules.
fn spec_value(alloc: Global, policy: &NetPolicy) -> Result<Value, NoMemory>
    ensures { IfOk result (λ value. view value ≡ manifests.spec policy.now) }
{
    let ingress = direction_value(alloc, Direction::Ingress, policy.ingress.as_ref())?;
    let egress = direction_value(alloc, Direction::Egress, policy.egress.as_ref())?;
    let subject = policy.subject.value(alloc)?;
    let types = types_value(alloc, policy)?;
    let mut members = Map::new(alloc);
    put_given(alloc, &mut members, "egress", egress)?;
    put_given(alloc, &mut members, "ingress", ingress)?;
    put(&mut members, alloc, "podSelector", subject)?;
    put(&mut members, alloc, "policyTypes", types)?;
    Ok(Value::Object(members))
}

// The rules of a direction, if it is among the types.
fn direction_value(
    alloc: Global,
    direction: Direction,
    rules: Option<&Seq<NetRule>>,
) -> Result<Option<Value>, NoMemory>
    ensures { IfOk result (λ value. option_map view value ≡ option_map (manifests.rules direction) (option_copied rules.entry)) }
{
    match rules {
        Some(rules) => Ok(Some(rules_value(alloc, direction, rules.items())?)),
        None => Ok(None),
    }
}

// The types that it has.
fn types_value(alloc: Global, policy: &NetPolicy) -> Result<Value, NoMemory>
    ensures { IfOk result (λ value. view value ≡ manifests.types policy.now) }
{
    let mut types = Vec::new(alloc);
    if policy.ingress.is_some() {
        types.push(Value::try_from_str(alloc, "Ingress")?)?;
    }
    if policy.egress.is_some() {
        types.push(Value::try_from_str(alloc, "Egress")?)?;
    }
    Ok(Value::Array(types))
}
