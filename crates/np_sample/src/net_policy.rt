//! NetworkPolicies (Kubernetes API reference, NetworkPolicy).
ghost use Rattle.std.specs.Prelude.{◌≡◌, ◌<◌, IfOk, string_bytes};
ghost use Rattle.serde_json.specs.View.{view};
ghost use Rattle.np_sample.specs.Objects as spec;

use crate::names::{NAMESPACES, numbered};
use serde_json::{Value, json};
use std::alloc::{AllocError, Global};

// The policy of the namespace of a number: connections come in from the next namespace, and from a block of addresses.
pub(crate) fn net_policy(alloc: Global, number: u32) -> Result<Value, AllocError>
    requires { number < NAMESPACES }
    ensures { IfOk result (λ value. view value ≡ spec.sample_net_policy number) }
{
    let metadata = metadata(alloc, number)?;
    let spec = net_spec(alloc, number)?;
    json!(in alloc; {
        "apiVersion": "networking.k8s.io/v1", "kind": "NetworkPolicy", "metadata": metadata, "spec": spec
    })
}

// Its name and its namespace.
fn metadata(alloc: Global, number: u32) -> Result<Value, AllocError>
    ensures { IfOk result (λ value. view value ≡ spec.net_metadata number) }
{
    let namespace = numbered(alloc, "s", number)?;
    json!(in alloc; {"name": "next", "namespace": namespace})
}

// What it lets in to the pods of its namespace.
fn net_spec(alloc: Global, number: u32) -> Result<Value, AllocError>
    requires { number < NAMESPACES }
    ensures { IfOk result (λ value. view value ≡ spec.sample_net_spec number) }
{
    let next = from_namespace(alloc, (number + 1) % NAMESPACES)?;
    let block = from_block(alloc, number)?;
    json!(in alloc; {"ingress": [next, block], "podSelector": {}, "policyTypes": ["Ingress"]})
}

// The rule that lets the pods of a namespace in, on the port `http`.
fn from_namespace(alloc: Global, number: u32) -> Result<Value, AllocError>
    ensures { IfOk result (λ value. view value ≡ spec.from_namespace number) }
{
    let name = numbered(alloc, "s", number)?;
    let selector = json!(in alloc; {"matchLabels": {"kubernetes.io/metadata.name": name}})?;
    let peer = json!(in alloc; {"namespaceSelector": selector})?;
    net_rule(alloc, peer, Value::try_from_str(alloc, "http")?)
}

// The rule that lets a block of addresses in, on the port 443.
fn from_block(alloc: Global, number: u32) -> Result<Value, AllocError>
    ensures { IfOk result (λ value. view value ≡ spec.from_block number) }
{
    let cidr = block_text(alloc, number)?;
    let peer = json!(in alloc; {"ipBlock": {"cidr": cidr}})?;
    net_rule(alloc, peer, Value::from(443u32))
}

// The block of the addresses that begin with 10 and a number.
fn block_text(alloc: Global, number: u32) -> Result<String, AllocError>
    ensures { IfOk result (λ text. string_bytes text ≡ spec.block_text number) }
{
    format!(in alloc; "10.{number}.0.0/16")
}

// A rule of one peer and one port of TCP.
fn net_rule(alloc: Global, peer: Value, port: Value) -> Result<Value, AllocError>
    ensures { IfOk result (λ value. view value ≡ spec.sample_net_rule (view peer) (view port)) }
{
    json!(in alloc; {"from": [peer], "ports": [{"port": port, "protocol": "TCP"}]})
}
