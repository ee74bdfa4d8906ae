//! The sample cluster.
ghost use Rattle.std.specs.Prelude.{◌≡◌, ◌≤◌, ◌++◌, IfOk, OnOk, map};
ghost use Rattle.std.specs.List.{range_with_len};
ghost use Rattle.serde_json.specs.View.{view};
ghost use Rattle.np_sample.specs.Objects as spec;
ghost use Rattle.np_sample.specs.Prelude.{sample_objects, sample_text, sample_value};

use crate::admin_policy::admin_policy;
use crate::names::NAMESPACES;
use crate::namespace::namespace;
use crate::net_policy::net_policy;
use crate::pod::pod;
use np_base::NoMemory;
use serde_json::{Value, json};
use std::alloc::{AllocError, Global};

/// The sample cluster of `n` pods, as the compact JSON text of a `v1` List: five Namespaces, the Pods, a NetworkPolicy in
/// each namespace, which lets in the pods of the next namespace and a block of addresses, and an AdminNetworkPolicy, which
/// keeps out the pods of one label (Kubernetes API reference; network-policy-api reference). It is read
/// without a fault, and folded. `NoMemory` comes for want of memory alone.
pub fn sample(alloc: Global, n: u32) -> Result<Vec<u8>, NoMemory>
    requires least { 1 ≤ n }
    requires most { n ≤ 1000 }
    ensures { IfOk result (λ bytes. bytes.items ≡ sample_text n) }
{
    Ok(list(alloc, n)?.to_vec(alloc)?)
}

// The `v1` List of its objects.
fn list(alloc: Global, n: u32) -> Result<Value, AllocError>
    ensures { IfOk result (λ value. view value ≡ sample_value n) }
{
    let items = objects(alloc, n)?;
    json!(in alloc; {"apiVersion": "v1", "items": items, "kind": "List"})
}

// Its objects.
fn objects(alloc: Global, n: u32) -> Result<Vec<Value>, AllocError>
    ensures { IfOk result (λ values. map view values.items ≡ sample_objects n) }
{
    let mut values = Vec::new(alloc);
    add_namespaces(alloc, &mut values)?;
    add_pods(alloc, n, &mut values)?;
    add_net_policies(alloc, &mut values)?;
    values.push(admin_policy(alloc)?)?;
    Ok(values)
}

fn add_namespaces(alloc: Global, values: &mut Vec<Value>) -> Result<(), AllocError>
    ensures { OnOk result (map view values.new.items
        ≡ map view values.old.items ++ map spec.sample_namespace (range_with_len 0 NAMESPACES)) }
{
    for number in 0..NAMESPACES {
        values.push(namespace(alloc, number)?)?;
    }
    Ok(())
}

fn add_pods(alloc: Global, n: u32, values: &mut Vec<Value>) -> Result<(), AllocError>
    ensures { OnOk result (map view values.new.items
        ≡ map view values.old.items ++ map spec.sample_pod (range_with_len 0 n)) }
{
    for number in 0..n {
        values.push(pod(alloc, number)?)?;
    }
    Ok(())
}

fn add_net_policies(alloc: Global, values: &mut Vec<Value>) -> Result<(), AllocError>
    ensures { OnOk result (map view values.new.items
        ≡ map view values.old.items ++ map spec.sample_net_policy (range_with_len 0 NAMESPACES)) }
{
    for number in 0..NAMESPACES {
        values.push(net_policy(alloc, number)?)?;
    }
    Ok(())
}
