//! Peers (Kubernetes API reference, NetworkPolicyPeer and IPBlock).
ghost use Rattle.std.specs.Prelude.{◌≡◌, IfOk, option_map};
ghost use Rattle.std.specs.Option.{option_copied};
ghost use Rattle.serde_json.specs.View.{view};
ghost use Rattle.np_manifests.specs.Manifests as manifests;

use crate::manifest::{Manifest, each_value};
use crate::members::{put_given, put_some};
use np_addr::Cidr;
use np_base::NoMemory;
use np_labels::Selector;
use np_model::NetPeer;
use serde_json::{Map, Value, json, put};
use std::alloc::Global;

impl Manifest for NetPeer {
    ghost json = { manifests.peer };

    fn value(&self, alloc: Global) -> Result<Value, NoMemory> {
        match self {
            NetPeer::Pods { namespaces, pods } => {
                pods_value(alloc, namespaces.as_ref(), pods.as_ref())
            }
            NetPeer::Block { cidr, excepts } => {
                let block = block_value(alloc, cidr, excepts.items())?;
                Ok(json!(in alloc; {"ipBlock": block})?)
            }
        }
    }
}

// The peer of pods by the labels of their namespaces and their own.
fn pods_value(
    alloc: Global,
    namespaces: Option<&Selector>,
    pods: Option<&Selector>,
) -> Result<Value, NoMemory>
    ensures { IfOk result (λ value. view value ≡ manifests.pods (option_copied namespaces.entry) (option_copied pods.entry)) }
{
    let namespaces = selector_value(alloc, namespaces)?;
    let pods = selector_value(alloc, pods)?;
    let mut members = Map::new(alloc);
    put_given(alloc, &mut members, "namespaceSelector", namespaces)?;
    put_given(alloc, &mut members, "podSelector", pods)?;
    Ok(Value::Object(members))
}

// A selector that may be missing.
fn selector_value(alloc: Global, selector: Option<&Selector>) -> Result<Option<Value>, NoMemory>
    ensures { IfOk result (λ value. option_map view value ≡ option_map manifests.selector_data (option_copied selector.entry)) }
{
    match selector {
        Some(selector) => Ok(Some(selector.value(alloc)?)),
        None => Ok(None),
    }
}

// A block of addresses without some of its parts.
fn block_value(alloc: Global, cidr: &Cidr, excepts: &[Cidr]) -> Result<Value, NoMemory>
    ensures { IfOk result (λ value. view value ≡ manifests.ip_block_data cidr.now excepts.now) }
{
    let excepts = each_value(alloc, excepts)?;
    let mut members = Map::new(alloc);
    put(&mut members, alloc, "cidr", cidr.value(alloc)?)?;
    put_some(alloc, &mut members, "except", excepts)?;
    Ok(Value::Object(members))
}
