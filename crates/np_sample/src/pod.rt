//! Pods (Kubernetes API reference, Pod).
ghost use Rattle.std.specs.Prelude.{◌≡◌, IfOk};
ghost use Rattle.serde_json.specs.View.{view};
ghost use Rattle.np_sample.specs.Objects as spec;

use crate::names::{NAMESPACES, numbered};
use serde_json::{Value, json};
use std::alloc::{AllocError, Global};

// How many values the label `app` has, and how many numbers the port `http`.
const APPS: u32 = 7;

const PORTS: u32 = 3;

// The pod of a number. It has one port with a name, and no address.
pub(crate) fn pod(alloc: Global, number: u32) -> Result<Value, AllocError>
    ensures { IfOk result (λ value. view value ≡ spec.sample_pod number) }
{
    let metadata = metadata(alloc, number)?;
    let spec = pod_spec(alloc, 8000 + number % PORTS)?;
    json!(in alloc; {"apiVersion": "v1", "kind": "Pod", "metadata": metadata, "spec": spec})
}

// Its name, its namespace and its label.
fn metadata(alloc: Global, number: u32) -> Result<Value, AllocError>
    ensures { IfOk result (λ value. view value ≡ spec.sample_pod_metadata number) }
{
    let app = numbered(alloc, "a", number % APPS)?;
    let name = numbered(alloc, "p", number)?;
    let namespace = numbered(alloc, "s", number % NAMESPACES)?;
    json!(in alloc; {"labels": {"app": app}, "name": name, "namespace": namespace})
}

// One container with one port.
fn pod_spec(alloc: Global, port: u32) -> Result<Value, AllocError>
    ensures { IfOk result (λ value. view value ≡ spec.sample_pod_spec port) }
{
    let port = json!(in alloc; {"containerPort": port, "name": "http", "protocol": "TCP"})?;
    json!(in alloc; {"containers": [{"ports": [port]}]})
}
