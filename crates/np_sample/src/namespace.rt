//! Namespaces (Kubernetes API reference, Namespace).
ghost use Rattle.std.specs.Prelude.{◌≡◌, IfOk};
ghost use Rattle.serde_json.specs.View.{view};
ghost use Rattle.np_sample.specs.Objects as spec;

use crate::names::numbered;
use serde_json::{Value, json};
use std::alloc::{AllocError, Global};

// The namespace of a number.
pub(crate) fn namespace(alloc: Global, number: u32) -> Result<Value, AllocError>
    ensures { IfOk result (λ value. view value ≡ spec.sample_namespace number) }
{
    let name = numbered(alloc, "s", number)?;
    json!(in alloc; {"apiVersion": "v1", "kind": "Namespace", "metadata": {"name": name}})
}
