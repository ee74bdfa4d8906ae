//! The AdminNetworkPolicy (network-policy-api reference, AdminNetworkPolicy).
ghost use Rattle.std.specs.Prelude.{◌≡◌, IfOk};
ghost use Rattle.serde_json.specs.View.{view};
ghost use Rattle.np_sample.specs.Objects as spec;

use serde_json::{Value, json};
use std::alloc::{AllocError, Global};

// The policy that stops connections from pods with one value of the label `app`.
pub(crate) fn admin_policy(alloc: Global) -> Result<Value, AllocError>
    ensures { IfOk result (λ value. view value ≡ spec.sample_admin_policy) }
{
    let spec = admin_spec(alloc)?;
    json!(in alloc; {
        "apiVersion": "policy.networking.k8s.io/v1alpha1",
        "kind": "AdminNetworkPolicy",
        "metadata": {"name": "stop"},
        "spec": spec
    })
}

// Its one rule, for all pods.
fn admin_spec(alloc: Global) -> Result<Value, AllocError>
    ensures { IfOk result (λ value. view value ≡ spec.sample_admin_spec) }
{
    let rule = admin_rule(alloc)?;
    json!(in alloc; {"ingress": [rule], "priority": 10u32, "subject": {"namespaces": {}}})
}

fn admin_rule(alloc: Global) -> Result<Value, AllocError>
    ensures { IfOk result (λ value. view value ≡ spec.sample_admin_rule) }
{
    let pods =
        json!(in alloc; {"namespaceSelector": {}, "podSelector": {"matchLabels": {"app": "a6"}}})?;
    json!(in alloc; {"action": "Deny", "from": [{"pods": pods}]})
}
