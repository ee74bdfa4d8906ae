//! Subjects of admin policies.
ghost use Rattle.serde_json.specs.View.{view};
ghost use Rattle.np_json.specs.Prelude.{Gives};
ghost use Rattle.np_policies.specs.AdminPolicies as shapes;

use crate::selector_shape::{SelectorShape, everything};
use np_json::{
    FaultKind, Shape, ShapeFault, has_member, has_one_of, must_be_object, refuse_if, required,
};
use np_labels::Selector;
use np_model::Subject;
use serde_json::Value;
use std::alloc::Global;

/// The shape of `subject` (network-policy-api reference, AdminNetworkPolicySubject): exactly one of `namespaces` and
/// `pods` is there, else `PeerShape`.
#[derive(Drop)]
pub(crate) struct SubjectShape;

impl Shape for SubjectShape {
    type Output = Subject;

    ghost reads = { λ _. shapes.subject };

    #[tactic(auto, unfolding(crate::specs::AdminPolicies::subject))]
    fn read(&self, alloc: Global, value: &Value) -> Result<Subject, ShapeFault> {
        must_be_object(alloc, value)?;
        let has_one = has_one_of(value, &["namespaces", "pods"]);
        refuse_if(alloc, !has_one, FaultKind::PeerShape)?;
        pods_member(alloc, value)
    }
}

/// The one member of `namespaces` and `pods` that is there.
pub(crate) fn pods_member(alloc: Global, value: &Value) -> Result<Subject, ShapeFault>
    ensures { Gives result (shapes.pods_member (view value.now)) }
{
    if has_member(value, "namespaces") {
        required(alloc, value, "namespaces", &AllPods)
    } else {
        required(alloc, value, "pods", &SomePods)
    }
}

// The shape of `namespaces`: all pods of the namespaces that it selects.
#[derive(Drop)]
struct AllPods;

impl Shape for AllPods {
    type Output = Subject;

    ghost reads = { λ _. shapes.all_pods };

    #[tactic(auto, unfolding(crate::specs::AdminPolicies::all_pods))]
    fn read(&self, alloc: Global, value: &Value) -> Result<Subject, ShapeFault> {
        let namespaces = SelectorShape.read(alloc, value)?;
        let pods = everything(alloc);
        Ok(Subject { namespaces, pods })
    }
}

// The shape of `pods` (network-policy-api reference, NamespacedPod): `namespaceSelector` and `podSelector`, both
// required.
#[derive(Drop)]
struct SomePods;

impl Shape for SomePods {
    type Output = Subject;

    ghost reads = { λ _. shapes.some_pods };

    #[tactic(auto, unfolding(crate::specs::AdminPolicies::some_pods))]
    fn read(&self, alloc: Global, value: &Value) -> Result<Subject, ShapeFault> {
        must_be_object(alloc, value)?;
        let namespaces = namespace_selector(alloc, value)?;
        let pods = required(alloc, value, "podSelector", &SelectorShape)?;
        Ok(Subject { namespaces, pods })
    }
}

// The namespaces of `pods`.
#[tactic(auto, unfolding(crate::specs::AdminPolicies::namespace_selector))]
fn namespace_selector(alloc: Global, pods: &Value) -> Result<Selector, ShapeFault>
    ensures { Gives result (shapes.namespace_selector (view pods.now)) }
{
    required(alloc, pods, "namespaceSelector", &SelectorShape)
}
