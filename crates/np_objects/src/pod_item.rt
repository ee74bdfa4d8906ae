//! Pods as they are listed.
ghost use Rattle.std.specs.Prelude.{◌≡◌};
ghost use Rattle.np_objects.specs.Pods as pods;

use crate::label_map::{LabelsShape, no_labels};
use crate::owner_ref::OwnerRef;
use crate::owner_reference::{Dependent, OwnerReferenceShape, owner_of};
use crate::pod_spec::{PodSpec, PodSpecShape};
use crate::pod_status::{PodStatus, PodStatusShape};
use np_addr::Addresses;
use np_base::{Seq, Text};
use np_json::{NamespacedName, NamespacedNameShape, Shape, ShapeFault, listed, optional, required};
use np_labels::Labels;
use np_model::NamedPort;
use serde_json::Value;
use std::alloc::Global;

/// A pod as it is listed (Kubernetes API reference, Pod).
#[derive(Drop)]
pub struct PodItem {
    pub namespace: Text,
    pub name: Text,
    pub labels: Labels,
    /// That of the first of its owner references that controls it and is of a kind other than `Node`.
    pub owner: Option<OwnerRef>,
    /// The container ports that have a name, in order.
    pub ports: Seq<NamedPort>,
    /// `status.podIP`, then those of `status.podIPs`, each value once.
    pub addresses: Addresses,
    /// Whether it is on the network of its node: `spec.hostNetwork`.
    pub host_network: bool,
    /// Whether its phase is `Succeeded` or `Failed`.
    pub finished: bool,
}

/// What is read of the metadata of a pod.
#[derive(Drop)]
struct PodMetadata {
    own: NamespacedName,
    labels: Labels,
    owner: Option<OwnerRef>,
}

/// The metadata of a pod (Kubernetes API reference, ObjectMeta).
///
/// | member | what it is |
/// |---|---|
/// | `name`, `namespace` | as for every object in a namespace |
/// | `labels` | an object from texts to texts, each a label |
/// | `ownerReferences` | a list of owner references; the first that controls the pod and is no `Node` is its owner |
#[derive(Drop)]
struct PodMetadataShape;

impl Shape for PodMetadataShape {
    ghost use Rattle.np_objects.specs.Pods.{pod_metadata};

    type Output = PodMetadata;

    ghost reads = { λ _. pod_metadata };

    #[tactic(auto, unfolding(crate::specs::Pods::pod_metadata))]
    fn read(&self, alloc: Global, value: &Value) -> Result<PodMetadata, ShapeFault> {
        let own = NamespacedNameShape.read(alloc, value)?;
        let labels = optional(alloc, value, "labels", &LabelsShape)?;
        let references = listed(alloc, value, "ownerReferences", &OwnerReferenceShape)?;
        let none = no_labels(alloc)?;
        Ok(PodMetadata {
            own,
            labels: labels.unwrap_or(none),
            owner: owner_of(Dependent::Pod, references),
        })
    }
}

/// A pod (Kubernetes API reference, Pod).
///
/// | member | what it is |
/// |---|---|
/// | `metadata` | the metadata of a pod, required |
/// | `spec` | the spec of a pod, required |
/// | `status` | the status of a pod |
#[derive(Drop)]
pub(crate) struct PodShape;

impl Shape for PodShape {
    ghost use Rattle.np_objects.specs.Pods.{pod};

    type Output = PodItem;

    ghost reads = { λ _. pod };

    #[tactic(auto, unfolding(crate::specs::Pods::pod))]
    fn read(&self, alloc: Global, value: &Value) -> Result<PodItem, ShapeFault> {
        let metadata = required(alloc, value, "metadata", &PodMetadataShape)?;
        let spec = required(alloc, value, "spec", &PodSpecShape)?;
        let status = optional(alloc, value, "status", &PodStatusShape)?;
        Ok(pod_item(metadata, spec, status.unwrap_or(PodStatus::none(alloc))))
    }
}

// The pod of what was read of its members.
fn pod_item(metadata: PodMetadata, spec: PodSpec, status: PodStatus) -> PodItem
    ensures { result ≡ pods.pod_item metadata spec status }
{
    PodItem {
        namespace: metadata.own.namespace,
        name: metadata.own.name,
        labels: metadata.labels,
        owner: metadata.owner,
        ports: spec.ports,
        addresses: status.addresses,
        host_network: spec.host_network,
        finished: status.finished,
    }
}
