//! Specs of pods.

use crate::lists::{joined, somes};
use crate::port_shapes::ContainerPortShape;
use np_base::Seq;
use np_json::{Flag, Shape, ShapeFault, listed, must_be_object, optional};
use np_model::NamedPort;
use serde_json::Value;
use std::alloc::Global;

/// What is read of the spec of a pod.
#[derive(Drop)]
pub(crate) struct PodSpec {
    /// The container ports that have a name, in order.
    pub(crate) ports: Seq<NamedPort>,
    pub(crate) host_network: bool,
}

/// An item of `containers`: its ports that have a name (Kubernetes API reference, Container).
///
/// | member | what it is |
/// |---|---|
/// | `ports` | a list of container ports |
#[derive(Drop)]
struct ContainerShape;

impl Shape for ContainerShape {
    ghost use Rattle.np_objects.specs.PodSpecs.{container};

    type Output = Seq<NamedPort>;

    ghost reads = { λ _. container };

    #[tactic(auto, unfolding(crate::specs::PodSpecs::container))]
    fn read(&self, alloc: Global, value: &Value) -> Result<Seq<NamedPort>, ShapeFault> {
        must_be_object(alloc, value)?;
        let ports = listed(alloc, value, "ports", &ContainerPortShape)?;
        Ok(somes(alloc, ports)?)
    }
}

/// The spec of a pod (Kubernetes API reference, PodSpec).
///
/// | member | what it is |
/// |---|---|
/// | `containers` | a list of containers |
/// | `hostNetwork` | true or false, and false where it is missing |
#[derive(Drop)]
pub(crate) struct PodSpecShape;

impl Shape for PodSpecShape {
    ghost use Rattle.np_objects.specs.PodSpecs.{pod_spec};

    type Output = PodSpec;

    ghost reads = { λ _. pod_spec };

    #[tactic(auto, unfolding(crate::specs::PodSpecs::pod_spec))]
    fn read(&self, alloc: Global, value: &Value) -> Result<PodSpec, ShapeFault> {
        must_be_object(alloc, value)?;
        let containers = listed(alloc, value, "containers", &ContainerShape)?;
        let host_network = optional(alloc, value, "hostNetwork", &Flag)?;
        Ok(PodSpec {
            ports: joined(alloc, containers)?,
            host_network: host_network.unwrap_or(false),
        })
    }
}
