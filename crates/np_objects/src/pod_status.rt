//! Statuses of pods.
ghost use Rattle.std.specs.Prelude.{◌≡◌};
ghost use Rattle.np_json.specs.Prelude.{Gives};
ghost use Rattle.np_objects.specs.Statuses as statuses;
ghost use Rattle.np_objects.specs.Lists as lists;

use crate::distinct_addresses::distinct;
use np_addr::{Address, Addresses, read_address};
use np_base::Text;
use np_json::{
    AnyText, FaultKind, Shape, ShapeFault, listed, must_be_object, of_type, optional, or_refuse,
};
use serde_json::Value;
use std::alloc::Global;

/// What is read of the status of a pod.
#[derive(Drop)]
pub(crate) struct PodStatus {
    /// Whether all its containers have ended for good.
    pub(crate) finished: bool,
    /// Each address once.
    pub(crate) addresses: Addresses,
}

impl PodStatus {
    ghost use Rattle.np_objects.specs.Statuses.{no_status};

    /// That of a pod without a status.
    pub(crate) fn none(alloc: Global) -> PodStatus
        ensures { result ≡ no_status }
    {
        PodStatus {
            finished: false,
            addresses: Addresses::nothing(alloc),
        }
    }
}

/// The text of an address; the empty text stands for none. Another text is `BadAddress`, another type `BadField`.
#[derive(Drop)]
struct AddressShape;

impl Shape for AddressShape {
    ghost use Rattle.np_objects.specs.Statuses.{address};

    type Output = Option<Address>;

    ghost reads = { λ _. address };

    #[tactic(auto, unfolding(crate::specs::Statuses::address))]
    fn read(&self, alloc: Global, value: &Value) -> Result<Option<Address>, ShapeFault> {
        let text = of_type(alloc, value.as_str())?;
        address_by(alloc, text)
    }
}

// The address of a text, and none of the empty text.
fn address_by(alloc: Global, text: &str) -> Result<Option<Address>, ShapeFault>
    ensures { Gives result (statuses.address_by (lists.unless_empty text.now)) }
{
    if text.is_empty() {
        return Ok(None);
    }
    let address = or_refuse(alloc, read_address(text).ok(), FaultKind::BadAddress)?;
    Ok(Some(address))
}

/// An item of `podIPs`: its address (Kubernetes API reference, PodIP).
///
/// | member | what it is |
/// |---|---|
/// | `ip` | the text of an address, or the empty text |
#[derive(Drop)]
struct PodIpShape;

impl Shape for PodIpShape {
    ghost use Rattle.np_objects.specs.Statuses.{pod_ip};

    type Output = Option<Address>;

    ghost reads = { λ _. pod_ip };

    #[tactic(auto, unfolding(crate::specs::Statuses::pod_ip))]
    fn read(&self, alloc: Global, value: &Value) -> Result<Option<Address>, ShapeFault> {
        must_be_object(alloc, value)?;
        let ip = optional(alloc, value, "ip", &AddressShape)?;
        Ok(ip.flatten())
    }
}

/// The status of a pod (Kubernetes API reference, PodStatus).
///
/// | member | what it is |
/// |---|---|
/// | `phase` | a text |
/// | `podIP` | the text of an address, or the empty text |
/// | `podIPs` | a list of objects with an address each |
#[derive(Drop)]
pub(crate) struct PodStatusShape;

impl Shape for PodStatusShape {
    ghost use Rattle.np_objects.specs.Statuses.{pod_status};

    type Output = PodStatus;

    ghost reads = { λ _. pod_status };

    #[tactic(auto, unfolding(crate::specs::Statuses::pod_status))]
    fn read(&self, alloc: Global, value: &Value) -> Result<PodStatus, ShapeFault> {
        must_be_object(alloc, value)?;
        let phase = optional(alloc, value, "phase", &AnyText)?;
        let first = optional(alloc, value, "podIP", &AddressShape)?;
        let others = listed(alloc, value, "podIPs", &PodIpShape)?;
        Ok(PodStatus {
            finished: is_finished(&phase),
            addresses: Addresses::of(alloc, distinct(alloc, first.flatten(), others)?)?,
        })
    }
}

// Whether all containers of a pod in that phase have ended for good.
fn is_finished(phase: &Option<Text>) -> bool
    ensures { result ≡ statuses.is_finished phase.now }
{
    match phase {
        Some(phase) => phase.as_str() == "Succeeded" || phase.as_str() == "Failed",
        None => false,
    }
}
