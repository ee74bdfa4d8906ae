//! Specs of services.
ghost use Rattle.std.specs.Prelude.{◌≡◌, IfOk};
ghost use Rattle.np_objects.specs.Services as services;

use crate::service_shapes::ServicePortShape;
use np_base::{NoMemory, Seq, Text};
use np_json::{AnyText, LabelMap, Shape, ShapeFault, listed, must_be_object, optional};
use np_labels::Selector;
use np_model::ServicePort;
use serde_json::Value;
use std::alloc::Global;

/// What is read of the spec of a service.
#[derive(Drop)]
pub(crate) struct ServiceSpec {
    /// The labels of the pods that it serves, if it names any.
    pub(crate) selector: Option<Selector>,
    pub(crate) headless: bool,
    pub(crate) external: bool,
    pub(crate) ports: Seq<ServicePort>,
}

/// The spec of a service (Kubernetes API reference, ServiceSpec).
///
/// | member | what it is |
/// |---|---|
/// | `type` | a text |
/// | `clusterIP` | a text |
/// | `selector` | an object from texts to texts, each a label |
/// | `ports` | a list of ports of services |
#[derive(Drop)]
pub(crate) struct ServiceSpecShape;

impl Shape for ServiceSpecShape {
    ghost use Rattle.np_objects.specs.Services.{service_spec};

    type Output = ServiceSpec;

    ghost reads = { λ _. service_spec };

    #[tactic(auto, unfolding(crate::specs::Services::service_spec))]
    fn read(&self, alloc: Global, value: &Value) -> Result<ServiceSpec, ShapeFault> {
        must_be_object(alloc, value)?;
        let kind = optional(alloc, value, "type", &AnyText)?;
        let cluster_ip = optional(alloc, value, "clusterIP", &AnyText)?;
        let selector = optional(alloc, value, "selector", &LabelMap)?;
        let ports = listed(alloc, value, "ports", &ServicePortShape)?;
        Ok(ServiceSpec {
            selector: selector_of(alloc, selector.unwrap_or(Seq::new(alloc)))?,
            headless: is_text(&cluster_ip, "None"),
            external: is_text(&kind, "ExternalName"),
            ports,
        })
    }
}

// Whether there is a text, and it is that one.
fn is_text(found: &Option<Text>, text: &str) -> bool
    ensures { result ≡ services.is_text found.now text.now }
{
    match found {
        Some(found) => found.as_str() == text,
        None => false,
    }
}

// The labels of the pods that a service serves, and `None` where it names none.
fn selector_of(alloc: Global, entries: Seq<(Text, Text)>) -> Result<Option<Selector>, NoMemory>
    ensures { IfOk result (λ made. made ≡ services.selector_of entries) }
{
    if entries.items().is_empty() {
        return Ok(None);
    }
    Ok(Some(Selector::of_labels(alloc, entries)?))
}
