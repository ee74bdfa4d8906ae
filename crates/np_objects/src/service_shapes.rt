//! How services and their ports are read.
ghost use Rattle.std.specs.Prelude.{◌≡◌};
ghost use Rattle.serde_json.specs.View.{view};
ghost use Rattle.np_json.specs.Prelude.{Gives};
ghost use Rattle.np_objects.specs.Services as services;

use crate::controller_spec::is_zero;
use crate::port_shapes::PortNameShape;
use crate::service_spec::{ServiceSpec, ServiceSpecShape};
use np_conns::Proto;
use np_json::{
    NamespacedName, NamespacedNameShape, Port, ProtocolName, Shape, ShapeFault, must_be_object,
    optional, port_of, required,
};
use np_model::{PortName, ServiceItem, ServicePort};
use serde_json::Value;
use std::alloc::Global;

/// A port of the pods behind a service: a whole number, where 0 counts as missing, or a word, where the empty text
/// counts as missing. Another whole number outside 1 to 65535 is `BadPort`, anything else `BadField`.
#[derive(Drop)]
struct TargetPortShape;

impl Shape for TargetPortShape {
    ghost use Rattle.np_objects.specs.Services.{target_port};

    type Output = Option<PortName>;

    ghost reads = { λ _. target_port };

    #[tactic(auto, unfolding(crate::specs::Services::target_port))]
    fn read(&self, alloc: Global, value: &Value) -> Result<Option<PortName>, ShapeFault> {
        match value.as_i64() {
            Some(number) if is_zero(Some(number)) => Ok(None),
            Some(number) => by_number(alloc, number),
            None => by_name(alloc, value),
        }
    }
}

// A port by its number.
#[tactic(auto, unfolding(crate::specs::Services::by_number))]
fn by_number(alloc: Global, number: i64) -> Result<Option<PortName>, ShapeFault>
    ensures { Gives result (services.by_number number) }
{
    let number = port_of(alloc, number)?;
    Ok(Some(PortName::Number(number)))
}

// A port by its name.
#[tactic(auto, unfolding(crate::specs::Services::by_name))]
fn by_name(alloc: Global, value: &Value) -> Result<Option<PortName>, ShapeFault>
    ensures { Gives result (services.by_name (view value.now)) }
{
    let name = PortNameShape.read(alloc, value)?;
    Ok(name.map(PortName::Named))
}

/// An item of `ports` of a service (Kubernetes API reference, ServicePort).
///
/// | member | what it is |
/// |---|---|
/// | `name` | a word; the empty text counts as missing |
/// | `protocol` | `TCP`, `UDP` or `SCTP`, and `TCP` where it is missing; another text is BadProtocol |
/// | `port` | a port, required |
/// | `targetPort` | a whole number or a word; a missing one, the number 0 and the empty text stand for `port` |
#[derive(Drop)]
pub(crate) struct ServicePortShape;

impl Shape for ServicePortShape {
    ghost use Rattle.np_objects.specs.Services.{service_port};

    type Output = ServicePort;

    ghost reads = { λ _. service_port };

    #[tactic(auto, unfolding(crate::specs::Services::service_port))]
    fn read(&self, alloc: Global, value: &Value) -> Result<ServicePort, ShapeFault> {
        must_be_object(alloc, value)?;
        let name = optional(alloc, value, "name", &PortNameShape)?;
        let proto = optional(alloc, value, "protocol", &ProtocolName)?;
        let port = required(alloc, value, "port", &Port)?;
        let target = optional(alloc, value, "targetPort", &TargetPortShape)?;
        Ok(ServicePort {
            name: name.flatten(),
            proto: proto.unwrap_or(Proto::Tcp),
            port,
            target: target.flatten().unwrap_or(PortName::Number(port)),
        })
    }
}

/// A service (Kubernetes API reference, Service).
///
/// | member | what it is |
/// |---|---|
/// | `metadata` | the metadata of an object in a namespace, required |
/// | `spec` | the spec of a service, required |
#[derive(Drop)]
pub(crate) struct ServiceShape;

impl Shape for ServiceShape {
    ghost use Rattle.np_objects.specs.Services.{service};

    type Output = ServiceItem;

    ghost reads = { λ _. service };

    #[tactic(auto, unfolding(crate::specs::Services::service))]
    fn read(&self, alloc: Global, value: &Value) -> Result<ServiceItem, ShapeFault> {
        let own = required(alloc, value, "metadata", &NamespacedNameShape)?;
        let spec = required(alloc, value, "spec", &ServiceSpecShape)?;
        Ok(service_item(own, spec))
    }
}

// The service of what was read of its members.
fn service_item(own: NamespacedName, spec: ServiceSpec) -> ServiceItem
    ensures { result ≡ services.service_item own spec }
{
    ServiceItem {
        namespace: own.namespace,
        name: own.name,
        selector: spec.selector,
        headless: spec.headless,
        external: spec.external,
        ports: spec.ports,
    }
}
