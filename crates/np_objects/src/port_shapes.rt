//! How the ports of containers are read, and what they share with the ports of services.
ghost use Rattle.std.specs.Prelude.{◌≡◌};
ghost use Rattle.np_objects.specs.Ports as ports;

use crate::lists::unless_empty;
use np_base::{PortNum, Text};
use np_conns::Proto;
use np_json::{Port, ProtocolName, Shape, ShapeFault, Word, must_be_object, optional, required};
use np_model::NamedPort;
use serde_json::Value;
use std::alloc::Global;

/// A word, where the empty text counts as missing. Anything else is `BadField`.
#[derive(Drop)]
pub(crate) struct PortNameShape;

impl Shape for PortNameShape {
    ghost use Rattle.np_objects.specs.Ports.{port_name};

    type Output = Option<Text>;

    ghost reads = { λ _. port_name };

    #[tactic(auto, unfolding(crate::specs::Ports::port_name))]
    fn read(&self, alloc: Global, value: &Value) -> Result<Option<Text>, ShapeFault> {
        let text = Word.read(alloc, value)?;
        Ok(unless_empty(text))
    }
}

/// An item of `ports` of a container: a port, where it has a name (Kubernetes API reference, ContainerPort).
///
/// | member | what it is |
/// |---|---|
/// | `name` | a word; the empty text counts as missing |
/// | `protocol` | `TCP`, `UDP` or `SCTP`, and `TCP` where it is missing; another text is BadProtocol |
/// | `containerPort` | a port, required |
#[derive(Drop)]
pub(crate) struct ContainerPortShape;

impl Shape for ContainerPortShape {
    ghost use Rattle.np_objects.specs.Ports.{container_port};

    type Output = Option<NamedPort>;

    ghost reads = { λ _. container_port };

    #[tactic(auto, unfolding(crate::specs::Ports::container_port))]
    fn read(&self, alloc: Global, value: &Value) -> Result<Option<NamedPort>, ShapeFault> {
        must_be_object(alloc, value)?;
        let name = optional(alloc, value, "name", &PortNameShape)?;
        let proto = optional(alloc, value, "protocol", &ProtocolName)?;
        let number = required(alloc, value, "containerPort", &Port)?;
        Ok(if_named(name.flatten(), proto.unwrap_or(Proto::Tcp), number))
    }
}

// The port, if it has a name.
fn if_named(name: Option<Text>, proto: Proto, number: PortNum) -> Option<NamedPort>
    ensures { result ≡ ports.if_named name proto number }
{
    let name = name?;
    Some(NamedPort {
        name,
        proto,
        number,
    })
}
