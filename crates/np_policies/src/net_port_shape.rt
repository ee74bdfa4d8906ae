//! Port entries of NetworkPolicies.
ghost use Rattle.std.specs.Prelude.{◌≡◌, Some, unwrap_or};
ghost use Rattle.np_policies.specs.Ports as shapes;

use crate::port_members::{PolicyPortName, protocol};
use np_base::{PortNum, Text};
use np_conns::Proto;
use np_json::{FaultKind, Port, Shape, ShapeFault, must_be_object, optional, port_of, refuse_if};
use np_model::NetPort;
use serde_json::Value;
use std::alloc::Global;

/// The shape of an entry of `ports` (Kubernetes API reference, NetworkPolicyPort): `protocol`, `port`, and
/// `endPort`, a number that stands only behind a `port` that is one and is not above it.
#[derive(Drop)]
pub(crate) struct NetPortShape;

impl Shape for NetPortShape {
    type Output = NetPort;

    ghost reads = { λ _. shapes.net_port };

    #[tactic(auto, unfolding(crate::specs::Ports::net_port))]
    fn read(&self, alloc: Global, value: &Value) -> Result<NetPort, ShapeFault> {
        must_be_object(alloc, value)?;
        let proto = protocol(alloc, value)?;
        let port = optional(alloc, value, "port", &PortValueShape)?;
        let first = number_of(&port);
        let last = optional(alloc, value, "endPort", &EndPort { first })?;
        Ok(net_port_by(proto, port, last))
    }
}

/// A port by its number or its name.
#[derive(Drop)]
pub enum PortValue {
    Number(PortNum),
    Name(Text),
}

// The shape of `port`: a number from 1 to 65535, or a name.
#[derive(Drop)]
struct PortValueShape;

impl Shape for PortValueShape {
    type Output = PortValue;

    ghost reads = { λ _. shapes.port_value };

    #[tactic(auto, unfolding(crate::specs::Ports::port_value))]
    fn read(&self, alloc: Global, value: &Value) -> Result<PortValue, ShapeFault> {
        match value.as_i64() {
            Some(number) => Ok(PortValue::Number(port_of(alloc, number)?)),
            None => Ok(PortValue::Name(PolicyPortName.read(alloc, value)?)),
        }
    }
}

// The shape of `endPort`: the last port of a range that begins with `first`, if it has such a port.
#[derive(Drop)]
struct EndPort {
    first: Option<PortNum>,
}

impl Shape for EndPort {
    type Output = PortNum;

    ghost reads = { λ shape. shapes.end_port shape.first };

    #[tactic(auto, unfolding(crate::specs::Ports::end_port))]
    fn read(&self, alloc: Global, value: &Value) -> Result<PortNum, ShapeFault> {
        let last = Port.read(alloc, value)?;
        refuse_if(alloc, !may_end(self.first, last), FaultKind::BadPort)?;
        Ok(last)
    }
}

// Whether a range may end there.
fn may_end(first: Option<PortNum>, last: PortNum) -> bool
    ensures { result ≡ shapes.may_end first last }
{
    match first {
        Some(first) => first.get() <= last.get(),
        None => false,
    }
}

// The port's number, if it has one.
fn number_of(port: &Option<PortValue>) -> Option<PortNum>
    ensures { result ≡ shapes.port_number_of port.now }
{
    match port {
        Some(PortValue::Number(number)) => Some(*number),
        _ => None,
    }
}

// The last port of a range, which may be its first.
fn last_or(last: Option<PortNum>, first: PortNum) -> PortNum
    ensures { result ≡ unwrap_or last first }
{
    match last {
        Some(last) => last,
        None => first,
    }
}

// All ports where there is no `port`.
fn net_port_by(proto: Proto, port: Option<PortValue>, last: Option<PortNum>) -> NetPort
    ensures { result ≡ shapes.net_port_by proto port last }
{
    match port {
        None => NetPort::Span {
            proto,
            lo: PortNum::new(1),
            hi: PortNum::new(65535),
        },
        Some(port) => some_port(proto, port, last),
    }
}

// One port, the ports up to another, or a named port.
fn some_port(proto: Proto, port: PortValue, last: Option<PortNum>) -> NetPort
    ensures { result ≡ shapes.net_port_by proto (Some port) last }
{
    match port {
        PortValue::Number(lo) => {
            let hi = last_or(last, lo);
            NetPort::Span { proto, lo, hi }
        }
        PortValue::Name(name) => NetPort::Named { proto, name },
    }
}
