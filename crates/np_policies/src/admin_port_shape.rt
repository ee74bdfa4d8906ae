//! Port entries of admin policies.
ghost use Rattle.serde_json.specs.View.{view};
ghost use Rattle.np_json.specs.Prelude.{Gives};
ghost use Rattle.np_policies.specs.Ports as shapes;

use crate::port_members::{PolicyPortName, protocol};
use np_json::{
    FaultKind, Port, Shape, ShapeFault, has_member, has_one_of, must_be_object, refuse_if,
    refuse_member_if, required,
};
use np_model::AdminPort;
use serde_json::Value;
use std::alloc::Global;

/// The shape of an entry of `ports` (network-policy-api reference, AdminNetworkPolicyPort): exactly one of
/// `portNumber`, `portRange` and `namedPort` is there, else `BadPort`.
#[derive(Drop)]
pub(crate) struct AdminPortShape;

impl Shape for AdminPortShape {
    type Output = AdminPort;

    ghost reads = { λ _. shapes.admin_port };

    #[tactic(auto, unfolding(crate::specs::Ports::admin_port))]
    fn read(&self, alloc: Global, value: &Value) -> Result<AdminPort, ShapeFault> {
        must_be_object(alloc, value)?;
        let has_one = has_one_of(value, &["portNumber", "portRange", "namedPort"]);
        refuse_if(alloc, !has_one, FaultKind::BadPort)?;
        admin_port_member(alloc, value)
    }
}

// The one member of the three that is there.
fn admin_port_member(alloc: Global, value: &Value) -> Result<AdminPort, ShapeFault>
    ensures { Gives result (shapes.admin_port_member (view value.now)) }
{
    if has_member(value, "portNumber") {
        required(alloc, value, "portNumber", &OnePort)
    } else if has_member(value, "portRange") {
        required(alloc, value, "portRange", &PortRange)
    } else {
        required(alloc, value, "namedPort", &NamedPort)
    }
}

// The shape of `portNumber`: `protocol`, and `port`, which is required.
#[derive(Drop)]
struct OnePort;

impl Shape for OnePort {
    type Output = AdminPort;

    ghost reads = { λ _. shapes.one_port };

    #[tactic(auto, unfolding(crate::specs::Ports::one_port))]
    fn read(&self, alloc: Global, value: &Value) -> Result<AdminPort, ShapeFault> {
        must_be_object(alloc, value)?;
        let proto = protocol(alloc, value)?;
        let port = required(alloc, value, "port", &Port)?;
        Ok(AdminPort::Span {
            proto,
            lo: port,
            hi: port,
        })
    }
}

// The shape of `portRange`: `protocol`, and `start` and `end`, which are required. An `end` below `start` is
// `BadPort`.
#[derive(Drop)]
struct PortRange;

impl Shape for PortRange {
    type Output = AdminPort;

    ghost reads = { λ _. shapes.port_range };

    #[tactic(auto, unfolding(crate::specs::Ports::port_range))]
    fn read(&self, alloc: Global, value: &Value) -> Result<AdminPort, ShapeFault> {
        must_be_object(alloc, value)?;
        let proto = protocol(alloc, value)?;
        let lo = required(alloc, value, "start", &Port)?;
        let hi = required(alloc, value, "end", &Port)?;
        refuse_member_if(alloc, "end", hi.get() < lo.get(), FaultKind::BadPort)?;
        Ok(AdminPort::Span { proto, lo, hi })
    }
}

// The shape of `namedPort`.
#[derive(Drop)]
struct NamedPort;

impl Shape for NamedPort {
    type Output = AdminPort;

    ghost reads = { λ _. shapes.named_port };

    #[tactic(auto, unfolding(crate::specs::Ports::named_port))]
    fn read(&self, alloc: Global, value: &Value) -> Result<AdminPort, ShapeFault> {
        let name = PolicyPortName.read(alloc, value)?;
        Ok(AdminPort::Named { name })
    }
}
