//! The TCP ports to which routes lead at a pod.
ghost use Rattle.std.specs.Prelude.{◌≡◌, ◌<◌, ◌||◌, true, ℕ, IfOk, OnOk, length};
ghost use Rattle.std.specs.List.{list_any};
ghost use Rattle.np_conns.specs.Prelude.{IsConns, has_spot};
ghost use Rattle.np_conns.specs.declared.port_spot.PortSpot.{PortSpot};
ghost use Rattle.np_model.specs.declared.service.PortName.TheVariants.{Number};
ghost use Rattle.np_routes.specs.Prelude.{at_pod, has_port, has_target, is_named_in, is_routed, target_leads};
ghost use Rattle.np_rules.specs.Prelude.{pod_at, pod_end};

use crate::backends::Backends;
use crate::port_set::PortSet;
use crate::service_ports::serves;
use crate::service_targets::ServiceTargets;
use np_base::{Cells, NoMemory, PortNum};
use np_conns::{ConnSet, Proto};
use np_model::{NamedPort, Pod};
use std::alloc::Global;

/// The TCP ports to which routes lead at the pod at a place, as a set.
pub(crate) fn routed_set(
    alloc: Global,
    backends: &Backends<'_>,
    place: u32,
) -> Result<ConnSet, NoMemory>
    requires { place < length backends.now.pods }
    ensures members { IfOk result (λ made. (spot : PortSpot) →
        has_spot made spot ≡ is_routed backends.now (pod_at backends.now place) spot) }
    ensures well { IfOk result IsConns }
{
    let pod = backends.pod(place);
    let Some(own) = backends.near(pod) else {
        return ConnSet::nothing(alloc);
    };
    let numbers = numbers_at(alloc, own, pod)?;
    ConnSet::of_ports(alloc, Proto::Tcp, numbers)
}

// The numbers of the TCP ports of a pod to which services lead, each once.
fn numbers_at(
    alloc: Global,
    services: &[ServiceTargets<'_>],
    pod: &Pod,
) -> Result<Vec<PortNum>, NoMemory>
    ensures { IfOk result (λ made. (number : ℕ) → has_target made.items number
        ≡ list_any (target_leads (pod_end pod.now) number) services.now) }
{
    let mut targets = targets_at(alloc, services, pod)?;
    add_named(&mut targets, pod.ports.items())?;
    targets.numbers(alloc)
}

// The targets of those services that serve a pod.
fn targets_at<'a>(
    alloc: Global,
    services: &[ServiceTargets<'a>],
    pod: &Pod,
) -> Result<PortSet<'a>, NoMemory>
    ensures { IfOk result (λ made. (number : ℕ) → at_pod made (pod_end pod.now) number
        ≡ list_any (target_leads (pod_end pod.now) number) services.now) }
{
    let mut made = PortSet::new(alloc);
    for one in services {
        if serves(one.service, pod) {
            made.add_all(&one.targets)?;
        }
    }
    Ok(made)
}

// Adds the numbers of the TCP ports whose names are among the targets.
fn add_named(targets: &mut PortSet<'_>, ports: &[NamedPort]) -> Result<(), NoMemory>
    ensures { OnOk result ((number : ℕ) → has_port targets.new (Number number)
        ≡ (has_port targets.old (Number number) || list_any (is_named_in (has_port targets.old) number) ports.now)) }
{
    for port in ports {
        if port.proto == Proto::Tcp && targets.has_name(port.name.as_str()) {
            targets.add_number(port.number)?;
        }
    }
    Ok(())
}
