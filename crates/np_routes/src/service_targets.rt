//! Where the ports of a service lead that backends name.
ghost use Rattle.std.specs.Prelude.{◌≡◌, ◌||◌, ℕ, IfOk, OnOk};
ghost use Rattle.std.specs.List.{list_any};
ghost use Rattle.np_routes.specs.Services as spec;
ghost use Rattle.np_routes.specs.steps.AskedServices.{asked_port_leads};
ghost use Rattle.np_routes.specs.steps.PortSets.{at_pod};
ghost use Rattle.np_rules.specs.Prelude.{PodEnd};

use crate::asked_services::AskedService;
use crate::port_set::PortSet;
use np_base::NoMemory;
use np_conns::Proto;
use np_model::{ServiceItem, ServicePort};
use std::alloc::Global;

/// A service, and the numbers and names of container ports to which those of its TCP ports lead that backends name, each
/// once.
#[derive(Drop)]
pub(crate) struct ServiceTargets<'a> {
    pub service: &'a ServiceItem,
    pub targets: PortSet<'a>,
}

impl<'a> ServiceTargets<'a> {
    /// Those of a service. Each port is gone through once.
    pub(crate) fn of(
        alloc: Global,
        asked: &AskedService<'a>,
    ) -> Result<ServiceTargets<'a>, NoMemory>
        ensures service { IfOk result (λ made. made.service.now ≡ asked.now.service.now) }
        ensures targets { IfOk result (λ made. (p : PodEnd) (number : ℕ) →
            at_pod made.targets p number
            ≡ list_any (asked_port_leads asked.now p number) asked.now.service.now.ports) }
    {
        let service = asked.service;
        let mut targets = PortSet::new(alloc);
        for port in service.ports.items() {
            if port.proto == Proto::Tcp && asked.ports.has_own(port) {
                add_target(&mut targets, service, port)?;
            }
        }
        Ok(ServiceTargets { service, targets })
    }
}

// Adds the container port to which a TCP port of a service leads.
fn add_target<'a>(
    targets: &mut PortSet<'a>,
    service: &ServiceItem,
    port: &'a ServicePort,
) -> Result<(), NoMemory>
    ensures { OnOk result ((p : PodEnd) (number : ℕ) → at_pod targets.new p number
        ≡ (at_pod targets.old p number || spec.is_target service.now port.now p number)) }
{
    if service.headless {
        targets.add_number(port.port)
    } else {
        targets.add(&port.target)
    }
}
