//! Which pods a service serves, and by which ports a backend may name it.
ghost use Rattle.std.specs.Prelude.{◌≡◌, ◌||◌, ℕ, List, IfOk};
ghost use Rattle.std.specs.List.{list_any};
ghost use Rattle.np_routes.specs.Services as spec;
ghost use Rattle.np_rules.specs.Prelude.{pod_end};

use crate::port_set::PortSet;
use np_base::NoMemory;
use np_conns::Proto;
use np_model::{Pod, PortName, ServiceItem};
use std::alloc::Global;
use std::marker::Model;

/// Whether a service serves a pod.
pub(crate) fn serves(service: &ServiceItem, pod: &Pod) -> bool
    ensures { result ≡ spec.serves service.now (pod_end pod.now) }
{
    if service.external || service.namespace.as_str() != pod.namespace.as_str() {
        return false;
    }
    match &service.selector {
        Some(selector) => selector.meets(&pod.labels),
        None => false,
    }
}

/// A service with the numbers and the names of its TCP ports. Contracts see the service.
#[derive(Drop)]
pub(crate) struct ServicePorts<'a> {
    service: &'a ServiceItem,
    ports: PortSet<'a>,
}

impl<'a> Model for ServicePorts<'a> {
    ghost use Rattle.np_model.specs.declared.service.ServiceItem.{ServiceItem};

    ghost Value = { ServiceItem };

    ghost use Rattle.np_routes.specs.steps.PortSets.{HoldsBackendPorts};

    ghost view = { λ s. s.service.now };

    ghost invariant = { λ s. HoldsBackendPorts s.service.now s.ports };
}

impl<'a> ServicePorts<'a> {
    /// Those of a service. Each port is gone through once.
    pub(crate) fn of(alloc: Global, service: &'a ServiceItem) -> Result<ServicePorts<'a>, NoMemory>
        ensures { IfOk result (λ made. made ≡ service.now) }
    {
        let mut ports = PortSet::new(alloc);
        for port in service.ports.items() {
            if port.proto == Proto::Tcp {
                ports.add_own(port)?;
            }
        }
        Ok(ServicePorts { service, ports })
    }

    /// The service.
    pub(crate) fn service(&self) -> &'a ServiceItem
        ensures { result.now ≡ self.now }
    {
        self.service
    }

    /// Whether some TCP port of it has the number or the name that a backend names.
    pub(crate) fn has_backend_port(&self, named: &PortName) -> bool
        ensures { result ≡ list_any (spec.is_backend_port named.now) self.now.ports }
    {
        self.ports.has(named)
    }
}
