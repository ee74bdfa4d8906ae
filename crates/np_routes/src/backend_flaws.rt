//! Backends that lead nowhere, or not where they seem to.
ghost use Rattle.std.specs.Prelude.{◌≡◌, ◌++◌, IfOk, OnOk};
ghost use Rattle.np_routes.specs.RouteNotes as spec;

use crate::route_note::{RouteFlaw, RouteNote};
use crate::service_ports::ServicePorts;
use crate::services::Services;
use np_base::{NoMemory, Seq};
use np_model::{Backend, Estate, PlacedIngress, PortName, ServiceItem};
use std::alloc::Global;

/// The backends of the ingresses that lead nowhere, or not where they seem to: one note at most for each, by item and then
/// in the order of the backends.
#[tactic(auto, unfolding(crate::specs::RouteNotes::notes_of_routes))]
pub fn route_notes(alloc: Global, estate: &Estate) -> Result<Seq<RouteNote>, NoMemory>
    ensures notes { IfOk result (λ made. made ≡ spec.notes_of_routes estate.now) }
{
    let services = Services::of(alloc, estate.services())?;
    let ports = ports_of_all(alloc, estate.services())?;
    let mut notes = Seq::new(alloc);
    for placed in estate.ingresses() {
        add_notes(&mut notes, &services, &ports, placed)?;
    }
    Ok(notes)
}

// The services of a list with their ports.
fn ports_of_all<'a>(
    alloc: Global,
    listed: &'a [ServiceItem],
) -> Result<Vec<ServicePorts<'a>>, NoMemory>
    ensures { IfOk result (λ made. made.items ≡ listed.now) }
{
    let mut made = Vec::new(alloc);
    for service in listed {
        made.push(ServicePorts::of(alloc, service)?)?;
    }
    Ok(made)
}

// Adds the notes of the backends of an ingress.
fn add_notes<'a>(
    notes: &mut Seq<RouteNote>,
    services: &Services<'a>,
    ports: &[ServicePorts<'a>],
    placed: &'a PlacedIngress,
) -> Result<(), NoMemory>
    requires { ports.now ≡ services.now }
    ensures { OnOk result (notes.new ≡ notes.old ++ spec.notes_of_ingress services.now placed.now) }
{
    let namespace = placed.ingress.namespace.as_str();
    for (place, backend) in placed.ingress.backends.items().iter().enumerate() {
        if let Some(flaw) = backend_flaw(services, ports, namespace, backend) {
            notes.push(RouteNote {
                item: placed.item,
                backend: place as u64 + 1,
                flaw,
            })?;
        }
    }
    Ok(())
}

// The first flaw of a backend of an ingress of a namespace.
fn backend_flaw<'a>(
    services: &Services<'a>,
    ports: &[ServicePorts<'a>],
    namespace: &'a str,
    backend: &'a Backend,
) -> Option<RouteFlaw>
    requires { ports.now ≡ services.now }
    ensures { result ≡ spec.backend_flaw services.now namespace.now backend.now }
{
    match backend {
        Backend::Service { name, port } => match services.place(namespace, name.as_str()) {
            Some(place) => service_flaw(port, &ports[place]),
            None => Some(RouteFlaw::NoService),
        },
        Backend::Resource => Some(RouteFlaw::Resource),
    }
}

// The first flaw of a backend that names a port of a listed service.
fn service_flaw(named: &PortName, ports: &ServicePorts<'_>) -> Option<RouteFlaw>
    ensures { result ≡ spec.service_flaw named.now ports.now }
{
    let service = ports.service();
    if service.external || service.selector.is_none() {
        return Some(RouteFlaw::NoSelector);
    }
    if !ports.has_backend_port(named) {
        return Some(RouteFlaw::NoPort);
    }
    if service.headless {
        return Some(RouteFlaw::Headless);
    }
    None
}
