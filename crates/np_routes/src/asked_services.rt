//! Which ports of each service the backends of ingresses name.
ghost use Rattle.std.specs.Prelude.{◌≡◌, ◌||◌, false, ℕ, IfOk, OnOk, map};
ghost use Rattle.std.specs.List.{list_any};
ghost use Rattle.np_routes.specs.Routes as spec;
ghost use Rattle.np_routes.specs.steps.AskedServices.{asked_leads, services_of};
ghost use Rattle.np_rules.specs.Prelude.{PodEnd};

use crate::port_set::PortSet;
use crate::services::Services;
use np_base::NoMemory;
use np_model::{Backend, Estate, IngressItem, ServiceItem};
use std::alloc::Global;

/// A listed service, and the numbers and names by which backends name its ports, each once.
#[derive(Drop)]
pub(crate) struct AskedService<'a> {
    pub service: &'a ServiceItem,
    pub ports: PortSet<'a>,
}

/// The services of an estate with what the backends of all ingresses name of each. Every service and every backend is gone
/// through once.
pub(crate) fn asked_services<'a>(
    alloc: Global,
    estate: &'a Estate,
) -> Result<Vec<AskedService<'a>>, NoMemory>
    ensures { IfOk result (λ made. (p : PodEnd) (number : ℕ) → list_any (asked_leads p number) made.items
        ≡ list_any (spec.leads_to p number) (spec.routes_in estate.now p.namespace)) }
{
    let services = Services::of(alloc, estate.services())?;
    let mut asked = none_asked(alloc, estate.services())?;
    for placed in estate.ingresses() {
        add_ingress(&mut asked, &services, &placed.ingress)?;
    }
    Ok(asked)
}

// The services of a list, of which nothing is named yet.
fn none_asked<'a>(
    alloc: Global,
    listed: &'a [ServiceItem],
) -> Result<Vec<AskedService<'a>>, NoMemory>
    ensures services { IfOk result (λ made. services_of made.items ≡ listed.now) }
    ensures none { IfOk result (λ made. (p : PodEnd) (number : ℕ) →
        list_any (asked_leads p number) made.items ≡ false) }
{
    let mut made = Vec::new(alloc);
    for service in listed {
        made.push(AskedService {
            service,
            ports: PortSet::new(alloc),
        })?;
    }
    Ok(made)
}

// Adds what the backends of an ingress name.
fn add_ingress<'a>(
    asked: &mut [AskedService<'a>],
    services: &Services<'a>,
    ingress: &'a IngressItem,
) -> Result<(), NoMemory>
    requires { services_of asked.old ≡ services.now }
    ensures services { OnOk result (services_of asked.new ≡ services.now) }
    ensures leads { OnOk result ((p : PodEnd) (number : ℕ) → list_any (asked_leads p number) asked.new
        ≡ (list_any (asked_leads p number) asked.old
        || list_any (spec.leads_to p number) (spec.routes_of_ingress services.now ingress.now))) }
{
    let namespace = ingress.namespace.as_str();
    for backend in ingress.backends.items() {
        add_backend(asked, services, namespace, backend)?;
    }
    Ok(())
}

// Adds what a backend of an ingress of a namespace names, where that is of a listed service.
fn add_backend<'a>(
    asked: &mut [AskedService<'a>],
    services: &Services<'a>,
    namespace: &'a str,
    backend: &'a Backend,
) -> Result<(), NoMemory>
    requires { services_of asked.old ≡ services.now }
    ensures services { OnOk result (services_of asked.new ≡ services.now) }
    ensures leads { OnOk result ((p : PodEnd) (number : ℕ) → list_any (asked_leads p number) asked.new
        ≡ (list_any (asked_leads p number) asked.old
        || list_any (spec.leads_to p number) (spec.routes_of_backend services.now namespace.now backend.now))) }
{
    let Backend::Service { name, port } = backend else {
        return Ok(());
    };
    let Some(place) = services.place(namespace, name.as_str()) else {
        return Ok(());
    };
    asked[place].ports.add(port)
}
