//! Where the backends of the ingresses of each namespace lead.
ghost use Rattle.std.specs.Prelude.{◌≡◌, ◌<◌, ◌++◌, ◌||◌, [], ◌∷◌, List, ℕ, IfOk, OnOk, length, if◌then◌else◌};
ghost use Rattle.std.specs.List.{list_any};
ghost use Rattle.std.specs.Option.{option_map_or};
ghost use Rattle.std.specs.Str.{bytes_eq};
ghost use Rattle.np_routes.specs.Routes as spec;
ghost use Rattle.np_routes.specs.steps.AskedServices.{asked_leads};
ghost use Rattle.np_routes.specs.steps.TargetsByNamespace.{target_leads, targets_in};
ghost use Rattle.np_rules.specs.Prelude.{PodEnd, pod_at, pod_end};

use crate::asked_services::{AskedService, asked_services};
use crate::service_targets::ServiceTargets;
use np_base::NoMemory;
use np_model::{Estate, Pod};
use std::alloc::Global;
use std::collections::BTreeMap;
use std::marker::Model;

/// The services whose ports the backends of ingresses name, with the targets of these ports, to be found by namespace.
/// Contracts see the lists of the estate.
pub(crate) struct Backends<'a> {
    estate: &'a Estate,
    by_namespace: BTreeMap<&'a str, Vec<ServiceTargets<'a>>>,
}

// Written out, so that letting one go is one call.
impl<'a> Drop for Backends<'a> {
    fn drop(self) {
        let Backends {
            estate: _estate,
            by_namespace: _by_namespace,
        } = self;
    }
}

impl<'a> Model for Backends<'a> {
    ghost use Rattle.np_model.specs.declared.lists.EstateLists.{EstateLists};

    ghost Value = { EstateLists };

    ghost use Rattle.np_routes.specs.steps.TargetsByNamespace.{HoldsTargets};

    ghost view = { λ b. b.estate.now };

    ghost invariant = { λ b. HoldsTargets b.estate.now b.by_namespace };
}

impl<'a> Backends<'a> {
    /// Those of an estate. Each service and each ingress is gone through once.
    pub(crate) fn of(alloc: Global, estate: &'a Estate) -> Result<Backends<'a>, NoMemory>
        ensures { IfOk result (λ made. made ≡ estate.now) }
    {
        let services = asked_services(alloc, estate)?;
        let mut by_namespace = BTreeMap::new(alloc);
        for service in &services {
            add_service(alloc, &mut by_namespace, service)?;
        }
        Ok(Backends {
            estate,
            by_namespace,
        })
    }

    /// The estate.
    pub(crate) fn estate(&self) -> &'a Estate
        ensures { result.now ≡ self.now }
    {
        self.estate
    }

    /// The pod at a place of the estate.
    pub(crate) fn pod(&self, place: u32) -> &'a Pod
        requires { place < length self.now.pods }
        ensures { pod_end result.now ≡ pod_at self.now place }
    {
        &self.estate.pods()[place as usize]
    }

    /// Those of a pod's namespace. `None` where it has none.
    pub(crate) fn near(&self, pod: &Pod) -> Option<&[ServiceTargets<'a>]>
        ensures { (number : ℕ) →
            list_any (target_leads (pod_end pod.now) number) (option_map_or (λ own. own.now) result [])
            ≡ list_any (spec.leads_to (pod_end pod.now) number) (spec.routes_in self.now (pod_end pod.now).namespace) }
    {
        let targets = self.by_namespace.get(pod.namespace.as_str())?;
        Some(targets.as_slice())
    }
}

// Adds the targets of a service to those of its namespace, where backends name ports of it.
fn add_service<'a>(
    alloc: Global,
    by_namespace: &mut BTreeMap<&'a str, Vec<ServiceTargets<'a>>>,
    asked: &AskedService<'a>,
) -> Result<(), NoMemory>
    ensures { OnOk result ((p : PodEnd) (number : ℕ) →
        list_any (target_leads p number) (targets_in by_namespace.new p.namespace)
        ≡ (list_any (target_leads p number) (targets_in by_namespace.old p.namespace) || asked_leads p number asked.now)) }
{
    if asked.ports.is_empty() {
        return Ok(());
    }
    let targets = ServiceTargets::of(alloc, asked)?;
    put_last(by_namespace, asked.service.namespace.as_str(), targets)
}

// Puts a service behind the others of its namespace.
fn put_last<'a>(
    by_namespace: &mut BTreeMap<&'a str, Vec<ServiceTargets<'a>>>,
    namespace: &'a str,
    targets: ServiceTargets<'a>,
) -> Result<(), NoMemory>
    ensures { OnOk result ((other : List ℕ) → targets_in by_namespace.new other
        ≡ targets_in by_namespace.old other ++ (if bytes_eq namespace.now other then targets.entry ∷ [] else [])) }
{
    by_namespace.entry(namespace)?.or_default().push(targets)?;
    Ok(())
}
