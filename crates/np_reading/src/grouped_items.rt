//! The lists of an estate while its items are gathered, one after another.
ghost use Rattle.std.specs.Prelude.{◌≡◌, IfOk, OnOk};
ghost use Rattle.std.specs.Option.{option_and_then, option_map};
ghost use Rattle.np_reading.specs.Ends as ends;
ghost use Rattle.np_reading.specs.steps.Gathering as spec;
ghost use Rattle.np_reading.specs.Listed as listed;
ghost use Rattle.np_objects.specs.declared.object.Object.TheVariants as object;

use crate::context::PodContext;
use np_addr::Addresses;
use np_base::{NoMemory, Seq, Text};
use np_items::Item;
use np_model::{AdminPolicy, BasePolicy, NetPolicy, PlacedIngress, Pod, ServiceItem};
use np_objects::{ControllerItem, Object, PodItem};
use np_owners::ObjectName;
use np_policies::Policy;
use std::alloc::Global;
use std::collections::BTreeMap;

/// What the items so far give, each kind in its order.
#[derive(Drop)]
pub(crate) struct GroupedItems {
    pub(crate) pods: Seq<Pod>,
    pub(crate) net_policies: BTreeMap<ObjectName, NetPolicy>,
    pub(crate) admin_policies: BTreeMap<u16, AdminPolicy>,
    pub(crate) baseline: Option<BasePolicy>,
    pub(crate) services: Seq<ServiceItem>,
    pub(crate) ingresses: Seq<PlacedIngress>,
}

/// Gathers what the items give, with what the rest of the list says of the pod of each.
pub(crate) fn gather(
    alloc: Global,
    items: Seq<Item>,
    contexts: Vec<Option<PodContext>>,
) -> Result<GroupedItems, NoMemory>
    ensures { IfOk result (λ made. spec.seen made ≡ spec.with_items spec.nothing 1 items contexts.items) }
{
    let mut gathered = GroupedItems::nothing(alloc);
    let mut number = 0;
    for (item, context) in items.into_vec().into_iter().zip(contexts) {
        number += 1;
        gathered.add(alloc, number, item, context)?;
    }
    Ok(gathered)
}

impl GroupedItems {
    // Nothing yet. It takes no memory.
    fn nothing(alloc: Global) -> GroupedItems
        ensures { spec.seen result ≡ spec.nothing }
    {
        GroupedItems {
            pods: Seq::new(alloc),
            net_policies: BTreeMap::new(alloc),
            admin_policies: BTreeMap::new(alloc),
            baseline: None,
            services: Seq::new(alloc),
            ingresses: Seq::new(alloc),
        }
    }

    // Adds what the item of this number, from 1, gives.
    fn add(
        &mut self,
        alloc: Global,
        number: u64,
        item: Item,
        context: Option<PodContext>,
    ) -> Result<(), NoMemory>
        ensures { OnOk result (spec.seen self.new ≡ spec.with_item (spec.seen self.old) number item context) }
    {
        match item {
            Item::Object(object) => self.add_object(alloc, number, object, context),
            Item::Policy(policy) => self.add_policy(alloc, policy),
        }
    }

    // Adds a policy.
    fn add_policy(&mut self, alloc: Global, policy: Policy) -> Result<(), NoMemory>
        ensures { OnOk result (spec.seen self.new ≡ spec.with_policy (spec.seen self.old) policy) }
    {
        match policy {
            Policy::Net(net) => {
                self.net_policies.insert(net_name(alloc, &net)?, net)?;
            }
            Policy::Admin(admin) => {
                self.admin_policies.insert(admin.priority, admin)?;
            }
            Policy::Base(base) => {
                if self.baseline.is_none() {
                    self.baseline = Some(base);
                }
            }
        }
        Ok(())
    }

    // Adds what the object of the item of this number gives.
    fn add_object(
        &mut self,
        alloc: Global,
        number: u64,
        object: Object,
        context: Option<PodContext>,
    ) -> Result<(), NoMemory>
        ensures { OnOk result (spec.seen self.new ≡ spec.with_object (spec.seen self.old) number object context) }
    {
        match object {
            Object::Service(service) => self.services.push(service),
            Object::Ingress(ingress) => self.ingresses.push(PlacedIngress {
                item: number,
                ingress,
            }),
            Object::Pod(pod) => self.add_pod(listed_end(pod, context)),
            Object::Controller(controller) => self.add_pod(made_end(alloc, controller, context)),
            _ => Ok(()),
        }
    }

    // Adds a pod, if there is one.
    fn add_pod(&mut self, pod: Option<Pod>) -> Result<(), NoMemory>
        ensures { OnOk result (spec.seen self.new ≡ spec.with_pod (spec.seen self.old) pod) }
    {
        match pod {
            Some(pod) => self.pods.push(pod),
            None => Ok(()),
        }
    }
}

// The pod that a listed one gives, where the rest of the list is known.
fn listed_end(pod: PodItem, context: Option<PodContext>) -> Option<Pod>
    ensures { result ≡ option_and_then (ends.pod_of_object (object.Pod pod)) context }
{
    match context {
        Some(context) => Some(listed_pod(pod, context)),
        None => None,
    }
}

// The pod that a controller gives, where the rest of the list is known.
fn made_end(alloc: Global, controller: ControllerItem, context: Option<PodContext>) -> Option<Pod>
    ensures { result ≡ option_and_then (ends.pod_of_object (object.Controller controller)) context }
{
    match context {
        Some(context) => made_pod(alloc, controller, context),
        None => None,
    }
}

// The name of a NetworkPolicy among others.
fn net_name(alloc: Global, net: &NetPolicy) -> Result<ObjectName, NoMemory>
    ensures { IfOk result (λ made. made ≡ listed.net_name net.now) }
{
    Ok(ObjectName {
        kind: Text::of(alloc, "")?,
        namespace: net.namespace.copy()?,
        name: net.name.copy()?,
    })
}

// A listed pod.
fn listed_pod(pod: PodItem, context: PodContext) -> Pod
    ensures { result ≡ ends.listed_pod pod context }
{
    Pod {
        namespace: pod.namespace,
        namespace_labels: context.namespace_labels,
        name: pod.name,
        labels: pod.labels,
        ports: pod.ports,
        addresses: pod.addresses,
        owner: context.owner,
        listed: true,
    }
}

// The pod of a controller's template.
fn made_pod(alloc: Global, controller: ControllerItem, context: PodContext) -> Option<Pod>
    ensures { result ≡ option_map (ends.made_pod controller context) controller.template }
{
    let template = controller.template?;
    Some(Pod {
        namespace: controller.namespace,
        namespace_labels: context.namespace_labels,
        name: controller.name,
        labels: template.labels,
        ports: template.ports,
        addresses: Addresses::nothing(alloc),
        owner: context.owner,
        listed: false,
    })
}
