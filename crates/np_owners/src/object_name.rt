//! The names of objects.
ghost use Rattle.std.specs.Prelude.{◌≡◌, IfOk};
ghost use Rattle.np_owners.specs.Names as names;

use np_base::{NoMemory, Text};
use np_items::Item;
use np_objects::Object;
use np_policies::Policy;
use std::alloc::Global;

/// What tells an object from all others of a cluster (Kubernetes API reference, ObjectMeta, `name`): its kind, its
/// namespace, which is empty for objects of the whole cluster, and its name. Names are ordered by their bytes, kind by
/// kind.
#[derive(Drop, PartialEq, Eq, PartialOrd, Ord)]
pub struct ObjectName {
    pub kind: Text,
    pub namespace: Text,
    pub name: Text,
}

/// The name of an item. `None` where it is of a kind that is not read.
pub fn name_of(alloc: Global, item: &Item) -> Result<Option<ObjectName>, NoMemory>
    ensures { IfOk result (λ name. name ≡ names.name_of_item item.now) }
{
    match item {
        Item::Object(object) => name_of_object(alloc, object),
        Item::Policy(policy) => name_of_policy(alloc, policy),
    }
}

// The name of an object that is no policy.
fn name_of_object(alloc: Global, object: &Object) -> Result<Option<ObjectName>, NoMemory>
    ensures { IfOk result (λ name. name ≡ names.name_of_object object.now) }
{
    match object {
        Object::Pod(pod) => named(alloc, "Pod", pod.namespace.as_str(), pod.name.as_str()),
        Object::Namespace(namespace) => named(alloc, "Namespace", "", namespace.name.as_str()),
        Object::Controller(controller) => named(
            alloc,
            controller.kind.name(),
            controller.namespace.as_str(),
            controller.name.as_str(),
        ),
        Object::Service(service) => named(
            alloc,
            "Service",
            service.namespace.as_str(),
            service.name.as_str(),
        ),
        Object::Ingress(ingress) => named(
            alloc,
            "Ingress",
            ingress.namespace.as_str(),
            ingress.name.as_str(),
        ),
        Object::Other => Ok(None),
    }
}

// The name of a policy. The baseline is a singleton.
fn name_of_policy(alloc: Global, policy: &Policy) -> Result<Option<ObjectName>, NoMemory>
    ensures { IfOk result (λ name. name ≡ names.policy_name policy.now) }
{
    match policy {
        Policy::Net(net) => named(
            alloc,
            "NetworkPolicy",
            net.namespace.as_str(),
            net.name.as_str(),
        ),
        Policy::Admin(admin) => named(alloc, "AdminNetworkPolicy", "", admin.name.as_str()),
        Policy::Base(_) => named(alloc, "BaselineAdminNetworkPolicy", "", "default"),
    }
}

// The name of these parts.
fn named(
    alloc: Global,
    kind: &str,
    namespace: &str,
    name: &str,
) -> Result<Option<ObjectName>, NoMemory>
    ensures { IfOk result (λ made. made ≡ names.object_named kind.now namespace.now name.now) }
{
    Ok(Some(ObjectName {
        kind: Text::of(alloc, kind)?,
        namespace: Text::of(alloc, namespace)?,
        name: Text::of(alloc, name)?,
    }))
}
