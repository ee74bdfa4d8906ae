//! An object of any kind.

use crate::controller::ControllerItem;
use crate::namespace::NamespaceItem;
use crate::pod_item::PodItem;
use np_model::{IngressItem, ServiceItem};

/// An object of a list.
#[derive(Drop)]
pub enum Object {
    Pod(PodItem),
    Namespace(NamespaceItem),
    Controller(ControllerItem),
    Service(ServiceItem),
    Ingress(IngressItem),
    /// An object of another kind or version, as a ConfigMap or a Deployment of `apps/v1beta1`, of which nothing is read.
    /// Policies are of other kinds too, but an item is asked first whether it is one: no `Other` of an item is a policy.
    Other,
}
