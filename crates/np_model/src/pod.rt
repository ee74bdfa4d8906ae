//! Pods as ends of connections.

use crate::named_port::NamedPort;
use crate::owner::Owner;
use np_addr::Addresses;
use np_base::{Seq, Text};
use np_labels::{Labels, SharedLabels};

/// A pod (Kubernetes API reference, Pod), with the labels of its namespace.
#[derive(Drop)]
pub struct Pod {
    pub namespace: Text,
    /// They say the namespace's name under `kubernetes.io/metadata.name` where they were read from JSON. The pods of a
    /// namespace share them.
    pub namespace_labels: SharedLabels,
    pub name: Text,
    pub labels: Labels,
    /// The container ports that have a name, in order.
    pub ports: Seq<NamedPort>,
    pub addresses: Addresses,
    /// The top owner.
    pub owner: Owner,
    /// Whether the pod itself is listed. One that is not is made from a controller's template.
    pub listed: bool,
}
