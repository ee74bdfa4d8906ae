//! Services.

use np_base::{PortNum, Seq, Text};
use np_conns::Proto;
use np_labels::Selector;

/// A port by its number or by its name.
#[derive(Drop)]
pub enum PortName {
    Number(PortNum),
    Named(Text),
}

/// A port of a service (Kubernetes API reference, ServicePort).
#[derive(Drop)]
pub struct ServicePort {
    pub name: Option<Text>,
    pub proto: Proto,
    pub port: PortNum,
    /// The container port behind it. A missing `targetPort`, the number 0 and the empty text stand for `port`.
    pub target: PortName,
}

/// A service as it is listed (Kubernetes API reference, Service).
#[derive(Drop)]
pub struct ServiceItem {
    pub namespace: Text,
    pub name: Text,
    /// The labels of the pods that it serves. `None` where it is missing or empty.
    pub selector: Option<Selector>,
    /// Whether its `clusterIP` is `None`.
    pub headless: bool,
    /// Whether its type is `ExternalName`.
    pub external: bool,
    pub ports: Seq<ServicePort>,
}
