//! Ingresses.

use crate::service::PortName;
use np_base::{Seq, Text};

/// What an ingress sends requests to (Kubernetes API reference, IngressBackend).
#[derive(Drop)]
pub enum Backend {
    /// A port of the service of that name in the ingress's namespace.
    Service { name: Text, port: PortName },
    /// Another resource, which no pods are known of.
    Resource,
}

/// An ingress as it is listed (Kubernetes API reference, Ingress). Its backends are `defaultBackend`, where there is
/// one, and those of its rules and their paths as written.
#[derive(Drop)]
pub struct IngressItem {
    pub namespace: Text,
    pub name: Text,
    pub backends: Seq<Backend>,
}
