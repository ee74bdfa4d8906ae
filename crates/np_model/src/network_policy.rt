//! NetworkPolicy of `networking.k8s.io/v1`.

use np_addr::Cidr;
use np_base::{PortNum, Seq, Text};
use np_conns::Proto;
use np_labels::Selector;

/// An entry of `from` or `to` (Kubernetes API reference, NetworkPolicyPeer).
#[derive(Drop)]
pub enum NetPeer {
    /// Pods, by the labels of their namespaces and by their own. Without `namespaces` they are those of the
    /// policy's namespace; without `pods` they are all pods of the namespaces.
    Pods {
        namespaces: Option<Selector>,
        pods: Option<Selector>,
    },
    /// The addresses of a block that are in none of its exceptions: `ipBlock`.
    Block {
        cidr: Cidr,
        excepts: Seq<Cidr>,
    },
}

/// An entry of `ports` (Kubernetes API reference, NetworkPolicyPort).
#[derive(Drop)]
pub enum NetPort {
    /// The ports of a protocol from `lo` to `hi`, both included.
    Span {
        proto: Proto,
        lo: PortNum,
        hi: PortNum,
    },
    /// The ports of that name and protocol at the destination.
    Named {
        proto: Proto,
        name: Text,
    },
}

/// An entry of `ingress` or `egress`. Without peers it matches every end, without port entries every protocol
/// and port (Kubernetes API reference, NetworkPolicyIngressRule and NetworkPolicyEgressRule).
#[derive(Drop)]
pub struct NetRule {
    pub peers: Seq<NetPeer>,
    pub ports: Seq<NetPort>,
}

/// A NetworkPolicy. A direction is `Some` exactly where it is among the policy's types, with the rules as
/// written; rules of another direction have no effect (Kubernetes API reference, NetworkPolicySpec).
#[derive(Drop)]
pub struct NetPolicy {
    pub namespace: Text,
    pub name: Text,
    /// The labels of the pods of its namespace that it selects.
    pub subject: Selector,
    pub ingress: Option<Seq<NetRule>>,
    pub egress: Option<Seq<NetRule>>,
}
