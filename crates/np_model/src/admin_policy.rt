//! AdminNetworkPolicy and BaselineAdminNetworkPolicy of `policy.networking.k8s.io/v1alpha1`.

use np_addr::Cidr;
use np_base::{PortNum, Seq, Text};
use np_conns::Proto;
use np_labels::Selector;

/// What an admin rule says of the packets that it matches (network-policy-api reference,
/// AdminNetworkPolicyRuleAction).
#[derive(Clone, Copy, Debug, PartialEq, Eq)]
pub enum Action {
    Allow,
    Deny,
    /// The remaining admin rules are skipped. A baseline has no such rule.
    Pass,
}

/// The pods that an admin policy is about: those that meet both selectors (network-policy-api reference,
/// AdminNetworkPolicySubject). A subject of `namespaces` has a pod selector that everything meets.
#[derive(Drop)]
pub struct Subject {
    pub namespaces: Selector,
    pub pods: Selector,
}

/// An entry of `from` or `to` of an admin rule (network-policy-api reference, AdminNetworkPolicyIngressPeer and
/// AdminNetworkPolicyEgressPeer).
#[derive(Drop)]
pub enum AdminPeer {
    /// The pods that meet both selectors.
    Pods {
        namespaces: Selector,
        pods: Selector,
    },
    /// The addresses in some of the blocks, and the pods that have one of them.
    Networks {
        cidrs: Seq<Cidr>,
    },
}

/// An entry of `ports` of an admin rule (network-policy-api reference, AdminNetworkPolicyPort).
#[derive(Drop)]
pub enum AdminPort {
    /// The ports of a protocol from `lo` to `hi`, both included.
    Span {
        proto: Proto,
        lo: PortNum,
        hi: PortNum,
    },
    /// The ports of that name at the destination, each with its protocol.
    Named {
        name: Text,
    },
}

/// An entry of `ingress` or `egress` of an admin policy. It has at least one peer where it was read from JSON. Without
/// port entries it matches every protocol and port.
#[derive(Drop)]
pub struct AdminRule {
    pub action: Action,
    pub peers: Seq<AdminPeer>,
    pub ports: Seq<AdminPort>,
}

/// An AdminNetworkPolicy (network-policy-api reference, AdminNetworkPolicySpec). Of the policies that select a pod the
/// one with the smallest priority is looked at first, and its rules in the order written.
#[derive(Drop)]
pub struct AdminPolicy {
    pub name: Text,
    /// From 0 to 1000 where it was read from JSON.
    pub priority: u16,
    pub subject: Subject,
    pub ingress: Seq<AdminRule>,
    pub egress: Seq<AdminRule>,
}

/// The BaselineAdminNetworkPolicy, which is named `default` (network-policy-api reference,
/// BaselineAdminNetworkPolicySpec). Its actions are `Allow` and `Deny` where it was read from JSON.
#[derive(Drop)]
pub struct BasePolicy {
    pub subject: Subject,
    pub ingress: Seq<AdminRule>,
    pub egress: Seq<AdminRule>,
}
