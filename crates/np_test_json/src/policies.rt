//! What items are read as that may be policies.

use crate::selectors::{asks_for, asks_for_nothing, is_asked};
use np_addr::{Cidr, read_cidr};
use np_base::Seq;
use np_conns::Proto;
use np_json::{FaultKind, ReadFault};
use np_labels::{Op, Selector};
use np_model::{
    Action, AdminPeer, AdminPolicy, AdminPort, AdminRule, BasePolicy, NetPeer, NetPolicy, NetPort,
    NetRule, admin_peers,
};
use np_policies::{Policy, read_policy};
use serde_json::Value;
use std::alloc::Global;
use std::process::Abort;

/// Policies.
#[derive(Clone, Copy)]
enum Example {
    NetworkPolicy,
    Expressions,
    AdminPolicy,
    Baseline,
    List,
    OtherVersion,
}

impl Example {
    fn text(self) -> &'static str {
        match self {
            Example::NetworkPolicy => NET_POLICY,
            Example::Expressions => EXPRESSIONS,
            Example::AdminPolicy => ADMIN_POLICY,
            Example::Baseline => BASELINE,
            Example::List => r#"{"apiVersion": "v1", "kind": "NetworkPolicyList"}"#,
            Example::OtherVersion =>
                r#"{"apiVersion": "networking.k8s.io/v1beta1", "kind": "NetworkPolicy"}"#,
        }
    }

    // Whether what was read is what the text says.
    fn is_read_as(self, read: &Result<Option<Policy>, ReadFault>) -> bool {
        match (self, read) {
            (Example::NetworkPolicy, Ok(Some(Policy::Net(net)))) => is_that_of_the_documentation(
                net,
            ),
            (Example::Expressions, Ok(Some(Policy::Net(net)))) => is_in_order(&net.subject),
            (Example::AdminPolicy, Ok(Some(Policy::Admin(admin)))) => is_that_of_the_reference(
                admin,
            ),
            (Example::Baseline, Ok(Some(Policy::Base(base)))) => is_baseline_of_the_reference(base),
            (Example::List, Ok(None)) => true,
            (Example::OtherVersion, Err(ReadFault::Bad(fault))) => {
                fault.item == 1 && fault.kind == FaultKind::ForeignPolicy
            }
            _ => false,
        }
    }
}

// What an example is read as, as item 1 of a list.
fn read_example(
    rt: &impl Abort,
    alloc: Global,
    example: Example,
) -> Result<Option<Policy>, ReadFault> {
    let value = Value::from_str(alloc, example.text()).expect(rt, "an object");
    read_policy(alloc, 1, &value)
}

// Stops the test unless an example is read as what its text says. A policy lives nowhere else, since each function that lets one go is
// dear to prove.
fn expect_read(rt: &impl Abort, alloc: Global, example: Example) {
    let read = read_example(rt, alloc, example);
    assert!(rt; example.is_read_as(&read), "{}", example.text());
}

#[test]
fn example_read_policy(rt: HostRuntime) {
    let alloc = rt.alloc();
    expect_read(&rt, alloc, Example::NetworkPolicy);
    expect_read(&rt, alloc, Example::Expressions);
    expect_read(&rt, alloc, Example::AdminPolicy);
    expect_read(&rt, alloc, Example::Baseline);
    expect_read(&rt, alloc, Example::List);
    expect_read(&rt, alloc, Example::OtherVersion);
}

fn is_cidr(cidr: &Cidr, text: &str) -> bool {
    read_cidr(text) == Ok(*cidr)
}

// From the Kubernetes documentation, "Network Policies", with two more ports.
static NET_POLICY: &str = r#"{"apiVersion": "networking.k8s.io/v1", "kind": "NetworkPolicy",
    "metadata": {"name": "test-network-policy", "namespace": "default"},
    "spec": {"podSelector": {"matchLabels": {"role": "db"}}, "policyTypes": ["Ingress"],
    "ingress": [{"from": [{"ipBlock": {"cidr": "172.17.0.0/16", "except": ["172.17.1.0/24"]}},
        {"namespaceSelector": {"matchLabels": {"project": "myproject"}}},
        {"podSelector": {"matchLabels": {"role": "frontend"}}}],
        "ports": [{"protocol": "TCP", "port": 32000, "endPort": 32768}, {"port": "http"}]}]}}"#;

fn is_block(peer: &NetPeer) -> bool {
    match peer {
        NetPeer::Block { cidr, excepts } => match excepts.items() {
            [except] => is_cidr(cidr, "172.17.0.0/16") && is_cidr(except, "172.17.1.0/24"),
            _ => false,
        },
        NetPeer::Pods { .. } => false,
    }
}

fn is_namespace(peer: &NetPeer) -> bool {
    match peer {
        NetPeer::Pods {
            namespaces: Some(namespaces),
            pods: None,
        } => asks_for(namespaces, "project", "myproject"),
        _ => false,
    }
}

fn is_frontend(peer: &NetPeer) -> bool {
    match peer {
        NetPeer::Pods {
            namespaces: None,
            pods: Some(pods),
        } => asks_for(pods, "role", "frontend"),
        _ => false,
    }
}

fn is_span(port: &NetPort) -> bool {
    match port {
        NetPort::Span { proto, lo, hi } => {
            *proto == Proto::Tcp && lo.get() == 32000 && hi.get() == 32768
        }
        NetPort::Named { .. } => false,
    }
}

fn is_http(port: &NetPort) -> bool {
    match port {
        NetPort::Named { proto, name } => *proto == Proto::Tcp && name.as_str() == "http",
        NetPort::Span { .. } => false,
    }
}

fn are_peers(peers: &[NetPeer]) -> bool {
    match peers {
        [block, namespace, frontend] => {
            is_block(block) && is_namespace(namespace) && is_frontend(frontend)
        }
        _ => false,
    }
}

fn are_ports(ports: &[NetPort]) -> bool {
    match ports {
        [span, http] => is_span(span) && is_http(http),
        _ => false,
    }
}

fn is_rule(rules: &Option<Seq<NetRule>>) -> bool {
    match rules {
        Some(rules) => match rules.items() {
            [rule] => are_peers(rule.peers.items()) && are_ports(rule.ports.items()),
            _ => false,
        },
        None => false,
    }
}

fn is_that_of_the_documentation(net: &NetPolicy) -> bool {
    net.namespace.as_str() == "default"
        && net.name.as_str() == "test-network-policy"
        && asks_for(&net.subject, "role", "db")
        && is_rule(&net.ingress)
        && net.egress.is_none()
}

static EXPRESSIONS: &str =
    r#"{"apiVersion": "networking.k8s.io/v1", "kind": "NetworkPolicy", "metadata": {"name": "p"},
    "spec": {"podSelector": {"matchExpressions": [
        {"key": "z", "operator": "NotIn", "values": ["b", "b"]},
        {"key": "a", "operator": "Exists"}, {"key": "c", "operator": "DoesNotExist", "values": []}],
        "matchLabels": {"y": "1"}}}}"#;

// Labels stand before expressions, and each value once.
fn is_in_order(selector: &Selector) -> bool {
    match selector.requirements.items() {
        [label, values, there, absent] => {
            is_asked(label, "y", Op::OneOf, "1")
                && is_asked(values, "z", Op::NoneOf, "b")
                && is_asked(there, "a", Op::Present, "")
                && is_asked(absent, "c", Op::Absent, "")
        }
        _ => false,
    }
}

// From the reference of network-policy-api, with a rule on networks.
static ADMIN_POLICY: &str =
    r#"{"apiVersion": "policy.networking.k8s.io/v1alpha1", "kind": "AdminNetworkPolicy",
    "metadata": {"name": "cluster-wide-allow-example"}, "spec": {"priority": 30,
    "subject": {"namespaces": {}},
    "egress": [{"action": "Allow", "to": [{"pods": {
        "namespaceSelector": {"matchLabels": {"kubernetes.io/metadata.name": "kube-system"}},
        "podSelector": {"matchLabels": {"app": "dns"}}}}],
        "ports": [{"portNumber": {"protocol": "UDP", "port": 5353}}, {"namedPort": "dns"}]},
        {"action": "Pass", "to": [{"networks": ["203.0.113.7/24", "2001:db8::/32"]}]}]}}"#;

fn is_dns_of_the_system(peer: &AdminPeer) -> bool {
    match peer {
        AdminPeer::Pods { namespaces, pods } => {
            asks_for(namespaces, "kubernetes.io/metadata.name", "kube-system")
                && asks_for(pods, "app", "dns")
        }
        AdminPeer::Networks { .. } => false,
    }
}

fn are_networks(peer: &AdminPeer) -> bool {
    match peer {
        AdminPeer::Networks { cidrs } => match cidrs.items() {
            [four, six] => is_cidr(four, "203.0.113.0/24") && is_cidr(six, "2001:db8::/32"),
            _ => false,
        },
        AdminPeer::Pods { .. } => false,
    }
}

fn are_dns(ports: &[AdminPort]) -> bool {
    match ports {
        [AdminPort::Span { proto, lo, hi }, AdminPort::Named { name }] => {
            *proto == Proto::Udp && lo.get() == 5353 && hi.get() == 5353 && name.as_str() == "dns"
        }
        _ => false,
    }
}

fn allows_dns(rule: &AdminRule) -> bool {
    match rule.peers.items() {
        [pods] => {
            rule.action == Action::Allow
                && is_dns_of_the_system(pods)
                && are_dns(rule.ports.items())
        }
        _ => false,
    }
}

fn passes_networks(rule: &AdminRule) -> bool {
    match rule.peers.items() {
        [networks] => {
            rule.action == Action::Pass && are_networks(networks) && rule.ports.items().is_empty()
        }
        _ => false,
    }
}

fn are_rules_of_the_reference(rules: &[AdminRule]) -> bool {
    match rules {
        [first, second] => allows_dns(first) && passes_networks(second),
        _ => false,
    }
}

fn is_that_of_the_reference(admin: &AdminPolicy) -> bool {
    admin.name.as_str() == "cluster-wide-allow-example"
        && admin.priority == 30
        && asks_for_nothing(&admin.subject.namespaces)
        && asks_for_nothing(&admin.subject.pods)
        && admin.ingress.items().is_empty()
        && are_rules_of_the_reference(admin.egress.items())
}

static BASELINE: &str =
    r#"{"apiVersion": "policy.networking.k8s.io/v1alpha1", "kind": "BaselineAdminNetworkPolicy",
    "metadata": {"name": "default"}, "spec": {"subject": {"namespaces": {}},
    "ingress": [{"action": "Deny", "from": [{"namespaces": {}}]}]}}"#;

fn denies_all_pods(rules: &[AdminRule]) -> bool {
    match rules {
        [rule] => match rule.peers.items() {
            [peer] => rule.action == Action::Deny && is_all_pods(peer),
            _ => false,
        },
        _ => false,
    }
}

fn is_all_pods(peer: &AdminPeer) -> bool {
    match peer {
        AdminPeer::Pods { namespaces, pods } => {
            asks_for_nothing(namespaces) && asks_for_nothing(pods)
        }
        AdminPeer::Networks { .. } => false,
    }
}

// Whether all pods are the one peer of the baseline that was read.
fn has_one_peer(rt: &impl Abort, alloc: Global, read: &Result<Option<Policy>, ReadFault>) -> bool {
    match read {
        Ok(Some(Policy::Base(base))) => {
            let peers = admin_peers(alloc, &[], Some(base)).expect(rt, "peers");
            match peers.as_slice() {
                [peer] => is_all_pods(peer),
                _ => false,
            }
        }
        _ => false,
    }
}

#[test]
fn example_admin_peers(rt: HostRuntime) {
    let alloc = rt.alloc();
    let read = read_example(&rt, alloc, Example::Baseline);
    assert!(rt; has_one_peer(&rt, alloc, &read), "admin_peers");
}

fn is_baseline_of_the_reference(base: &BasePolicy) -> bool {
    asks_for_nothing(&base.subject.namespaces)
        && asks_for_nothing(&base.subject.pods)
        && denies_all_pods(base.ingress.items())
        && base.egress.items().is_empty()
}
