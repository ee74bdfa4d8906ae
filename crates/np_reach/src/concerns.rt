//! Which namespaces rules may speak of, whatever the labels of their pods are.
ghost use Rattle.std.specs.Prelude.{◌≡◌};
ghost use Rattle.np_reach.specs.Namespaces as spec;
ghost use Rattle.np_rules.specs.Prelude.{pod_end};

use np_model::{Action, AdminPeer, AdminRule, NetPeer, NetRule, Pod};

/// Whether a rule of a NetworkPolicy of this namespace may speak of pods of a pod's namespace.
pub(crate) fn net_rule_concerns(namespace: &str, rule: &NetRule, one: &Pod) -> bool
    ensures { result ≡ spec.net_rule_concerns namespace.now (pod_end one.now) rule.now }
{
    let peers = rule.peers.items();
    peers.is_empty() || some_net_peer_concerns(namespace, peers, one)
}

fn some_net_peer_concerns(namespace: &str, peers: &[NetPeer], one: &Pod) -> bool
    ensures { result ≡ spec.some_net_peer_concerns namespace.now (pod_end one.now) peers.now }
{
    peers
        .iter()
        .any(|peer| net_peer_concerns(namespace, peer, one))
}

fn net_peer_concerns(namespace: &str, peer: &NetPeer, one: &Pod) -> bool
    ensures { result ≡ spec.net_peer_concerns namespace.now (pod_end one.now) peer.now }
{
    match peer {
        NetPeer::Pods { namespaces, .. } => match namespaces {
            Some(namespaces) => namespaces.meets(one.namespace_labels.labels()),
            None => namespace == one.namespace.as_str(),
        },
        NetPeer::Block { .. } => false,
    }
}

/// Whether an admin rule allows, and may speak of pods of a pod's namespace.
pub(crate) fn admin_rule_concerns(rule: &AdminRule, one: &Pod) -> bool
    ensures { result ≡ spec.admin_rule_concerns (pod_end one.now) rule.now }
{
    match rule.action {
        Action::Allow => some_admin_peer_concerns(rule.peers.items(), one),
        Action::Deny | Action::Pass => false,
    }
}

fn some_admin_peer_concerns(peers: &[AdminPeer], one: &Pod) -> bool
    ensures { result ≡ spec.some_admin_peer_concerns (pod_end one.now) peers.now }
{
    peers.iter().any(|peer| admin_peer_concerns(peer, one))
}

fn admin_peer_concerns(peer: &AdminPeer, one: &Pod) -> bool
    ensures { result ≡ spec.admin_peer_concerns (pod_end one.now) peer.now }
{
    match peer {
        AdminPeer::Pods { namespaces, .. } => namespaces.meets(one.namespace_labels.labels()),
        AdminPeer::Networks { .. } => true,
    }
}
