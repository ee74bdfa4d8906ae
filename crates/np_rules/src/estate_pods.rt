//! Which pods of an estate a policy selects, and which ones a rule of it speaks of as far ends.
ghost use Rattle.std.specs.Prelude.{◌≡◌, AllPairs};
ghost use Rattle.std.specs.List.{list_any};
ghost use Rattle.np_model.specs.Prelude.{PolicyStandsBefore};
ghost use Rattle.np_rules.specs.Prelude.{admin_peer_matches, is_isolated, net_peer_matches, none_or_any, pod, pod_end};
ghost use Rattle.np_rules.specs.model.Selection as spec;

use crate::net_tier::is_isolated;
use crate::own_policies::own_policies;
use crate::peers::{admin_peers_match, net_peers_match};
use crate::selection::{net_selects, subject_selects};
use crate::views::{EndView, view_of_pod};
use np_addr::Family;
use np_model::{AdminRule, Direction, NetPolicy, NetRule, Pod, Subject};

/// Whether a NetworkPolicy selects a pod.
pub fn net_policy_selects(policy: &NetPolicy, pod: &Pod) -> bool
    ensures { result ≡ spec.net_selects policy.now (pod_end pod.now) }
{
    net_selects(policy, &view_of_pod(pod))
}

/// Whether some NetworkPolicy isolates a pod. Those of the pod's namespace alone are looked at.
pub fn isolates_pod(policies: &[NetPolicy], direction: Direction, pod: &Pod) -> bool
    requires { AllPairs PolicyStandsBefore policies.now }
    ensures { result ≡ is_isolated policies.now direction (pod_end pod.now) }
{
    let own = own_policies(policies, pod.namespace.as_str());
    is_isolated(own.policies, direction, &view_of_pod(pod))
}

/// Whether the subject of an admin policy or of the baseline selects a pod.
pub fn admin_policy_selects(subject: &Subject, pod: &Pod) -> bool
    ensures { result ≡ spec.subject_selects subject.now (pod_end pod.now) }
{
    subject_selects(subject, &view_of_pod(pod))
}

/// Whether a pod is a far end that a rule of a NetworkPolicy of this namespace speaks of, whatever the port is.
pub fn net_rule_reaches(namespace: &str, rule: &NetRule, far: &Pod) -> bool
    ensures { result ≡ none_or_any (λ peer. net_peer_matches namespace.now peer (pod (pod_end far.now))) rule.now.peers }
{
    net_peers_match(
        namespace,
        rule.peers.items(),
        &EndView::Pod(view_of_pod(far)),
    )
}

/// Whether a pod is a far end that an admin rule speaks of in packets of a family, whatever the port is.
pub fn admin_rule_reaches(rule: &AdminRule, far: &Pod, family: Family) -> bool
    ensures { result ≡ list_any (λ peer. admin_peer_matches peer (pod (pod_end far.now)) family) rule.now.peers }
{
    admin_peers_match(rule.peers.items(), &EndView::Pod(view_of_pod(far)), family)
}
