//! What the NetworkPolicies say of one packet.
ghost use Rattle.std.specs.Prelude.{◌≡◌, [], None, if◌then◌else◌, unwrap_or};
ghost use Rattle.std.specs.List.{list_any};
ghost use Rattle.std.specs.Option.{option_map};
ghost use Rattle.np_rules.specs.model.NetTier as spec;
ghost use Rattle.np_rules.specs.Prelude.{contact_view, net_rule_matches, net_rules_of, net_selects, pod_view};

use crate::rules::net_rule_matches;
use crate::selection::net_selects;
use crate::views::{ContactView, PodView};
use np_model::{Direction, NetPolicy, NetRule};

/// Whether some policy isolates the pod.
pub(crate) fn is_isolated(policies: &[NetPolicy], direction: Direction, pod: &PodView<'_>) -> bool
    ensures { result ≡ spec.is_isolated policies.now direction (pod_view pod.now) }
{
    policies
        .iter()
        .any(|policy| isolates(policy, direction, pod))
}

// Whether a policy isolates the pod.
fn isolates(policy: &NetPolicy, direction: Direction, pod: &PodView<'_>) -> bool
    ensures { result ≡ spec.isolates direction (pod_view pod.now) policy.now }
{
    net_selects(policy, pod) && net_rules_of(policy, direction).is_some()
}

/// The rules of a direction, where it is among the policy's types.
pub fn net_rules_of(policy: &NetPolicy, direction: Direction) -> Option<&[NetRule]>
    ensures { option_map (λ rules. rules.now) result ≡ net_rules_of direction policy.now }
{
    let rules = match direction {
        Direction::Ingress => &policy.ingress,
        Direction::Egress => &policy.egress,
    };
    match rules {
        Some(rules) => Some(rules.items()),
        None => None,
    }
}

/// Whether some rule of a policy that selects the pod matches.
pub(crate) fn permits(
    policies: &[NetPolicy],
    direction: Direction,
    pod: &PodView<'_>,
    contact: &ContactView<'_>,
) -> bool
    ensures { result ≡ spec.permits policies.now direction (pod_view pod.now) (contact_view contact.now) }
{
    let mut permitted = false;
    for policy in policies {
        let here = permits_by(policy, direction, pod, contact);
        permitted |= here;
    }
    permitted
}

// Whether some rule of a policy matches, where the policy selects the pod.
fn permits_by(
    policy: &NetPolicy,
    direction: Direction,
    pod: &PodView<'_>,
    contact: &ContactView<'_>,
) -> bool
    ensures { result
        ≡ list_any (λ rule. net_rule_matches policy.now.namespace rule (contact_view contact.now))
        (if net_selects policy.now (pod_view pod.now) then unwrap_or (net_rules_of direction policy.now) [] else []) }
{
    let rules = net_rules_for(policy, direction, pod);
    some_rule_matches(policy.namespace.as_str(), rules, contact)
}

// The rules of a direction, where the policy selects the pod and the direction is among its types.
fn net_rules_for<'a>(
    policy: &'a NetPolicy,
    direction: Direction,
    pod: &PodView<'_>,
) -> &'a [NetRule]
    ensures { result.now
        ≡ (if net_selects policy.now (pod_view pod.now) then unwrap_or (net_rules_of direction policy.now) [] else []) }
{
    match isolating_rules(policy, direction, pod) {
        Some(rules) => rules,
        None => &[],
    }
}

/// The rules of a direction, where the policy isolates the pod.
pub(crate) fn isolating_rules<'a>(
    policy: &'a NetPolicy,
    direction: Direction,
    pod: &PodView<'_>,
) -> Option<&'a [NetRule]>
    ensures { option_map (λ rules. rules.now) result
        ≡ (if net_selects policy.now (pod_view pod.now) then net_rules_of direction policy.now else None) }
{
    match net_rules_of(policy, direction) {
        Some(rules) if net_selects(policy, pod) => Some(rules),
        _ => None,
    }
}

fn some_rule_matches(namespace: &str, rules: &[NetRule], contact: &ContactView<'_>) -> bool
    ensures { result ≡ list_any (λ rule. net_rule_matches namespace.now rule (contact_view contact.now)) rules.now }
{
    rules
        .iter()
        .any(|rule| net_rule_matches(namespace, rule, contact))
}
