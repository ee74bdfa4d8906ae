//! What the AdminNetworkPolicies say of one packet.
ghost use Rattle.std.specs.Prelude.{◌≡◌, [], find, if◌then◌else◌};
ghost use Rattle.std.specs.Option.{option_map};
ghost use Rattle.np_model.specs.Prelude.{HasAscendingPriorities};
ghost use Rattle.np_rules.specs.Prelude.{admin_decider, admin_rule_matches, contact_view, pod_view, subject_selects};
ghost use Rattle.np_rules.specs.model.Places as spec;

use crate::rules::admin_rule_matches;
use crate::selection::subject_selects;
use crate::views::{ContactView, PodView};
use np_model::{Action, AdminPolicy, AdminRule, Direction};

/// What the rule says that decides, and `None` where no rule matches.
pub(crate) fn admin_action(
    policies: &[AdminPolicy],
    direction: Direction,
    pod: &PodView<'_>,
    contact: &ContactView<'_>,
) -> Option<Action>
    requires { HasAscendingPriorities policies.now }
    ensures { result ≡ option_map (λ placed. placed.rule.action)
        (admin_decider policies.now direction (pod_view pod.now) (contact_view contact.now)) }
{
    let mut decided = None;
    for policy in policies {
        let here = action_by(policy, direction, pod, contact);
        decided = decided.or(here);
    }
    decided
}

// What the first matching rule of a policy says, where the policy selects the pod.
fn action_by(
    policy: &AdminPolicy,
    direction: Direction,
    pod: &PodView<'_>,
    contact: &ContactView<'_>,
) -> Option<Action>
    ensures { result ≡ option_map (λ rule. rule.action)
        (find (λ rule. admin_rule_matches rule (contact_view contact.now))
        (if subject_selects policy.now.subject (pod_view pod.now) then spec.admin_rules_of direction policy.now else [])) }
{
    let rules = admin_rules_for(policy, direction, pod);
    first_action(rules, contact)
}

// The rules of a direction, where the policy selects the pod.
fn admin_rules_for<'a>(
    policy: &'a AdminPolicy,
    direction: Direction,
    pod: &PodView<'_>,
) -> &'a [AdminRule]
    ensures { result.now
        ≡ (if subject_selects policy.now.subject (pod_view pod.now) then spec.admin_rules_of direction policy.now else []) }
{
    if subject_selects(&policy.subject, pod) {
        admin_rules_of(policy, direction)
    } else {
        &[]
    }
}

/// The rules of a direction.
pub fn admin_rules_of(policy: &AdminPolicy, direction: Direction) -> &[AdminRule]
    ensures { result.now ≡ spec.admin_rules_of direction policy.now }
{
    match direction {
        Direction::Ingress => policy.ingress.items(),
        Direction::Egress => policy.egress.items(),
    }
}

/// What the first matching rule says.
pub(crate) fn first_action(rules: &[AdminRule], contact: &ContactView<'_>) -> Option<Action>
    ensures { result ≡ option_map (λ rule. rule.action)
        (find (λ rule. admin_rule_matches rule (contact_view contact.now)) rules.now) }
{
    let found = rules.iter().find(|rule| admin_rule_matches(rule, contact))?;
    Some(found.action)
}
