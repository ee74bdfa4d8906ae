//! What the baseline says of one packet.
ghost use Rattle.std.specs.Prelude.{◌≡◌, map, Some};
ghost use Rattle.std.specs.Option.{option_map, option_copied};
ghost use Rattle.np_rules.specs.Prelude.{base_decider, base_places, contact_view, pod_view};
ghost use Rattle.np_rules.specs.model.Places as spec;

use crate::admin_tier::first_action;
use crate::selection::subject_selects;
use crate::views::{ContactView, PodView};
use np_model::{Action, AdminRule, BasePolicy, Direction};

/// What the rule of the baseline says that decides, and `None` where none matches.
pub(crate) fn base_action(
    baseline: Option<&BasePolicy>,
    direction: Direction,
    pod: &PodView<'_>,
    contact: &ContactView<'_>,
) -> Option<Action>
    ensures { result ≡ option_map (λ placed. placed.rule.action)
        (base_decider (option_copied baseline.entry) direction (pod_view pod.now) (contact_view contact.now)) }
{
    let rules = base_rules_for(baseline, direction, pod);
    first_action(rules, contact)
}

/// The rules of a direction, where there is a baseline and it selects the pod.
pub(crate) fn base_rules_for<'a>(
    baseline: Option<&'a BasePolicy>,
    direction: Direction,
    pod: &PodView<'_>,
) -> &'a [AdminRule]
    ensures { result.now
        ≡ map (λ placed. placed.rule) (base_places (option_copied baseline.entry) direction (pod_view pod.now)) }
{
    match baseline {
        Some(policy) => rules_for(policy, direction, pod),
        None => &[],
    }
}

// The same of a baseline that is there.
fn rules_for<'a>(policy: &'a BasePolicy, direction: Direction, pod: &PodView<'_>) -> &'a [AdminRule]
    ensures { result.now ≡ map (λ placed. placed.rule) (base_places (Some policy.now) direction (pod_view pod.now)) }
{
    if subject_selects(&policy.subject, pod) {
        base_rules_of(policy, direction)
    } else {
        &[]
    }
}

// The rules of a direction.
fn base_rules_of(policy: &BasePolicy, direction: Direction) -> &[AdminRule]
    ensures { result.now ≡ spec.base_rules_of direction policy.now }
{
    match direction {
        Direction::Ingress => policy.ingress.items(),
        Direction::Egress => policy.egress.items(),
    }
}
