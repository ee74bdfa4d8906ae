//! Sides of pods that are the same.
ghost use Rattle.std.specs.Prelude.{◌≡◌, ◌<◌, AllPairs, length};
ghost use Rattle.std.specs.Bool.{OnTrue};
ghost use Rattle.std.specs.Option.{option_copied};
ghost use Rattle.np_model.specs.Prelude.{PolicyStandsBefore};
ghost use Rattle.np_rules.specs.Prelude.{pod_at, pod_view};
ghost use Rattle.np_rules.specs.SameSides as spec;

use crate::near_ends::view_at;
use crate::own_policies::own_policies;
use crate::same::{Same, are_same};
use crate::selection::{net_selects, subject_selects};
use crate::views::PodView;
use np_model::{AdminPolicy, BasePolicy, Direction, Estate, NamedPort, NetPolicy, Subject};

impl Same for NamedPort {
    fn is_same(&self, other: &NamedPort) -> bool {
        self.name == other.name && self.proto == other.proto && self.number == other.number
    }
}

/// Whether two pods, which are named by their places in the estate, have the same side in a direction: the same policies select
/// both, and where packets come to them, they have the same named ports. Then both allow the same with every far end, and the
/// same rules decide it. Sides of which it says no may do so, too.
pub fn is_same_side(estate: &Estate, pod: u32, other: u32, direction: Direction) -> bool
    requires pod { pod < length estate.now.pods }
    requires other { other < length estate.now.pods }
    ensures same { OnTrue result
        (spec.IsSameSide estate.now direction (pod_at estate.now pod) (pod_at estate.now other)) }
    ensures allows { OnTrue result
        (spec.AllowTheSame estate.now direction (pod_at estate.now pod) (pod_at estate.now other)) }
    ensures decides { OnTrue result
        (spec.DecideTheSame estate.now direction (pod_at estate.now pod) (pod_at estate.now other)) }
{
    let near = view_at(estate, pod);
    let far = view_at(estate, other);
    are_alike(estate, &near, &far, direction)
}

// The same of two pods. What is compared first takes the least time.
fn are_alike(estate: &Estate, pod: &PodView<'_>, other: &PodView<'_>, direction: Direction) -> bool
    ensures { OnTrue result (spec.IsSameSide estate.now direction (pod_view pod.now) (pod_view other.now)) }
{
    has_same_ports(pod.ports, other.ports, direction)
        && is_alike_for_base(estate.baseline(), pod, other)
        && is_alike_for_admin(estate.admin_policies(), pod, other)
        && is_alike_for_net(estate.net_policies(), pod, other)
}

// Whether two pods have the same named ports, where packets come to them. Where they send, nobody asks for these.
fn has_same_ports(ports: &[NamedPort], others: &[NamedPort], direction: Direction) -> bool
    ensures { OnTrue result (spec.HaveSamePorts direction ports.now others.now) }
{
    match direction {
        Direction::Ingress => are_same(ports, others),
        Direction::Egress => true,
    }
}

// Whether each AdminNetworkPolicy selects both pods, or neither.
fn is_alike_for_admin(policies: &[AdminPolicy], pod: &PodView<'_>, other: &PodView<'_>) -> bool
    ensures { result ≡ spec.is_alike_for_admin policies.now (pod_view pod.now) (pod_view other.now) }
{
    policies
        .iter()
        .all(|policy| is_subject_of_both(&policy.subject, pod, other))
}

// Whether each NetworkPolicy selects both pods, or neither. Those of other namespaces than theirs select neither.
fn is_alike_for_net(policies: &[NetPolicy], pod: &PodView<'_>, other: &PodView<'_>) -> bool
    requires { AllPairs PolicyStandsBefore policies.now }
    ensures { result ≡ spec.is_alike_for_net policies.now (pod_view pod.now) (pod_view other.now) }
{
    let own = own_policies(policies, pod.namespace);
    let others = own_policies(policies, other.namespace);
    let here = selects_both(own.policies, pod, other);
    let there = selects_both(others.policies, pod, other);
    here & there
}

// Whether each of these NetworkPolicies selects both pods, or neither.
fn selects_both(policies: &[NetPolicy], pod: &PodView<'_>, other: &PodView<'_>) -> bool
    ensures { result ≡ spec.is_alike_for_net policies.now (pod_view pod.now) (pod_view other.now) }
{
    policies.iter().all(|policy| net_selects(policy, pod) == net_selects(policy, other))
}

// Whether the baseline selects both pods or neither, where there is one.
fn is_alike_for_base(baseline: Option<&BasePolicy>, pod: &PodView<'_>, other: &PodView<'_>) -> bool
    ensures { result ≡ spec.is_alike_for_base (option_copied baseline.entry) (pod_view pod.now) (pod_view other.now) }
{
    match baseline {
        Some(policy) => is_subject_of_both(&policy.subject, pod, other),
        None => true,
    }
}

// Whether a subject selects both pods, or neither.
fn is_subject_of_both(subject: &Subject, pod: &PodView<'_>, other: &PodView<'_>) -> bool
    ensures { result ≡ spec.is_subject_of_both subject.now (pod_view pod.now) (pod_view other.now) }
{
    subject_selects(subject, pod) == subject_selects(subject, other)
}
