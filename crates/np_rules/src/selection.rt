//! Which pods a policy is about.
ghost use Rattle.std.specs.Prelude.{◌≡◌};
ghost use Rattle.np_rules.specs.model.Selection as spec;
ghost use Rattle.np_rules.specs.Prelude.{pod_view};

use crate::views::PodView;
use np_model::{NetPolicy, Subject};

/// Whether a NetworkPolicy selects a pod.
pub(crate) fn net_selects(policy: &NetPolicy, pod: &PodView<'_>) -> bool
    ensures { result ≡ spec.net_selects policy.now (pod_view pod.now) }
{
    policy.namespace.as_str() == pod.namespace && policy.subject.meets(pod.labels)
}

/// Whether the subject of an admin policy or of the baseline is about a pod.
pub(crate) fn subject_selects(subject: &Subject, pod: &PodView<'_>) -> bool
    ensures { result ≡ spec.subject_selects subject.now (pod_view pod.now) }
{
    subject.namespaces.meets(pod.namespace_labels) && subject.pods.meets(pod.labels)
}
