//! The far ends that policies speak of.
ghost use Rattle.std.specs.Prelude.{◌≡◌, ℕ, ◌&&◌, All, IfOk, filter, map};
ghost use Rattle.std.specs.List.{flat_map, list_any};
ghost use Rattle.np_reach.specs.Marks.{AreWithin, IsSpoken, speaks_at};
ghost use Rattle.np_reach.specs.Namespaces.{AreOfOneNamespace};
ghost use Rattle.np_reach.specs.Stretches.{FollowOneAnother, IsStretch};
ghost use Rattle.np_rules.specs.Prelude.{pod, pod_end};

use crate::speaker::Speaker;
use crate::stretches::Stretch;
use np_base::{NoMemory, Seq};
use np_model::{Direction, Pod};
use std::alloc::Global;

/// Which of the pods of a stretch are spoken of. The first of them stands at this place among all pods.
#[derive(Drop)]
pub(crate) struct Marks {
    pub from: usize,
    pub pods: Seq<bool>,
}

/// A policy, and which pods its rules of a direction speak of. Nothing is kept of stretches that they do not speak of.
#[derive(Drop)]
pub(crate) struct Spoken<'a, P: Speaker> {
    pub policy: &'a P,
    pub far: Vec<Marks>,
}

/// The policies in order, each with which of the pods of some stretches its rules of a direction speak of.
pub(crate) fn spoken_by<'a, P: Speaker>(
    alloc: Global,
    policies: &'a [P],
    direction: Direction,
    stretches: &[Stretch<'_>],
) -> Result<Vec<Spoken<'a, P>>, NoMemory>
    requires alike { All IsStretch stretches.now }
    requires from { FollowOneAnother stretches.now }
    ensures policies { IfOk result (λ made. map (λ one. one.policy.now) made.items ≡ policies.now) }
    ensures far { IfOk result (λ made. All (λ one. IsSpoken (λ far. P.speaks direction (pod (pod_end far.now)) one.policy.now)
        (flat_map (λ stretch. stretch.pods.now) stretches.now) one.far.items) made.items) }
{
    let mut made = Vec::new(alloc);
    for policy in policies {
        let far = far_ends(alloc, policy, direction, stretches)?;
        made.push(Spoken { policy, far })?;
    }
    Ok(made)
}

// Which of the pods the rules of a policy speak of. Where they speak of none of a namespace, they are not asked of each of its
// pods.
fn far_ends<P: Speaker>(
    alloc: Global,
    policy: &P,
    direction: Direction,
    stretches: &[Stretch<'_>],
) -> Result<Vec<Marks>, NoMemory>
    requires alike { All IsStretch stretches.now }
    requires from { FollowOneAnother stretches.now }
    ensures { IfOk result (λ made. IsSpoken (λ far. P.speaks direction (pod (pod_end far.now)) policy.now)
        (flat_map (λ stretch. stretch.pods.now) stretches.now) made.items) }
{
    let mut made = Vec::new(alloc);
    for stretch in stretches {
        if policy.may_reach(direction, stretch.one) {
            let pods = marks_of(alloc, policy, direction, stretch.pods)?;
            made.push(Marks {
                from: stretch.from,
                pods,
            })?;
        }
    }
    Ok(made)
}

// Whether the rules of a policy speak of each of the pods.
fn marks_of<P: Speaker>(
    alloc: Global,
    policy: &P,
    direction: Direction,
    pods: &[&Pod],
) -> Result<Seq<bool>, NoMemory>
    ensures { IfOk result (λ made. made ≡ map (λ far. P.speaks direction (pod (pod_end far.now)) policy.now) pods.now) }
{
    let mut made = Seq::new(alloc);
    for far in pods {
        made.push(policy.reaches(direction, far))?;
    }
    Ok(made)
}

/// Whether each of the policies may select pods of a pod's namespace.
pub(crate) fn own_of<P: Speaker>(
    alloc: Global,
    policies: &[Spoken<'_, P>],
    one: &Pod,
) -> Result<Seq<bool>, NoMemory>
    ensures { IfOk result (λ made. made ≡ map (λ spoken. P.may_pick spoken.policy.now (pod_end one.now)) policies.now) }
{
    let mut made = Seq::new(alloc);
    for spoken in policies {
        made.push(spoken.policy.may_select(one))?;
    }
    Ok(made)
}

/// What those of the policies that select a pod speak of. Those that may select no pod of its namespace, which is that of
/// another pod, are not asked.
pub(crate) fn chosen_of<'s, 'p, P: Speaker>(
    alloc: Global,
    policies: &'s [Spoken<'p, P>],
    own: &[bool],
    other: &Pod,
    near: &Pod,
) -> Result<Vec<&'s [Marks]>, NoMemory>
    requires own { own.now ≡ map (λ spoken. P.may_pick spoken.policy.now (pod_end other.now)) policies.now }
    requires alike { AreOfOneNamespace (pod_end other.now) (pod_end near.now) }
    ensures chosen { IfOk result (λ made. (place : ℕ) → list_any (λ far. speaks_at far.now place) made.items
        ≡ list_any (λ one. P.picks one.policy.now (pod_end near.now) && speaks_at one.far.items place) policies.now) }
    ensures within { IfOk result (λ made. (count : ℕ) → All (λ one. AreWithin count one.far.items) policies.now →
        All (λ far. AreWithin count far.now) made.items) }
{
    let mut made = Vec::new(alloc);
    for (place, one) in policies.iter().enumerate() {
        if own[place] && one.policy.selects(near) {
            let far: &[Marks] = &one.far;
            made.push(far)?;
        }
    }
    Ok(made)
}
