//! Pods of one namespace that stand together.
ghost use Rattle.std.specs.Prelude.{◌≡◌, ◌≤◌, All, IfOk, length, take, true};
ghost use Rattle.std.specs.List.{flat_map};
ghost use Rattle.np_reach.specs.Namespaces.{AreOfOneNamespace};
ghost use Rattle.np_reach.specs.Stretches.{FollowOneAnother, IsStretch};
ghost use Rattle.np_rules.specs.Prelude.{pod_end};

use np_base::NoMemory;
use np_model::Pod;
use std::alloc::Global;

/// Pods of the namespace of one of them, so that what a policy may say of that namespace is asked once for all. The first
/// stands at this place among all pods.
#[derive(Clone, Copy)]
pub(crate) struct Stretch<'a> {
    pub from: usize,
    pub one: &'a Pod,
    pub pods: &'a [&'a Pod],
}

/// The pods in order, cut wherever the next one is of another namespace. A list as kubectl prints it has one stretch for each
/// namespace.
pub(crate) fn stretches<'a>(
    alloc: Global,
    pods: &'a [&'a Pod],
) -> Result<Vec<Stretch<'a>>, NoMemory>
    ensures pods { IfOk result (λ made. flat_map (λ stretch. stretch.pods.now) made.items ≡ pods.now) }
    ensures alike { IfOk result (λ made. All IsStretch made.items) }
    ensures from { IfOk result (λ made. FollowOneAnother made.items) }
{
    let mut made = Vec::new(alloc);
    let mut from = 0;
    while from < pods.len() {
        let (_, rest) = pods.split_at(from);
        let (_, others) = pods.split_at(from + 1);
        let one = pods[from];
        let count = 1 + length_alike(one, others);
        let (own, _) = rest.split_at(count);
        made.push(Stretch {
            from,
            one,
            pods: own,
        })?;
        from += count;
    }
    Ok(made)
}

// How many of the first pods are of the namespace of another.
fn length_alike(one: &Pod, pods: &[&Pod]) -> usize
    ensures within { result ≤ length pods.now }
    ensures alike { All (λ other. AreOfOneNamespace (pod_end one.now) (pod_end other.now)) (take result pods.now) }
{
    let mut count = 0;
    for other in pods {
        if !is_alike(one, other) {
            return count;
        }
        count += 1;
    }
    count
}

// Whether two pods are of one namespace, as rules see them.
fn is_alike(one: &Pod, other: &Pod) -> bool
    ensures { result ≡ true → AreOfOneNamespace (pod_end one.now) (pod_end other.now) }
{
    let labels = one.namespace_labels.labels().pairs();
    let others = other.namespace_labels.labels().pairs();
    one.namespace == other.namespace && labels == others
}
