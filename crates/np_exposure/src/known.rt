//! What of a rule of a NetworkPolicy is known of each hypothetical pod with labels among the choices: that it is so of all
//! of them, or of none, or neither.
ghost use Rattle.std.specs.Prelude.{◌&&◌, ◌||◌, Bool};
ghost use Rattle.std.specs.List.{list_any};
ghost use Rattle.std.specs.Option.{option_copied};
ghost use Rattle.std.specs.Str.{bytes_eq};
ghost use Rattle.np_exposure.specs.Prelude.{IsRight, IsSettled, labels_at};
ghost use Rattle.np_labels.specs.Prelude.{meets_requirement, meets_selector};
ghost use Rattle.np_rules.specs.Prelude.{none_or_any, pod, stranger_end};
ghost use Rattle.np_rules.specs.model.Peers as spec;

use crate::choices::{KeyChoices, choices_at};
use crate::side::Side;
use np_labels::{Requirement, Selector};
use np_model::NetPeer;

/// Whether the peers of a rule of this namespace match such a pod. No peers at all match each.
pub(crate) fn peers_match(
    state: &[KeyChoices<'_>],
    namespace: &str,
    peers: &[NetPeer],
) -> Option<bool>
    ensures { IsSettled state.now
        (λ s. none_or_any (λ peer. spec.net_peer_matches namespace.now peer (pod (stranger_end s))) peers.now) result }
{
    if peers.is_empty() {
        return Some(true);
    }
    some_peer_matches(state, namespace, peers)
}

fn some_peer_matches(state: &[KeyChoices<'_>], namespace: &str, peers: &[NetPeer]) -> Option<bool>
    ensures { IsSettled state.now
        (λ s. list_any (λ peer. spec.net_peer_matches namespace.now peer (pod (stranger_end s))) peers.now) result }
{
    let mut answer = Some(false);
    for peer in peers {
        answer = either(answer, peer_matches(state, namespace, peer));
    }
    answer
}

// A block matches no pod.
fn peer_matches(state: &[KeyChoices<'_>], namespace: &str, peer: &NetPeer) -> Option<bool>
    ensures { IsSettled state.now (λ s. spec.net_peer_matches namespace.now peer.now (pod (stranger_end s))) result }
{
    match peer {
        NetPeer::Pods { namespaces, pods } => {
            pods_match(state, namespace, namespaces.as_ref(), pods.as_ref())
        }
        NetPeer::Block { .. } => Some(false),
    }
}

fn pods_match(
    state: &[KeyChoices<'_>],
    namespace: &str,
    namespaces: Option<&Selector>,
    pods: Option<&Selector>,
) -> Option<bool>
    ensures { IsSettled state.now
        (λ s. spec.pods_match namespace.now (option_copied namespaces.entry) (option_copied pods.entry) (stranger_end s)) result }
{
    match (namespaces, pods) {
        (None, None) => Some(false),
        (None, Some(pods)) => both(
            is_of_namespace(state, namespace),
            selector_is_met(state, Side::Pod, pods),
        ),
        (Some(namespaces), None) => selector_is_met(state, Side::Namespace, namespaces),
        (Some(namespaces), Some(pods)) => both(
            selector_is_met(state, Side::Namespace, namespaces),
            selector_is_met(state, Side::Pod, pods),
        ),
    }
}

// Whether such a pod is of this namespace.
fn is_of_namespace(state: &[KeyChoices<'_>], namespace: &str) -> Option<bool>
    ensures { IsSettled state.now (λ s. bytes_eq namespace.now (stranger_end s).namespace) result }
{
    let choices = choices_at(state, Side::Namespace, "kubernetes.io/metadata.name")?;
    choices.are(namespace)
}

// Whether the labels of a side meet a selector.
fn selector_is_met(state: &[KeyChoices<'_>], side: Side, selector: &Selector) -> Option<bool>
    ensures { IsSettled state.now (λ s. meets_selector selector.now (labels_at side s)) result }
{
    let mut answer = Some(true);
    for requirement in selector.requirements.items() {
        answer = both(answer, requirement_is_met(state, side, requirement));
    }
    answer
}

// Whether the labels of a side meet a requirement.
fn requirement_is_met(
    state: &[KeyChoices<'_>],
    side: Side,
    requirement: &Requirement,
) -> Option<bool>
    ensures { IsSettled state.now (λ s. meets_requirement requirement.now (labels_at side s)) result }
{
    let choices = choices_at(state, side, requirement.key.as_str())?;
    choices.meet(requirement)
}

// Whether both are so.
fn both(first: Option<bool>, second: Option<bool>) -> Option<bool>
    ensures { (a b : Bool) → IsRight a first → IsRight b second → IsRight (a && b) result }
{
    match (first, second) {
        (Some(false), _) | (_, Some(false)) => Some(false),
        (Some(true), Some(true)) => Some(true),
        _ => None,
    }
}

// Whether one of the two is so.
fn either(first: Option<bool>, second: Option<bool>) -> Option<bool>
    ensures { (a b : Bool) → IsRight a first → IsRight b second → IsRight (a || b) result }
{
    match (first, second) {
        (Some(true), _) | (_, Some(true)) => Some(true),
        (Some(false), Some(false)) => Some(false),
        _ => None,
    }
}
