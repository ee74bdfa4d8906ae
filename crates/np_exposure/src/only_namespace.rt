//! The one namespace of which a rule of a NetworkPolicy speaks by its name.
ghost use Rattle.std.specs.Prelude.{◌≡◌, ◌∷◌, [], List, true, Some, IfSome, codes};
ghost use Rattle.np_exposure.specs.Prelude.{AreOfNamespace};
ghost use Rattle.np_labels.specs.Prelude.{meets_requirement, meets_selector, value_of};
ghost use Rattle.np_labels.specs.declared.pair.Pair.{Pair};

use crate::choices::is_name_key;
use crate::side::Side;
use np_labels::{Op, Requirement, Selector};
use np_model::NetPeer;

/// The name of the namespace of all pods that such peers match, where one requirement says it.
pub(crate) fn only_namespace(peers: &[NetPeer]) -> Option<&str>
    ensures { IfSome result (λ name. AreOfNamespace name.now peers.now) }
{
    let [peer] = peers else {
        return None;
    };
    match peer {
        NetPeer::Pods {
            namespaces: Some(namespaces),
            ..
        } => selected_name(namespaces),
        _ => None,
    }
}

// The name under which all labels that meet a selector have their namespace, where one requirement says it.
fn selected_name(selector: &Selector) -> Option<&str>
    ensures { IfSome result (λ name. (labels : List Pair) → meets_selector selector.now labels ≡ true →
        value_of labels (codes "kubernetes.io/metadata.name") ≡ Some name.now) }
{
    for requirement in selector.requirements.items() {
        if let Some(name) = required_name(requirement) {
            return Some(name);
        }
    }
    None
}

// The name that a requirement asks for.
fn required_name(requirement: &Requirement) -> Option<&str>
    ensures { IfSome result (λ name. (labels : List Pair) → meets_requirement requirement.now labels ≡ true →
        value_of labels (codes "kubernetes.io/metadata.name") ≡ Some name.now) }
{
    if !is_name_key(Side::Namespace, requirement.key.as_str()) {
        return None;
    }
    match requirement.op {
        Op::OneOf => only_value(requirement),
        _ => None,
    }
}

// The value that a requirement lists, where it lists one.
fn only_value(requirement: &Requirement) -> Option<&str>
    ensures { IfSome result (λ only. requirement.now.values ≡ only.now ∷ []) }
{
    match requirement.values.items() {
        [only] => Some(only.as_str()),
        _ => None,
    }
}
