//! The keys that the peers of a rule of a NetworkPolicy look at.

use crate::choices::KeyChoices;
use crate::key_set::KeySet;
use crate::side::Side;
use np_labels::Selector;
use np_model::NetPeer;

/// The keys that peers look at, among the choices.
pub(crate) fn keys_of_peers(state: &[KeyChoices<'_>], peers: &[NetPeer]) -> KeySet {
    let mut keys = KeySet::nothing();
    for peer in peers {
        keys = keys.join(keys_of_peer(state, peer));
    }
    keys
}

// The keys that a peer looks at. A pod selector alone looks at the name of the namespace, too.
fn keys_of_peer(state: &[KeyChoices<'_>], peer: &NetPeer) -> KeySet {
    match peer {
        NetPeer::Pods { namespaces, pods } => {
            let of_namespaces = match namespaces {
                Some(namespaces) => keys_of_selector(state, Side::Namespace, namespaces),
                None => KeySet::of(state, Side::Namespace, "kubernetes.io/metadata.name"),
            };
            match pods {
                Some(pods) => of_namespaces.join(keys_of_selector(state, Side::Pod, pods)),
                None => of_namespaces,
            }
        }
        NetPeer::Block { .. } => KeySet::nothing(),
    }
}

// The keys that a selector on a side looks at.
fn keys_of_selector(state: &[KeyChoices<'_>], side: Side, selector: &Selector) -> KeySet {
    let mut keys = KeySet::nothing();
    for requirement in selector.requirements.items() {
        keys = keys.join(KeySet::of(state, side, requirement.key.as_str()));
    }
    keys
}
