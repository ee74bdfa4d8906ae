//! A rule of a NetworkPolicy, as the walk asks it.
ghost use Rattle.std.specs.Prelude.{◌≡◌, IfOk};
ghost use Rattle.np_exposure.specs.steps.Settled.{IsSettled};
ghost use Rattle.np_rules.specs.Prelude.{kept_reaches, pod, stranger_end};

use crate::choices::KeyChoices;
use crate::key_set::KeySet;
use crate::known::peers_match;
use crate::only_namespace::only_namespace;
use crate::peer_keys::keys_of_peers;
use np_base::NoMemory;
use np_conns::ConnSet;
use np_rules::{RuleConns, Stranger};
use std::alloc::Global;
use std::marker::Model;

/// A rule of a NetworkPolicy, with what saves to look at its peers. These are read from many places of memory, which takes
/// longer than all else.
#[derive(Drop)]
pub(crate) struct AskedRule<'r> {
    kept: &'r RuleConns<'r>,
    // The keys that its peers look at.
    keys: KeySet,
    // The name of the namespace of all pods that its peers match, where that is known.
    namespace: Option<&'r str>,
}

impl<'r> Model for AskedRule<'r> {
    ghost use Rattle.std.specs.Prelude.{IfSome};
    ghost use Rattle.np_exposure.specs.steps.OnlyNamespace.{AreOfNamespace};
    ghost use Rattle.np_rules.specs.declared.stranger_rules.RuleConns.{RuleConns};

    ghost Value = { RuleConns };

    ghost view = { λ r. r.kept.now };

    ghost invariant = { λ r. IfSome r.namespace (λ name. AreOfNamespace name.now r.kept.now.rule.now.peers) };
}

impl<'r> AskedRule<'r> {
    /// A rule, before anything is asked, with all choices.
    fn of(state: &[KeyChoices<'_>], kept: &'r RuleConns<'r>) -> AskedRule<'r>
        ensures { result ≡ kept.now }
    {
        let peers = kept.rule.peers.items();
        AskedRule {
            kept,
            keys: keys_of_peers(state, peers),
            namespace: only_namespace(peers),
        }
    }

    /// What its port entries match.
    pub(crate) fn conns(&self) -> &ConnSet
        ensures { result.now ≡ self.now.conns }
    {
        &self.kept.conns
    }

    /// Whether its peers, in a policy of this namespace, match each hypothetical pod with labels among the choices, or none,
    /// where that may have come to be known since there were more choices at some keys. Where they look at no key, it is known.
    pub(crate) fn matches(
        &self,
        state: &[KeyChoices<'_>],
        namespace: &str,
        narrowed: KeySet,
    ) -> Option<bool>
        ensures { IsSettled state.now (λ s. kept_reaches namespace.now (pod (stranger_end s)) self.now) result }
    {
        if self.keys.meets(narrowed) || self.keys.is_empty() {
            peers_match(state, namespace, self.kept.rule.peers.items())
        } else {
            None
        }
    }

    /// Whether its peers, in a policy of this namespace, match a stranger, whose own namespace is named `own`.
    pub(crate) fn reaches(&self, namespace: &str, own: &str, stranger: &Stranger) -> bool
        requires { own.now ≡ (stranger_end stranger.now).namespace }
        ensures { result ≡ kept_reaches namespace.now (pod (stranger_end stranger.now)) self.now }
    {
        match self.namespace {
            Some(name) if name != own => false,
            _ => self.kept.reaches(namespace, stranger),
        }
    }
}

/// The rules, before anything is asked, with all choices.
pub(crate) fn asked_rules<'r>(
    alloc: Global,
    state: &[KeyChoices<'_>],
    rules: &'r [RuleConns<'r>],
) -> Result<Vec<AskedRule<'r>>, NoMemory>
    ensures { IfOk result (λ made. made.items ≡ rules.now) }
{
    let mut made = Vec::with_capacity(alloc, rules.len())?;
    for rule in rules {
        made.push(AskedRule::of(state, rule))?;
    }
    Ok(made)
}
