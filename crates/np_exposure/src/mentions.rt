//! The requirements that the rules mention that speak of a pod.
ghost use Rattle.std.specs.Prelude.{◌≡◌, ◌++◌, ◌∷◌, [], ◌<◌, flat_map, length, IfOk, OnOk};
ghost use Rattle.std.specs.Option.{option_copied};
ghost use Rattle.np_exposure.specs.Mentions as spec;
ghost use Rattle.np_rules.specs.Prelude.{side_of};

use crate::side::Side;
use crate::sided_requirement::SidedRequirement;
use np_base::{NoMemory, Text};
use np_labels::{Requirement, Selector};
use np_model::{AdminPeer, AdminRule, Direction, Estate, NetPeer, NetRule};
use np_rules::PodRules;
use std::alloc::Global;

/// The requirements that the peers mention of the rules that speak of a pod in a direction, in the order in which these
/// are written: those of the AdminNetworkPolicies by priority, of the NetworkPolicies by name, and of the baseline. One
/// that is mentioned twice stands twice.
pub(crate) fn mentions(
    alloc: Global,
    estate: &Estate,
    pod: u32,
    direction: Direction,
) -> Result<Vec<SidedRequirement>, NoMemory>
    requires { pod < length estate.now.pods }
    ensures { IfOk result (λ made. made.items ≡ spec.mentions (side_of estate.now pod direction)) }
{
    let rules = PodRules::of(alloc, estate, pod, direction)?.rules(alloc)?;
    let near = &estate.pods()[pod as usize];
    let mut made = Vec::new(alloc);
    add_admin_rules(&mut made, &rules.admin)?;
    add_net_rules(&mut made, near.namespace.as_str(), &rules.net)?;
    add_base_rules(&mut made, rules.base)?;
    Ok(made)
}

// Adds what the rules of AdminNetworkPolicies mention.
fn add_admin_rules(made: &mut Vec<SidedRequirement>, rules: &[&AdminRule]) -> Result<(), NoMemory>
    ensures { OnOk result (made.new.items ≡ made.old.items ++ flat_map (λ rule. spec.of_admin_rule rule.now) rules.now) }
{
    for rule in rules {
        add_admin_peers(made, rule.peers.items())?;
    }
    Ok(())
}

// Adds what the rules of the baseline mention.
fn add_base_rules(made: &mut Vec<SidedRequirement>, rules: &[AdminRule]) -> Result<(), NoMemory>
    ensures { OnOk result (made.new.items ≡ made.old.items ++ flat_map spec.of_admin_rule rules.now) }
{
    for rule in rules {
        add_admin_peers(made, rule.peers.items())?;
    }
    Ok(())
}

// Adds what the peers of an admin rule mention.
fn add_admin_peers(made: &mut Vec<SidedRequirement>, peers: &[AdminPeer]) -> Result<(), NoMemory>
    ensures { OnOk result (made.new.items ≡ made.old.items ++ flat_map spec.of_admin_peer peers.now) }
{
    for peer in peers {
        add_admin_peer(made, peer)?;
    }
    Ok(())
}

// Adds what a peer of an admin rule mentions.
fn add_admin_peer(made: &mut Vec<SidedRequirement>, peer: &AdminPeer) -> Result<(), NoMemory>
    ensures { OnOk result (made.new.items ≡ made.old.items ++ spec.of_admin_peer peer.now) }
{
    match peer {
        AdminPeer::Pods { namespaces, pods } => {
            add_selector(made, Side::Namespace, namespaces)?;
            add_selector(made, Side::Pod, pods)
        }
        AdminPeer::Networks { .. } => Ok(()),
    }
}

// Adds what the rules of NetworkPolicies of this namespace mention.
fn add_net_rules(
    made: &mut Vec<SidedRequirement>,
    namespace: &str,
    rules: &[&NetRule],
) -> Result<(), NoMemory>
    ensures { OnOk result (made.new.items ≡ made.old.items
        ++ flat_map (λ rule. spec.of_net_rule namespace.now rule.now) rules.now) }
{
    for rule in rules {
        add_net_peers(made, namespace, rule.peers.items())?;
    }
    Ok(())
}

// Adds what the peers of a rule of a NetworkPolicy of this namespace mention.
fn add_net_peers(
    made: &mut Vec<SidedRequirement>,
    namespace: &str,
    peers: &[NetPeer],
) -> Result<(), NoMemory>
    ensures { OnOk result (made.new.items ≡ made.old.items ++ flat_map (spec.of_net_peer namespace.now) peers.now) }
{
    for peer in peers {
        add_net_peer(made, namespace, peer)?;
    }
    Ok(())
}

// Adds what a peer of a NetworkPolicy of this namespace mentions.
fn add_net_peer(
    made: &mut Vec<SidedRequirement>,
    namespace: &str,
    peer: &NetPeer,
) -> Result<(), NoMemory>
    ensures { OnOk result (made.new.items ≡ made.old.items ++ spec.of_net_peer namespace.now peer.now) }
{
    match peer {
        NetPeer::Pods { namespaces, pods } => {
            add_namespaces(made, namespace, namespaces.as_ref(), pods.is_some())?;
            add_optional(made, Side::Pod, pods.as_ref())
        }
        NetPeer::Block { .. } => Ok(()),
    }
}

// Adds what a peer mentions on the side of the namespace. A pod selector alone stands for pods of the policy's namespace.
fn add_namespaces(
    made: &mut Vec<SidedRequirement>,
    namespace: &str,
    namespaces: Option<&Selector>,
    has_pods: bool,
) -> Result<(), NoMemory>
    ensures { OnOk result (made.new.items ≡ made.old.items
        ++ spec.of_namespaces namespace.now (option_copied namespaces.entry) has_pods) }
{
    match namespaces {
        Some(namespaces) => add_selector(made, Side::Namespace, namespaces),
        None if has_pods => add_named(made, namespace),
        None => Ok(()),
    }
}

// Adds that the namespace is the one of this name.
fn add_named(made: &mut Vec<SidedRequirement>, namespace: &str) -> Result<(), NoMemory>
    ensures { OnOk result (made.new.items ≡ made.old.items ++ spec.namespace_is namespace.now ∷ []) }
{
    let alloc = *made.allocator();
    let key = Text::of(alloc, "kubernetes.io/metadata.name")?;
    let requirement = Requirement::of_label(alloc, key, Text::of(alloc, namespace)?)?;
    made.push(SidedRequirement {
        side: Side::Namespace,
        requirement,
    })?;
    Ok(())
}

// Adds the requirements of a selector, where there is one.
fn add_optional(
    made: &mut Vec<SidedRequirement>,
    side: Side,
    selector: Option<&Selector>,
) -> Result<(), NoMemory>
    ensures { OnOk result (made.new.items ≡ made.old.items ++ spec.of_optional side (option_copied selector.entry)) }
{
    match selector {
        Some(selector) => add_selector(made, side, selector),
        None => Ok(()),
    }
}

// Adds the requirements of a selector.
fn add_selector(
    made: &mut Vec<SidedRequirement>,
    side: Side,
    selector: &Selector,
) -> Result<(), NoMemory>
    ensures { OnOk result (made.new.items ≡ made.old.items ++ spec.of_selector side selector.now) }
{
    for requirement in selector.requirements.items() {
        let requirement = requirement.copy()?;
        made.push(SidedRequirement { side, requirement })?;
    }
    Ok(())
}
