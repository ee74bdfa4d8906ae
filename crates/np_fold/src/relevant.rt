//! The keys of labels that rules look at.
ghost use Rattle.std.specs.Prelude.{◌≡◌, [], List, ℕ, IfOk, OnOk};
ghost use Rattle.std.specs.List.{flat_map};
ghost use Rattle.std.specs.List.Sorted.{IsStrictlySortedBy};
ghost use Rattle.std.specs.Option.{option_copied};
ghost use Rattle.std.specs.Ordering.{nat_cmp};
ghost use Rattle.std.specs.Cmp.Lexicographic.{slice_cmp};
ghost use Rattle.np_labels.specs.Prelude.{is_listed};
ghost use Rattle.np_model.specs.Prelude.{admin_peers};
ghost use Rattle.np_fold.specs.Keys as spec;

use np_base::{NoMemory, Seq, Text};
use np_labels::Selector;
use np_model::{AdminPeer, Estate, NetPeer, NetPolicy, NetRule, ServiceItem, Subject, admin_peers};
use std::alloc::Global;
use std::collections::BTreeSet;

/// The keys that a selector of some listed policy or service names, each once, in the order of their bytes. No rule
/// sees what labels say of other keys (Kubernetes API reference, LabelSelector).
pub fn relevant_keys(alloc: Global, estate: &Estate) -> Result<Seq<Text>, NoMemory>
    ensures members { IfOk result (λ made. (key : List ℕ) →
        is_listed made key ≡ is_listed (spec.keys_of_estate estate.now) key) }
    ensures ascending { IfOk result (IsStrictlySortedBy (slice_cmp nat_cmp)) }
    ensures all { IfOk result (λ made. made ≡ spec.with_keys [] (spec.keys_of_estate estate.now)) }
{
    let mut keys = BTreeSet::new(alloc);
    add_estate(alloc, &mut keys, estate)?;
    in_order(alloc, keys)
}

// The keys of a set, in order.
fn in_order(alloc: Global, keys: BTreeSet<Text>) -> Result<Seq<Text>, NoMemory>
    ensures { IfOk result (λ made. made ≡ keys.keys) }
{
    let mut made = Seq::new(alloc);
    for key in keys {
        made.push(key)?;
    }
    Ok(made)
}

// Adds the keys of all policies and services.
fn add_estate(alloc: Global, keys: &mut BTreeSet<Text>, estate: &Estate) -> Result<(), NoMemory>
    ensures { OnOk result (keys.new.keys ≡ spec.with_keys keys.old.keys (spec.keys_of_estate estate.now)) }
{
    add_net_policies(keys, estate.net_policies())?;
    add_subjects(keys, estate)?;
    add_admin_peers(alloc, keys, estate)?;
    add_services(keys, estate.services())
}

// Adds the keys of NetworkPolicies.
fn add_net_policies(keys: &mut BTreeSet<Text>, policies: &[NetPolicy]) -> Result<(), NoMemory>
    ensures { OnOk result (keys.new.keys
        ≡ spec.with_keys keys.old.keys (flat_map spec.keys_of_net_policy policies.now)) }
{
    for policy in policies {
        add_net_policy(keys, policy)?;
    }
    Ok(())
}

// Adds the keys of a NetworkPolicy.
fn add_net_policy(keys: &mut BTreeSet<Text>, policy: &NetPolicy) -> Result<(), NoMemory>
    ensures { OnOk result (keys.new.keys ≡ spec.with_keys keys.old.keys (spec.keys_of_net_policy policy.now)) }
{
    add_selector(keys, &policy.subject)?;
    add_net_direction(keys, policy.ingress.as_ref())?;
    add_net_direction(keys, policy.egress.as_ref())
}

// Adds the keys of the rules of a direction, where it has any.
fn add_net_direction(
    keys: &mut BTreeSet<Text>,
    rules: Option<&Seq<NetRule>>,
) -> Result<(), NoMemory>
    ensures { OnOk result (keys.new.keys
        ≡ spec.with_keys keys.old.keys (spec.keys_of_net_direction (option_copied rules.entry))) }
{
    match rules {
        Some(rules) => add_net_rules(keys, rules.items()),
        None => Ok(()),
    }
}

// Adds the keys of the rules of a direction.
fn add_net_rules(keys: &mut BTreeSet<Text>, rules: &[NetRule]) -> Result<(), NoMemory>
    ensures { OnOk result (keys.new.keys
        ≡ spec.with_keys keys.old.keys (flat_map spec.keys_of_net_rule rules.now)) }
{
    for rule in rules {
        add_net_peers(keys, rule.peers.items())?;
    }
    Ok(())
}

// Adds the keys of the peers of a rule.
fn add_net_peers(keys: &mut BTreeSet<Text>, peers: &[NetPeer]) -> Result<(), NoMemory>
    ensures { OnOk result (keys.new.keys
        ≡ spec.with_keys keys.old.keys (flat_map spec.keys_of_net_peer peers.now)) }
{
    for peer in peers {
        add_net_peer(keys, peer)?;
    }
    Ok(())
}

// Adds the keys of a peer.
fn add_net_peer(keys: &mut BTreeSet<Text>, peer: &NetPeer) -> Result<(), NoMemory>
    ensures { OnOk result (keys.new.keys ≡ spec.with_keys keys.old.keys (spec.keys_of_net_peer peer.now)) }
{
    match peer {
        NetPeer::Pods { namespaces, pods } => {
            add_optional(keys, namespaces.as_ref())?;
            add_optional(keys, pods.as_ref())
        }
        NetPeer::Block { .. } => Ok(()),
    }
}

// Adds the keys of the subjects of admin policies.
fn add_subjects(keys: &mut BTreeSet<Text>, estate: &Estate) -> Result<(), NoMemory>
    ensures { OnOk result (keys.new.keys
        ≡ spec.with_keys keys.old.keys (flat_map spec.keys_of_subject (spec.admin_subjects estate.now))) }
{
    for policy in estate.admin_policies() {
        add_subject(keys, &policy.subject)?;
    }
    match estate.baseline() {
        Some(base) => add_subject(keys, &base.subject),
        None => Ok(()),
    }
}

// Adds the keys of a subject.
fn add_subject(keys: &mut BTreeSet<Text>, subject: &Subject) -> Result<(), NoMemory>
    ensures { OnOk result (keys.new.keys ≡ spec.with_keys keys.old.keys (spec.keys_of_subject subject.now)) }
{
    add_selector(keys, &subject.namespaces)?;
    add_selector(keys, &subject.pods)
}

// Adds the keys of the peers of admin rules.
fn add_admin_peers(
    alloc: Global,
    keys: &mut BTreeSet<Text>,
    estate: &Estate,
) -> Result<(), NoMemory>
    ensures { OnOk result (keys.new.keys ≡ spec.with_keys keys.old.keys
        (flat_map spec.keys_of_admin_peer (admin_peers estate.now.admin_policies estate.now.baseline))) }
{
    for peer in &admin_peers(alloc, estate.admin_policies(), estate.baseline())? {
        add_admin_peer(keys, peer)?;
    }
    Ok(())
}

// Adds the keys of a peer.
fn add_admin_peer(keys: &mut BTreeSet<Text>, peer: &AdminPeer) -> Result<(), NoMemory>
    ensures { OnOk result (keys.new.keys ≡ spec.with_keys keys.old.keys (spec.keys_of_admin_peer peer.now)) }
{
    match peer {
        AdminPeer::Pods { namespaces, pods } => {
            add_selector(keys, namespaces)?;
            add_selector(keys, pods)
        }
        AdminPeer::Networks { .. } => Ok(()),
    }
}

// Adds the keys of the selectors of services.
fn add_services(keys: &mut BTreeSet<Text>, services: &[ServiceItem]) -> Result<(), NoMemory>
    ensures { OnOk result (keys.new.keys
        ≡ spec.with_keys keys.old.keys (flat_map spec.keys_of_service services.now)) }
{
    for service in services {
        add_optional(keys, service.selector.as_ref())?;
    }
    Ok(())
}

// Adds the keys of a selector, where there is one.
fn add_optional(keys: &mut BTreeSet<Text>, selector: Option<&Selector>) -> Result<(), NoMemory>
    ensures { OnOk result (keys.new.keys
        ≡ spec.with_keys keys.old.keys (spec.keys_of_optional (option_copied selector.entry))) }
{
    match selector {
        Some(selector) => add_selector(keys, selector),
        None => Ok(()),
    }
}

// Adds the keys of a selector.
fn add_selector(keys: &mut BTreeSet<Text>, selector: &Selector) -> Result<(), NoMemory>
    ensures { OnOk result (keys.new.keys ≡ spec.with_keys keys.old.keys (spec.keys_of_selector selector.now)) }
{
    for requirement in selector.requirements.items() {
        keys.insert(requirement.key.copy()?)?;
    }
    Ok(())
}
