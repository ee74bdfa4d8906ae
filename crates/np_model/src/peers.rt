//! The peers of admin rules.
ghost use Rattle.std.specs.Prelude.{◌≡◌, ◌++◌, map, IfOk, OnOk};
ghost use Rattle.std.specs.List.{flat_map};
ghost use Rattle.std.specs.Option.{option_copied};
ghost use Rattle.np_model.specs.Peers as spec;

use crate::admin_policy::{AdminPeer, AdminPolicy, AdminRule, BasePolicy};
use np_base::{NoMemory, push_references};
use std::alloc::Global;

/// The peers of all rules of the AdminNetworkPolicies and of the baseline, policy by policy, ingress before egress
/// (network-policy-api reference, AdminNetworkPolicySpec and BaselineAdminNetworkPolicySpec).
pub fn admin_peers<'a>(
    alloc: Global,
    policies: &'a [AdminPolicy],
    baseline: Option<&'a BasePolicy>,
) -> Result<Vec<&'a AdminPeer>, NoMemory>
    ensures { IfOk result (λ made. map (λ peer. peer.now) made.items
        ≡ spec.admin_peers policies.now (option_copied baseline.entry)) }
{
    let mut peers = Vec::new(alloc);
    for policy in policies {
        push_peers(&mut peers, policy.ingress.items())?;
        push_peers(&mut peers, policy.egress.items())?;
    }
    if let Some(base) = baseline {
        push_peers(&mut peers, base.ingress.items())?;
        push_peers(&mut peers, base.egress.items())?;
    }
    Ok(peers)
}

// Puts the peers of rules last.
fn push_peers<'a>(peers: &mut Vec<&'a AdminPeer>, rules: &'a [AdminRule]) -> Result<(), NoMemory>
    ensures { OnOk result (map (λ peer. peer.now) peers.new.items
        ≡ map (λ peer. peer.now) peers.old.items ++ flat_map (λ rule. rule.peers) rules.now) }
{
    for rule in rules {
        push_references(peers, rule.peers.items())?;
    }
    Ok(())
}
