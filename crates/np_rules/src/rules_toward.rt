//! The rules whose peers match an end.
ghost use Rattle.std.specs.Prelude.{◌≡◌, IfOk, filter, map};
ghost use Rattle.np_rules.specs.RulesToward.{admin_rule_reaches, net_rule_reaches};
ghost use Rattle.np_rules.specs.Views.{end_view};

use crate::peers::{admin_peers_match, net_peers_match};
use crate::views::EndView;
use np_addr::Family;
use np_base::NoMemory;
use np_model::{AdminRule, NetRule};
use std::alloc::Global;

/// Those of the admin rules of which some peer matches the end in packets of a family, in order.
pub(crate) fn admin_rules_toward<'a>(
    alloc: Global,
    rules: &[&'a AdminRule],
    far: &EndView<'_>,
    family: Family,
) -> Result<Vec<&'a AdminRule>, NoMemory>
    ensures { IfOk result (λ made. map (λ rule. rule.now) made.items
        ≡ filter (admin_rule_reaches (end_view far.now) family) (map (λ rule. rule.now) rules.now)) }
{
    let mut made = Vec::new(alloc);
    for rule in rules {
        if admin_peers_match(rule.peers.items(), far, family) {
            made.push(*rule)?;
        }
    }
    Ok(made)
}

/// Those of the rules of NetworkPolicies of this namespace of which some peer matches the end, or which have none, in order.
pub(crate) fn net_rules_toward<'a>(
    alloc: Global,
    namespace: &str,
    rules: &[&'a NetRule],
    far: &EndView<'_>,
) -> Result<Vec<&'a NetRule>, NoMemory>
    ensures { IfOk result (λ made. map (λ rule. rule.now) made.items
        ≡ filter (net_rule_reaches namespace.now (end_view far.now)) (map (λ rule. rule.now) rules.now)) }
{
    let mut made = Vec::new(alloc);
    for rule in rules {
        if net_peers_match(namespace, rule.peers.items(), far) {
            made.push(*rule)?;
        }
    }
    Ok(made)
}
