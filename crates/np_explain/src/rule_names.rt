//! The names of policies and of their rules.
ghost use Rattle.std.specs.Prelude.{◌≡◌, ◌<◌, length, map, All, IfOk};
ghost use Rattle.np_explain.specs.Prelude.{policy_name_at};
ghost use Rattle.np_rules.specs.Prelude.{NamesAdmin, NamesNet, PlacedAdminRule, PlacedNetRule, admin_rule_name, net_policy_name, net_rule_name};

use np_base::{NoMemory, Seq, Text};
use np_model::{AdminPolicy, NetPolicy};
use np_rules::{RuleId, RuleName};
use std::alloc::Global;

/// The name of a rule of an admin policy.
pub(crate) fn admin_rule_name(policies: &[AdminPolicy], id: RuleId) -> Result<RuleName, NoMemory>
    requires { id.policy < length policies.now }
    ensures { IfOk result (λ name. (placed : PlacedAdminRule) → NamesAdmin policies.now id placed → name ≡ admin_rule_name placed) }
{
    let policy = policies[id.policy as usize].name.copy()?;
    Ok(RuleName {
        policy,
        place: id.place,
    })
}

/// The name of a rule of a NetworkPolicy.
pub(crate) fn net_rule_name(
    alloc: Global,
    policies: &[NetPolicy],
    id: RuleId,
) -> Result<RuleName, NoMemory>
    requires { id.policy < length policies.now }
    ensures { IfOk result (λ name. (placed : PlacedNetRule) → NamesNet policies.now id placed → name ≡ net_rule_name placed) }
{
    let policy = net_policy_name(alloc, &policies[id.policy as usize])?;
    Ok(RuleName {
        policy,
        place: id.place,
    })
}

/// The names of the NetworkPolicies at some places, in that order.
pub(crate) fn net_policy_names(
    alloc: Global,
    policies: &[NetPolicy],
    places: &[u32],
) -> Result<Seq<Text>, NoMemory>
    requires { All (λ place. place < length policies.now) places.now }
    ensures { IfOk result (λ names. names ≡ map (policy_name_at policies.now) places.now) }
{
    let mut names = Vec::new(alloc);
    for place in places {
        let name = net_policy_name(alloc, &policies[*place as usize])?;
        names.push(name)?;
    }
    Ok(Seq::from_vec(names))
}

// `namespace/name`.
fn net_policy_name(alloc: Global, policy: &NetPolicy) -> Result<Text, NoMemory>
    ensures { IfOk result (λ name. name ≡ net_policy_name policy.now) }
{
    let NetPolicy {
        namespace,
        name,
        ..
    } = policy;
    Ok(Text::from_string(format!(in alloc; "{namespace}/{name}")?))
}
