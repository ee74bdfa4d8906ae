//! The rules behind the places of a layer.
ghost use Rattle.std.specs.Prelude.{◌≡◌, ◌<◌, ◌^◌, ◌++◌, map, All, IfOk, OnOk};
ghost use Rattle.np_rules.specs.LayerRules.{ids_from};
ghost use Rattle.np_rules.specs.PolicyRules.{ids_of};

use crate::policy_rules::PolicyRules;
use np_base::{NoMemory, Seq};
use std::alloc::Global;

/// A rule, by the place of its policy in the estate's list and its own place among the policy's rules of the direction,
/// both from 0. The baseline, of which there is one at most, has the place 0.
#[derive(Clone, Copy, PartialEq, Eq)]
pub struct RuleId {
    pub policy: u32,
    pub place: u64,
}

/// The rules that speak of a pod in a direction, place by place those of its layers, and the NetworkPolicies that
/// isolate it, by their places in the estate's list.
#[derive(Drop)]
pub struct LayerRules {
    pub admin: Seq<RuleId>,
    pub net: Seq<RuleId>,
    pub isolating: Seq<u32>,
    pub base: Seq<RuleId>,
}

/// The names of the rules of policies, policy by policy.
pub(crate) fn rule_ids<R>(
    alloc: Global,
    policies: &[PolicyRules<'_, R>],
) -> Result<Seq<RuleId>, NoMemory>
    requires { All (λ policy. policy.place < 2 ^ 32) policies.now }
    ensures { IfOk result (λ ids. ids ≡ ids_of policies.now) }
{
    let mut ids = Vec::new(alloc);
    for policy in policies {
        push_ids(&mut ids, policy.place as u32, policy.rules.len())?;
    }
    Ok(Seq::from_vec(ids))
}

// Puts the names of all rules of a policy last, of which there are so many.
fn push_ids(ids: &mut Vec<RuleId>, policy: u32, count: usize) -> Result<(), NoMemory>
    ensures { OnOk result (ids.new.items ≡ ids.old.items ++ ids_from policy 0 count) }
{
    for place in 0..count {
        ids.push(RuleId {
            policy,
            place: place as u64,
        })?;
    }
    Ok(())
}

/// The places of policies.
pub(crate) fn places_of<R>(
    alloc: Global,
    policies: &[PolicyRules<'_, R>],
) -> Result<Seq<u32>, NoMemory>
    requires { All (λ policy. policy.place < 2 ^ 32) policies.now }
    ensures { IfOk result (λ places. places ≡ map (λ policy. policy.place) policies.now) }
{
    let mut places = Vec::new(alloc);
    for policy in policies {
        places.push(policy.place as u32)?;
    }
    Ok(Seq::from_vec(places))
}
