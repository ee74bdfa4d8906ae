//! The policies that speak of a pod.
ghost use Rattle.std.specs.Prelude.{◌≡◌, ◌+◌, length, map, flat_map, AllPairs, IfOk};
ghost use Rattle.np_model.specs.Prelude.{PolicyStandsBefore};
ghost use Rattle.np_rules.specs.PolicyRules.{AreIsolating, AreSelecting};
ghost use Rattle.np_rules.specs.Views.{pod_view};

use crate::admin_tier::admin_rules_of;
use crate::net_tier::isolating_rules;
use crate::own_policies::own_policies;
use crate::selection::subject_selects;
use crate::views::PodView;
use np_base::{NoMemory, Steps, push_references};
use np_model::{AdminPolicy, AdminRule, Direction, NetPolicy, NetRule};
use std::alloc::Global;
use std::sync::ledger::Ledger;

/// A policy that speaks of a pod in a direction: its place in the estate's list, from 0, and its rules of the direction.
#[derive(Drop)]
pub(crate) struct PolicyRules<'a, R> {
    pub place: usize,
    pub rules: &'a [R],
}

/// The AdminNetworkPolicies that select a pod, in order.
pub(crate) fn selecting_policies<'a>(
    alloc: Global,
    policies: &'a [AdminPolicy],
    direction: Direction,
    pod: &PodView<'_>,
) -> Result<Vec<PolicyRules<'a, AdminRule>>, NoMemory>
    ensures { IfOk result (λ made. AreSelecting policies.now direction (pod_view pod.now) made.items) }
{
    let mut selecting = Vec::new(alloc);
    for (place, policy) in policies.iter().enumerate() {
        if subject_selects(&policy.subject, pod) {
            let rules = admin_rules_of(policy, direction);
            selecting.push(PolicyRules { place, rules })?;
        }
    }
    Ok(selecting)
}

/// The NetworkPolicies that isolate a pod, in order. Those of the pod's namespace alone are looked at.
pub(crate) fn isolating_policies<'a>(
    alloc: Global,
    policies: &'a [NetPolicy],
    direction: Direction,
    pod: &PodView<'_>,
) -> Result<Vec<PolicyRules<'a, NetRule>>, NoMemory>
    requires { AllPairs PolicyStandsBefore policies.now }
    ensures { IfOk result (λ made. AreIsolating policies.now direction (pod_view pod.now) made.items) }
{
    let own = own_policies(policies, pod.namespace);
    let mut isolating = Vec::new(alloc);
    for (among, policy) in own.policies.iter().enumerate() {
        if let Some(rules) = isolating_rules(policy, direction, pod) {
            let place = own.first + among;
            isolating.push(PolicyRules { place, rules })?;
        }
    }
    Ok(isolating)
}

/// The rules of policies, policy by policy.
pub(crate) fn rules_of<'a, R>(
    alloc: Global,
    policies: &[PolicyRules<'a, R>],
) -> Result<Vec<&'a R>, NoMemory>
    ensures { IfOk result (λ made. map (λ rule. rule.now) made.items ≡ flat_map (λ policy. policy.rules.now) policies.now) }
{
    let mut rules = Vec::new(alloc);
    for policy in policies {
        push_references(&mut rules, policy.rules)?;
    }
    Ok(rules)
}

/// Counts the rules of policies.
pub(crate) fn count_rules<R, L: Ledger>(policies: &[PolicyRules<'_, R>], steps: &mut Steps<L>)
    ensures { steps.new ≡ steps.old + length (flat_map (λ policy. policy.rules.now) policies.now) }
{
    for policy in policies {
        steps.add(policy.rules.len() as u64);
    }
}
