//! All rules of an estate.
ghost use Rattle.std.specs.Prelude.{◌≡◌, ◌+◌, ◌≤◌, ◌++◌, IfOk, OnOk, length, unwrap_or, []};
ghost use Rattle.std.specs.List.{flat_map, range_with_len};
ghost use Rattle.np_model.specs.Prelude.{IsFew};
ghost use Rattle.np_unused.specs.Rules as spec;
ghost use Rattle.np_rules.specs.Prelude.{admin_rules_of, base_rules_of, net_rules_of};

use crate::rule_ref::{RuleRef, Tier};
use np_base::{NoMemory, Seq};
use np_model::{AdminPolicy, BasePolicy, Direction, Estate, NetPolicy};
use std::alloc::Global;

/// All rules of an estate: those of the admin policies, of the NetworkPolicies and of the baseline, policy by policy, in
/// each policy ingress before egress, and then by place.
pub(crate) fn all_rules(alloc: Global, estate: &Estate) -> Result<Seq<RuleRef>, NoMemory>
    requires { IsFew estate.now }
    ensures { IfOk result (λ rules. rules ≡ spec.all_rules estate.now) }
{
    let mut rules = Seq::new(alloc);
    let admin_count = estate.admin_policies().len() as u32;
    let net_count = estate.net_policies().len() as u32;
    push_tier(&mut rules, estate, Tier::Admin, admin_count)?;
    push_tier(&mut rules, estate, Tier::Net, net_count)?;
    push_tier(&mut rules, estate, Tier::Base, 1)?;
    Ok(rules)
}

// Puts the rules of the first policies of a tier last.
fn push_tier(
    rules: &mut Seq<RuleRef>,
    estate: &Estate,
    tier: Tier,
    count: u32,
) -> Result<(), NoMemory>
    ensures { OnOk result (rules.new
        ≡ rules.old ++ flat_map (spec.rules_of_policy estate.now tier) (range_with_len 0 count)) }
{
    for policy in 0..count {
        push_rules(rules, estate, tier, policy, Direction::Ingress)?;
        push_rules(rules, estate, tier, policy, Direction::Egress)?;
    }
    Ok(())
}

// Puts the rules of a policy in a direction last.
fn push_rules(
    rules: &mut Seq<RuleRef>,
    estate: &Estate,
    tier: Tier,
    policy: u32,
    direction: Direction,
) -> Result<(), NoMemory>
    ensures { OnOk result (rules.new
        ≡ rules.old ++ spec.rules_from tier policy direction (spec.rule_count_at estate.now tier direction policy)) }
{
    for place in 0..rule_count_at(estate, tier, direction, policy) {
        rules.push(RuleRef {
            tier,
            policy,
            direction,
            place,
        })?;
    }
    Ok(())
}

// How many rules the policy at a place has in a direction. There is none where there is no policy.
fn rule_count_at(estate: &Estate, tier: Tier, direction: Direction, policy: u32) -> u64
    ensures { result ≡ spec.rule_count_at estate.now tier direction policy }
{
    match tier {
        Tier::Admin => match estate.admin_policies().get(policy as usize) {
            Some(policy) => admin_count(policy, direction),
            None => 0,
        },
        Tier::Net => match estate.net_policies().get(policy as usize) {
            Some(policy) => net_count(policy, direction),
            None => 0,
        },
        Tier::Base => match estate.baseline() {
            Some(baseline) if policy == 0 => base_count(baseline, direction),
            _ => 0,
        },
    }
}

fn admin_count(policy: &AdminPolicy, direction: Direction) -> u64
    ensures { result ≡ length (admin_rules_of direction policy.now) }
{
    match direction {
        Direction::Ingress => policy.ingress.items().len() as u64,
        Direction::Egress => policy.egress.items().len() as u64,
    }
}

// Rules of a direction that is not among the policy's types are no rules.
fn net_count(policy: &NetPolicy, direction: Direction) -> u64
    ensures { result ≡ length (unwrap_or (net_rules_of direction policy.now) []) }
{
    let rules = match direction {
        Direction::Ingress => &policy.ingress,
        Direction::Egress => &policy.egress,
    };
    match rules {
        Some(rules) => rules.items().len() as u64,
        None => 0,
    }
}

fn base_count(policy: &BasePolicy, direction: Direction) -> u64
    ensures { result ≡ length (base_rules_of direction policy.now) }
{
    match direction {
        Direction::Ingress => policy.ingress.items().len() as u64,
        Direction::Egress => policy.egress.items().len() as u64,
    }
}
