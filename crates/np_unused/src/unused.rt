//! The rules that decide nothing.
ghost use Rattle.std.specs.Prelude.{◌≡◌, filter, not, IfOk};
ghost use Rattle.np_unused.specs.Prelude.{is_known_by, unused_of};

use crate::all_rules::all_rules;
use crate::rule_ref::RuleRef;
use crate::search::used_rules;
use crate::used_rules::UsedRules;
use np_base::{NoMemory, Seq};
use np_fold::Folded;
use np_kinds::KindReach;
use np_model::Direction;
use std::alloc::Global;

/// The rules of an estate that decide nothing: none of them stands in what decides, at its side, a packet between two pods
/// of the estate, or between a pod and an address, also not as the rule with `Pass` that was met. The two ends are not one
/// pod; between pods a packet is of a family of the estate. Rules of a direction that is not among a NetworkPolicy's types
/// are no rules, and are not listed. First stand those of the admin policies by priority, then those of the NetworkPolicies
/// by namespace and name, then those of the baseline; in each policy ingress before egress, and then by place. Want of
/// memory is the one refusal.
pub fn unused_rules(alloc: Global, folded: &Folded) -> Result<Seq<RuleRef>, NoMemory>
    ensures { IfOk result (λ rules. rules ≡ unused_of folded.now) }
{
    let reach = KindReach::of(alloc, folded)?;
    let ingress = used_rules(alloc, folded, &reach.received, Direction::Ingress)?;
    let egress = used_rules(alloc, folded, &reach.sent, Direction::Egress)?;
    let rules = all_rules(alloc, folded.estate())?;
    let unused = keep_unknown(alloc, rules.items(), &ingress, &egress)?;
    Ok(unused)
}

// The rules that are not known to be used.
fn keep_unknown(
    alloc: Global,
    rules: &[RuleRef],
    ingress: &UsedRules,
    egress: &UsedRules,
) -> Result<Seq<RuleRef>, NoMemory>
    ensures { IfOk result (λ kept. kept ≡ filter (λ rule. not (is_known_by ingress.now egress.now rule)) rules.now) }
{
    let mut kept = Seq::new(alloc);
    for rule in rules {
        if !is_known(rule, ingress, egress) {
            kept.push(*rule)?;
        }
    }
    Ok(kept)
}

// Whether a rule is known to be used, by what is known of each direction.
fn is_known(rule: &RuleRef, ingress: &UsedRules, egress: &UsedRules) -> bool
    ensures { result ≡ is_known_by ingress.now egress.now rule.now }
{
    let RuleRef {
        tier,
        policy,
        direction,
        place,
    } = *rule;
    match direction {
        Direction::Ingress => ingress.has(tier, policy, place),
        Direction::Egress => egress.has(tier, policy, place),
    }
}
