//! What the rules of NetworkPolicies match together, as sets.
ghost use Rattle.std.specs.Prelude.{◌≡◌, true, IfOk};
ghost use Rattle.std.specs.List.{list_any};
ghost use Rattle.np_rules.specs.Prelude.{net_rule_matches};

use crate::far_ends::FarEnds;
use np_base::{Cells, NoMemory, Seq};
use np_model::NetRule;
use std::alloc::Global;

/// Sets that together have what the rules of NetworkPolicies of this namespace match. There is one: the sets of the rules are
/// joined as soon as they are made, so that no more than the logarithm of their number is held at once.
pub(crate) fn net_union<S: Cells, F: FarEnds<S>>(
    alloc: Global,
    namespace: &str,
    rules: &[&NetRule],
    far: &F,
) -> Result<Seq<S>, NoMemory>
    ensures { IfOk result (λ sets. (spot : S.Spot) → S.in_space spot ≡ true →
        list_any (λ set. S.has set spot) sets
        ≡ list_any (λ rule. net_rule_matches namespace.now rule.now (F.contact_at far.now spot)) rules.now) }
{
    let joined = joined_rules(alloc, namespace, rules, far)?;
    let mut sets = Seq::new(alloc);
    sets.push(joined)?;
    Ok(sets)
}

// The same as one set. The sets of both halves of the rules are joined.
fn joined_rules<S: Cells, F: FarEnds<S>>(
    alloc: Global,
    namespace: &str,
    rules: &[&NetRule],
    far: &F,
) -> Result<S, NoMemory>
    ensures { IfOk result (λ made. (spot : S.Spot) → S.in_space spot ≡ true →
        S.has made spot
        ≡ list_any (λ rule. net_rule_matches namespace.now rule.now (F.contact_at far.now spot)) rules.now) }
{
    match rules {
        [] => S::nothing(alloc),
        [rule] => far.net_set(alloc, namespace, rule),
        _ => {
            let (front, back) = rules.split_at(rules.len() / 2);
            let first = joined_rules(alloc, namespace, front, far)?;
            let second = joined_rules(alloc, namespace, back, far)?;
            first.join(&second)
        }
    }
}
