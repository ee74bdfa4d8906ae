//! The rules that are the first to match some spot.
ghost use Rattle.std.specs.Prelude.{◌≡◌, ◌⊎◌, ◌&&◌, ℕ, true, Some, None, All, if◌then◌else◌, OnOk};
ghost use Rattle.std.specs.List.{list_all};
ghost use Rattle.np_unused.specs.Prelude.{Notes, first_at, first_rule, flag_at, hands_down, names};

use crate::flags::Flags;
use crate::handed_down::handed_down;
use crate::rule_spots::{HasSet, RuleSpots, all_spots, rules_with_spots};
use np_base::{Cells, NoMemory, Seq};
use np_rules::RuleId;
use np_tiers::AdminPart;
use std::alloc::Global;

/// Notes the rules of a tier that are the first to match some spot which the admin rules above it hand down. The rules
/// stand by their names and by their parts, place by place. Where all those that match some spot are known, nothing else
/// is looked at.
pub(crate) fn note_tier<S: Cells, P: HasSet<S>>(
    alloc: Global,
    above: Seq<AdminPart<S>>,
    parts: &[P],
    ids: &[RuleId],
    flags: &mut Flags,
) -> Result<(), NoMemory>
    ensures { OnOk result (Notes (λ (spot : S.Spot) policy place.
        (S.in_space spot && hands_down (λ set. S.has set spot) above)
        && names (first_at (λ part. S.has (P.set_of part) spot) parts.now ids.now) policy place) flags.old flags.new) }
{
    let rules = rules_with_spots(alloc, parts, ids)?;
    note_head(alloc, above.items(), &rules, flags)?;
    if are_known(flags, &rules) {
        return Ok(());
    }
    let left = handed_down(alloc, above)?;
    note_firsts(alloc, &rules, &left, flags)
}

// Notes the first of the rules, if no tier is above: it matches some spot, which no rule takes from it. So a rule that is alone
// on its side costs no operation on its set.
fn note_head<S: Cells>(
    alloc: Global,
    above: &[AdminPart<S>],
    rules: &[RuleSpots<'_, S>],
    flags: &mut Flags,
) -> Result<(), NoMemory>
    requires { All (λ one. (spot : S.Spot) × (S.in_space spot ≡ true) × (S.has one.set.now spot ≡ true)) rules.now }
    ensures grows { OnOk result ((policy place : ℕ) → flag_at flags.old policy place ≡ true →
        flag_at flags.new policy place ≡ true) }
    ensures only { OnOk result ((policy place : ℕ) → flag_at flags.new policy place ≡ true →
        (flag_at flags.old policy place ≡ true) ⊎ ((spot : S.Spot)
        × (((S.in_space spot && hands_down (λ set. S.has set spot) above.now)
        && names (first_rule (λ set. S.has set spot) rules.now) policy place) ≡ true))) }
{
    if !above.is_empty() || rules.is_empty() {
        return Ok(());
    }
    let head = &rules[0];
    flags.set(alloc, head.rule.policy, head.rule.place)
}

// Whether all of the rules are known to be used.
fn are_known<S>(flags: &Flags, rules: &[RuleSpots<'_, S>]) -> bool
    ensures { result ≡ list_all (λ one. flag_at flags.now one.rule.policy one.rule.place) rules.now }
{
    rules
        .iter()
        .all(|one| flags.has(one.rule.policy, one.rule.place))
}

// Notes the rules that are the first to match some spot of `left`. The front half of the list is looked at for the spots that
// it matches, and the back half for all others, each in the same way. So n rules of a few ranges each take time
// n log² n at most. A half whose rules are all known, or of which no spot is left, is not looked at.
fn note_firsts<S: Cells>(
    alloc: Global,
    rules: &[RuleSpots<'_, S>],
    left: &S,
    flags: &mut Flags,
) -> Result<(), NoMemory>
    ensures { OnOk result (Notes (λ (spot : S.Spot) policy place.
        S.has left.now spot && names (first_rule (λ set. S.has set spot) rules.now) policy place) flags.old flags.new) }
{
    if left.is_empty() || are_known(flags, rules) {
        return Ok(());
    }
    match rules {
        [] => Ok(()),
        [one] => note_one(alloc, one, left, flags),
        _ => {
            let (front, back) = rules.split_at(rules.len() / 2);
            let matched = all_spots(alloc, front)?;
            note_firsts(alloc, front, &left.meet(&matched)?, flags)?;
            note_firsts(alloc, back, &left.minus(&matched)?, flags)
        }
    }
}

// Notes a rule that matches some spot of `left`.
fn note_one<S: Cells>(
    alloc: Global,
    one: &RuleSpots<'_, S>,
    left: &S,
    flags: &mut Flags,
) -> Result<(), NoMemory>
    ensures { OnOk result (Notes (λ (spot : S.Spot) policy place.
        S.has left.now spot && names (if S.has one.now.set.now spot then Some one.now.rule else None) policy place) flags.old flags.new) }
{
    if left.meet(one.set)?.is_empty() {
        return Ok(());
    }
    flags.set(alloc, one.rule.policy, one.rule.place)
}
