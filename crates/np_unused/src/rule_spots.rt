//! The rules of a tier with the spots that they match.
ghost use Rattle.std.specs.Prelude.{◌≡◌, true, All, IfOk};
ghost use Rattle.std.specs.List.{list_any};
ghost use Rattle.np_unused.specs.steps.Firsts.{first_rule, first_at};

use np_base::{Cells, NoMemory};
use np_rules::RuleId;
use np_tiers::{AdminPart, BasePart};
use std::alloc::Global;

/// A rule that matches some spot, and the set of those that it matches.
#[derive(Clone, Copy)]
pub struct RuleSpots<'a, S> {
    pub rule: RuleId,
    pub set: &'a S,
}

/// A rule of a tier of a layer, whichever tier it is.
pub(crate) trait HasSet<S> {
    ghost set_of: { Self → S };

    /// The spots that it matches.
    fn set(&self) -> &S
        ensures { result.now ≡ set_of self.now };
}

impl<S> HasSet<S> for AdminPart<S> {
    ghost set_of = { λ part. part.set };

    fn set(&self) -> &S {
        &self.set
    }
}

impl<S> HasSet<S> for BasePart<S> {
    ghost set_of = { λ part. part.set };

    fn set(&self) -> &S {
        &self.set
    }
}

impl<S> HasSet<S> for S {
    ghost set_of = { λ set. set };

    fn set(&self) -> &S {
        self
    }
}

/// The rules of a tier that match some spot, in their order.
pub(crate) fn rules_with_spots<'a, S: Cells, P: HasSet<S>>(
    alloc: Global,
    parts: &'a [P],
    ids: &[RuleId],
) -> Result<Vec<RuleSpots<'a, S>>, NoMemory>
    ensures some { IfOk result (λ made.
        All (λ one. (spot : S.Spot) × (S.in_space spot ≡ true) × (S.has one.set.now spot ≡ true)) made.items) }
    ensures first { IfOk result (λ made. (spot : S.Spot) →
        first_rule (λ set. S.has set spot) made.items ≡ first_at (λ part. S.has (P.set_of part) spot) parts.now ids.now) }
{
    let mut made = Vec::new(alloc);
    for (place, part) in parts.iter().enumerate() {
        let set = part.set();
        if place < ids.len() && !set.is_empty() {
            made.push(RuleSpots {
                rule: ids[place],
                set,
            })?;
        }
    }
    Ok(made)
}

/// The spots that some rule matches, joined in halves.
pub(crate) fn all_spots<S: Cells>(alloc: Global, rules: &[RuleSpots<'_, S>]) -> Result<S, NoMemory>
    ensures { IfOk result (λ made. (spot : S.Spot) →
        S.has made spot ≡ list_any (λ rule. S.has rule.set.now spot) rules.now) }
{
    match rules {
        [] => S::nothing(alloc),
        [rule] => rule.set.copy(),
        _ => {
            let (front, back) = rules.split_at(rules.len() / 2);
            let joined = all_spots(alloc, front)?.join(&all_spots(alloc, back)?)?;
            Ok(joined)
        }
    }
}
