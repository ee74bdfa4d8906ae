//! The set of the spots that a layer allows.
ghost use Rattle.std.specs.Prelude.{◌≡◌, true, if◌then◌else◌, IfOk};
ghost use Rattle.np_tiers.specs.Prelude.{first_action, first_allows, lower_allows, walk_allows};
ghost use Rattle.np_model.specs.Prelude.{action_says};

use crate::layer::Layer;
use crate::run::run_of;
use crate::tier_rule::TierRule;
use np_base::{Cells, NoMemory, join_all};
use np_model::Action;
use std::alloc::Global;

// How many parts at most are looked at one after the other. Each costs an operation on all that is allowed so far,
// which for so few takes less time than putting their runs together.
const FEW_PARTS: usize = 64;

/// The spots of the space that the layer allows. The first admin part whose set has a spot decides it: `Allow`
/// allows and `Deny` refuses. With `Pass`, or without such a part, an isolated layer allows what some `net` set has.
/// In a layer that is not isolated the first base part whose set has the spot says, and without one the spot is
/// allowed. Want of memory is the one refusal.
///
/// A tier with no part costs no set operation, and one with up to 64 parts one for each of them, or three for `Pass`.
/// The parts of a longer tier, and the `net` sets, are put together in halves, so that n parts of a few ranges each
/// take time n log n.
pub fn verdict_set<S: Cells>(alloc: Global, layer: &Layer<S>) -> Result<S, NoMemory>
    ensures members { IfOk result (λ made. (spot : S.Spot) → S.in_space spot ≡ true →
        S.has made spot ≡ walk_allows (λ set. S.has set spot) layer.now) }
    ensures well { IfOk result S.IsWell }
{
    let lower = lower_set(alloc, layer)?;
    let allowed = tier_set(alloc, layer.admin.items(), lower)?;
    Ok(allowed)
}

// What the tiers below the admin tier allow.
fn lower_set<S: Cells>(alloc: Global, layer: &Layer<S>) -> Result<S, NoMemory>
    ensures members { IfOk result (λ made. (spot : S.Spot) → S.in_space spot ≡ true →
        S.has made spot ≡ lower_allows (λ set. S.has set spot) layer.now) }
    ensures well { IfOk result S.IsWell }
{
    if layer.isolated {
        return join_all(alloc, layer.net.items());
    }
    let space = S::everything(alloc)?;
    tier_set(alloc, layer.base.items(), space)
}

// What a tier of these parts allows over lower tiers that allow `lower`.
fn tier_set<S: Cells, P: TierRule<S>>(alloc: Global, parts: &[P], lower: S) -> Result<S, NoMemory>
    requires { S.IsWell lower }
    ensures members { IfOk result (λ made. (spot : S.Spot) →
        S.has made spot ≡ first_allows
        (first_action P.set_of P.action_of (λ set. S.has set spot) parts.now) (S.has lower spot)) }
    ensures well { IfOk result S.IsWell }
{
    if parts.is_empty() {
        return Ok(lower);
    }
    if parts.len() <= FEW_PARTS {
        return few_parts_set(parts, &lower);
    }
    let run = run_of(alloc, parts)?;
    let allowed = run.over(&lower)?;
    Ok(allowed)
}

// The same, one part after the other from the last one on.
fn few_parts_set<S: Cells, P: TierRule<S>>(parts: &[P], lower: &S) -> Result<S, NoMemory>
    ensures members { IfOk result (λ made. (spot : S.Spot) →
        S.has made spot ≡ first_allows
        (first_action P.set_of P.action_of (λ set. S.has set spot) parts.now) (S.has lower.now spot)) }
    ensures well { IfOk result S.IsWell }
{
    match parts {
        [] => lower.copy(),
        [last] => before(last, lower, lower),
        [part, rest @ ..] => {
            let after = few_parts_set(rest, lower)?;
            let allowed = before(part, &after, lower)?;
            Ok(allowed)
        }
    }
}

// What a part and those after it allow, where those after it allow `after` and the tiers below `lower`.
fn before<S: Cells, P: TierRule<S>>(part: &P, after: &S, lower: &S) -> Result<S, NoMemory>
    ensures members { IfOk result (λ made. (spot : S.Spot) →
        S.has made spot ≡ (if S.has (P.set_of part.now) spot
        then action_says (P.action_of part.now) (S.has lower.now spot) else S.has after.now spot)) }
    ensures well { IfOk result S.IsWell }
{
    let set = part.set();
    match part.action() {
        Action::Allow => after.join(set),
        Action::Deny => after.minus(set),
        Action::Pass => after.minus(set)?.join(&lower.meet(set)?),
    }
}
