//! How many patterns of labels the mentioned requirements may tell apart.
ghost use Rattle.std.specs.Prelude.{◌≡◌, ◌+◌, ◌*◌, ◌-◌, ◌^◌, ◌<◌, length, min, IfOk};
ghost use Rattle.np_exposure.specs.Prelude.{mentions};
ghost use Rattle.np_exposure.specs.Weight as spec;
ghost use Rattle.np_rules.specs.Prelude.{side_of};

use crate::labels::{keys_on, values_at};
use crate::mentions::mentions;
use crate::side::Side;
use crate::sided_requirement::SidedRequirement;
use np_base::NoMemory;
use np_model::{Direction, Estate};
use std::alloc::Global;

/// How many patterns of labels the requirements may tell apart that the rules mention that speak of a pod in a direction:
/// the product, over the mentioned keys of both sides, of the number of distinct values mentioned with the key plus two,
/// one for all other values and one for its absence. `u64::MAX` where that is more. The pod is named by its place in the
/// estate.
pub fn weight(
    alloc: Global,
    estate: &Estate,
    pod: u32,
    direction: Direction,
) -> Result<u64, NoMemory>
    requires { pod < length estate.now.pods }
    ensures { IfOk result (λ made. made ≡ min (spec.weight (mentions (side_of estate.now pod direction))) (2 ^ 64 - 1)) }
{
    weight_of(alloc, &mentions(alloc, estate, pod, direction)?)
}

/// How many patterns these requirements may tell apart.
pub(crate) fn weight_of(alloc: Global, mentions: &[SidedRequirement]) -> Result<u64, NoMemory>
    ensures { IfOk result (λ made. made ≡ min (spec.weight mentions.now) (2 ^ 64 - 1)) }
{
    let namespaces = patterns_on(alloc, mentions, Side::Namespace)?;
    let pods = patterns_on(alloc, mentions, Side::Pod)?;
    Ok(namespaces.saturating_mul(pods))
}

// How many patterns of labels of one side. Each key makes them twice as many at least, so that at most 64 keys are looked
// at.
#[tactic(auto, unfolding(crate::specs::Weight::patterns_on))]
fn patterns_on(alloc: Global, mentions: &[SidedRequirement], side: Side) -> Result<u64, NoMemory>
    ensures { IfOk result (λ made. made ≡ min (spec.patterns_on side mentions.now) (2 ^ 64 - 1)) }
{
    let keys = keys_on(alloc, mentions, side)?;
    let mut patterns = 1u64;
    for key in keys.items() {
        patterns = patterns.saturating_mul(patterns_at(alloc, mentions, side, key.as_str())?);
        if patterns == u64::MAX {
            return Ok(u64::MAX);
        }
    }
    Ok(patterns)
}

// The values of a key, one for all others, and one for its absence.
fn patterns_at(
    alloc: Global,
    mentions: &[SidedRequirement],
    side: Side,
    key: &str,
) -> Result<u64, NoMemory>
    ensures { IfOk result (λ made. made ≡ min (spec.patterns_at side mentions.now key.now) (2 ^ 64 - 1)) }
{
    let values = values_at(alloc, mentions, side, key)?;
    Ok((values.items().len() as u64).saturating_add(2))
}
