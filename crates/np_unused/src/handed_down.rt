//! What admin rules hand down.
ghost use Rattle.std.specs.Prelude.{◌≡◌, true, IfOk};
ghost use Rattle.np_unused.specs.Prelude.{hands_down};

use np_base::{Cells, NoMemory, Seq};
use np_tiers::{AdminPart, Layer, verdict_set};
use std::alloc::Global;

/// The spots that no admin rule allows or denies: those that are allowed where the tiers below allow every spot, and are not
/// where they allow none.
pub(crate) fn handed_down<S: Cells>(alloc: Global, admin: Seq<AdminPart<S>>) -> Result<S, NoMemory>
    ensures members { IfOk result (λ made. (spot : S.Spot) → S.in_space spot ≡ true →
        S.has made spot ≡ hands_down (λ set. S.has set spot) admin) }
    ensures well { IfOk result S.IsWell }
{
    let mut layer = Layer {
        admin: parts_with_spots(alloc, admin)?,
        isolated: true,
        net: Seq::new(alloc),
        base: Seq::new(alloc),
    };
    let allowed = verdict_set(alloc, &layer)?;
    layer.isolated = false;
    let not_denied = verdict_set(alloc, &layer)?;
    not_denied.minus(&allowed)
}

// The admin rules that match some spot. The others neither decide nor hand down.
fn parts_with_spots<S: Cells>(
    alloc: Global,
    parts: Seq<AdminPart<S>>,
) -> Result<Seq<AdminPart<S>>, NoMemory>
    ensures { IfOk result (λ made. (spot : S.Spot) →
        hands_down (λ set. S.has set spot) made ≡ hands_down (λ set. S.has set spot) parts) }
{
    let mut kept = Seq::new(alloc);
    for part in parts.into_vec() {
        if !part.set.is_empty() {
            kept.push(part)?;
        }
    }
    Ok(kept)
}
