//! What decides each spot of a layer, as one set for each mark.
ghost use Rattle.std.specs.Prelude.{◌≡◌, ◌≢◌, ◌↔◌, ◌∷◌, [], true, IsTrue, ⊤, IfOk, Some, All, AllPairs};
ghost use Rattle.std.specs.List.{position_from};
ghost use Rattle.np_tiers.specs.Prelude.{IsCarving, action_mark, admin_place, base_mark, lower_mark, mark_of, marks_at, net_mark};

use crate::layer::{AdminPart, BasePart, Layer};
use crate::mark::{Mark, Marked};
use np_base::{Cells, NoMemory, Seq};
use np_model::Action;
use std::alloc::Global;

/// One entry for each mark that decides some spot of the space, with exactly the spots that it decides. So the sets
/// are disjoint, none is empty, and together they are the space. The entries stand in no promised order. Want of
/// memory is the one refusal.
///
/// An admin part is met and subtracted once. A part below is so once for the spots of no admin part, and once for
/// each `Pass` part that hands some spot down, since each of these can have marks of its own.
pub fn carve<S: Cells>(alloc: Global, layer: &Layer<S>) -> Result<Seq<Marked<S>>, NoMemory>
    ensures marks { IfOk result (λ entries. (spot : S.Spot) → S.in_space spot ≡ true →
        marks_at (λ set. S.has set spot) entries ≡ mark_of (λ set. S.has set spot) layer.now ∷ []) }
    ensures exact { IfOk result (λ entries. All (λ entry. (spot : S.Spot) →
        IsTrue (S.has entry.set spot)
        ↔ (IsTrue (S.in_space spot) × (mark_of (λ set. S.has set spot) layer.now ≡ entry.mark))) entries) }
    ensures distinct { IfOk result (λ entries. AllPairs (λ a b. a.mark ≢ b.mark) entries) }
    ensures some_spot { IfOk result (λ entries.
        All (λ entry. (spot : S.Spot) × (S.has entry.set spot ≡ true)) entries) }
    ensures well { IfOk result (λ entries. All (λ entry. S.IsWell entry.set) entries) }
{
    let space = S::everything(alloc)?;
    let entries = carve_admin(alloc, layer, space)?;
    Ok(Seq::from_vec(entries))
}

// What decides the spots of `within`.
fn carve_admin<S: Cells>(
    alloc: Global,
    layer: &Layer<S>,
    within: S,
) -> Result<Vec<Marked<S>>, NoMemory>
    ensures { IfOk result (λ entries. IsCarving S.has S.IsWell (S.has within)
        (λ spot. mark_of (λ set. S.has set spot) layer.now) (λ _. ⊤) entries.items) }
{
    let mut entries = Vec::new(alloc);
    let mut left = within;
    for (place, part) in layer.admin.items().iter().enumerate() {
        let hit = left.meet(&part.set)?;
        let mut found = carve_part(alloc, layer, place as u64, part.action, hit)?;
        entries.append(&mut found)?;
        left = left.minus(&part.set)?;
    }
    let mut rest = hand_down(alloc, layer, None, left)?;
    entries.append(&mut rest)?;
    Ok(entries)
}

// What decides the spots of `within`, which the admin part at `place` is the first to have.
fn carve_part<S: Cells>(
    alloc: Global,
    layer: &Layer<S>,
    place: u64,
    action: Action,
    within: S,
) -> Result<Vec<Marked<S>>, NoMemory>
    ensures { IfOk result (λ entries. IsCarving S.has S.IsWell (S.has within)
        (λ spot. action_mark action place (lower_mark (λ set. S.has set spot) layer.now))
        (λ mark. admin_place mark ≡ Some place) entries.items) }
{
    match action {
        Action::Allow | Action::Deny => carve_one(alloc, Mark::Admin { place }, within),
        Action::Pass => hand_down(alloc, layer, Some(place), within),
    }
}

// What decides the spots of `within` below the admin tier. Where there is no such spot the tiers are not gone
// through.
fn hand_down<S: Cells>(
    alloc: Global,
    layer: &Layer<S>,
    pass: Option<u64>,
    within: S,
) -> Result<Vec<Marked<S>>, NoMemory>
    ensures { IfOk result (λ entries. IsCarving S.has S.IsWell (S.has within)
        (λ spot. lower_mark (λ set. S.has set spot) layer.now pass)
        (λ mark. admin_place mark ≡ pass) entries.items) }
{
    if within.is_empty() {
        return Ok(Vec::new(alloc));
    }
    carve_lower(alloc, layer, pass, within)
}

// What decides the spots of `within` below the admin tier.
fn carve_lower<S: Cells>(
    alloc: Global,
    layer: &Layer<S>,
    pass: Option<u64>,
    within: S,
) -> Result<Vec<Marked<S>>, NoMemory>
    ensures { IfOk result (λ entries. IsCarving S.has S.IsWell (S.has within)
        (λ spot. lower_mark (λ set. S.has set spot) layer.now pass)
        (λ mark. admin_place mark ≡ pass) entries.items) }
{
    if layer.isolated {
        carve_net(alloc, layer.net.items(), pass, within)
    } else {
        carve_base(alloc, layer.base.items(), pass, within)
    }
}

// The first `net` set that has each spot of `within`.
fn carve_net<S: Cells>(
    alloc: Global,
    sets: &[S],
    pass: Option<u64>,
    within: S,
) -> Result<Vec<Marked<S>>, NoMemory>
    ensures { IfOk result (λ entries. IsCarving S.has S.IsWell (S.has within)
        (λ spot. net_mark pass (position_from (λ set. S.has set spot) 0 sets.now))
        (λ mark. admin_place mark ≡ pass) entries.items) }
{
    let mut entries = Vec::new(alloc);
    let mut left = within;
    for (place, set) in sets.iter().enumerate() {
        let place = place as u64;
        let hit = left.meet(set)?;
        let mut found = carve_one(alloc, Mark::Net { pass, place }, hit)?;
        entries.append(&mut found)?;
        left = left.minus(set)?;
    }
    let mut rest = carve_one(alloc, Mark::Isolated { pass }, left)?;
    entries.append(&mut rest)?;
    Ok(entries)
}

// The first base part that has each spot of `within`.
fn carve_base<S: Cells>(
    alloc: Global,
    parts: &[BasePart<S>],
    pass: Option<u64>,
    within: S,
) -> Result<Vec<Marked<S>>, NoMemory>
    ensures { IfOk result (λ entries. IsCarving S.has S.IsWell (S.has within)
        (λ spot. base_mark pass (position_from (λ part. S.has part.set spot) 0 parts.now))
        (λ mark. admin_place mark ≡ pass) entries.items) }
{
    let mut entries = Vec::new(alloc);
    let mut left = within;
    for (place, part) in parts.iter().enumerate() {
        let place = place as u64;
        let hit = left.meet(&part.set)?;
        let mut found = carve_one(alloc, Mark::Base { pass, place }, hit)?;
        entries.append(&mut found)?;
        left = left.minus(&part.set)?;
    }
    let mut rest = carve_one(alloc, Mark::Free { pass }, left)?;
    entries.append(&mut rest)?;
    Ok(entries)
}

// The entry of the mark, if it decides some spot.
fn carve_one<S: Cells>(alloc: Global, mark: Mark, within: S) -> Result<Vec<Marked<S>>, NoMemory>
    ensures { IfOk result (λ entries. IsCarving S.has S.IsWell (S.has within)
        (λ _. mark) (λ kept. kept ≡ mark) entries.items) }
{
    let mut entries = Vec::new(alloc);
    if !within.is_empty() {
        entries.push(Marked { mark, set: within })?;
    }
    Ok(entries)
}
