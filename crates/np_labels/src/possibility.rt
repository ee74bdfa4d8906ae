//! Whether requirements can be met together.
ghost use Rattle.std.specs.Prelude.{◌≡◌, List, ℕ, true, false, ◌&&◌, Option, MatchOption, IfSome, IfNone, IfOk};
ghost use Rattle.std.specs.BTreeMap.{get, IsOrdered};
ghost use Rattle.std.specs.Ordering.{nat_cmp};
ghost use Rattle.std.specs.Cmp.Lexicographic.{slice_cmp};
ghost use Rattle.std.specs.List.{list_all};
ghost use Rattle.np_labels.specs.Prelude.{admits, admits_unless_free, allowed_at, meets_requirement, op_allows, value_of};
ghost use Rattle.np_labels.specs.declared.pair.Pair.{Pair};

use crate::choice::Choice;
use crate::demand::Demand;
use crate::labels::Labels;
use crate::pair::Pair;
use crate::requirement::Requirement;
use np_base::{NoMemory, Text};
use std::alloc::Global;
use std::collections::BTreeMap;

/// Labels that meet all the requirements, or `None` where no labels do. A requirement may list no values. A value in
/// the labels may be one that no real object has. The time is that of sorting the keys and the listed values.
pub fn possible(alloc: Global, all: &[Requirement]) -> Result<Option<Labels>, NoMemory>
    ensures met { IfOk result (λ found. IfSome found (λ labels.
        list_all (λ requirement. meets_requirement requirement labels) all.now ≡ true)) }
    ensures none { IfOk result (λ found. IfNone found ((labels : List Pair) →
        list_all (λ requirement. meets_requirement requirement labels) all.now ≡ false)) }
{
    settle(alloc, demands_of(alloc, all)?)
}

// What the requirements on each key together leave open.
fn demands_of(alloc: Global, all: &[Requirement]) -> Result<BTreeMap<Text, Demand>, NoMemory>
    ensures { IfOk result (λ made. (key : List ℕ) (found : Option (List ℕ)) →
        admits_unless_free (get (slice_cmp nat_cmp) made key) found ≡ allowed_at all.now key found) }
{
    let mut made = BTreeMap::new(alloc);
    for requirement in all {
        let before = made.remove(&requirement.key);
        let demand = narrow_demand(alloc, before, requirement)?;
        made.insert(requirement.key.copy()?, demand)?;
    }
    Ok(made)
}

// What one more requirement on a key leaves open.
fn narrow_demand(
    alloc: Global,
    before: Option<Demand>,
    requirement: &Requirement,
) -> Result<Demand, NoMemory>
    ensures { IfOk result (λ made. (found : Option (List ℕ)) → admits made found
        ≡ (admits_unless_free before found && op_allows requirement.now.op requirement.now.values found)) }
{
    let demand = before.unwrap_or(Demand::free(alloc));
    demand.narrow(alloc, requirement.op, requirement.values.items())
}

// Labels that meet the demands on all keys, or `None` where the demand on some key cannot be met.
fn settle(alloc: Global, demands: BTreeMap<Text, Demand>) -> Result<Option<Labels>, NoMemory>
    ensures { IfOk result (λ found. MatchOption found
        ((key : List ℕ) × ((value : Option (List ℕ)) →
        admits_unless_free (get (slice_cmp nat_cmp) demands key) value ≡ false))
        (λ labels. (key : List ℕ) →
        admits_unless_free (get (slice_cmp nat_cmp) demands key) (value_of labels key) ≡ true)) }
{
    let mut pairs = Vec::new(alloc);
    for (key, demand) in demands {
        match demand.choice(alloc)? {
            Choice::Clash => return Ok(None),
            Choice::LeftOut => {}
            Choice::Value(value) => pairs.push(Pair { key, value })?,
        }
    }
    Ok(Some(Labels::from_pairs(pairs)))
}
