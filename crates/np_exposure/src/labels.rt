//! The keys and values of labels that requirements mention.
ghost use Rattle.std.specs.Prelude.{◌≡◌, fold, IfOk, OnOk};
ghost use Rattle.std.specs.BTreeSet.{insert_key};
ghost use Rattle.std.specs.Cmp.Lexicographic.{slice_cmp};
ghost use Rattle.std.specs.Ordering.{nat_cmp};
ghost use Rattle.np_exposure.specs.Weight as spec;

use crate::side::Side;
use crate::sided_requirement::SidedRequirement;
use np_base::{NoMemory, Seq, Text};
use std::alloc::Global;
use std::collections::BTreeSet;

/// The keys that are mentioned on a side, in the order of their bytes, each once.
#[tactic(auto, unfolding(crate::specs::Weight::keys_on))]
pub(crate) fn keys_on(
    alloc: Global,
    mentions: &[SidedRequirement],
    side: Side,
) -> Result<Seq<Text>, NoMemory>
    ensures { IfOk result (λ made. made ≡ spec.keys_on side mentions.now) }
{
    let mut keys = BTreeSet::new(alloc);
    for mention in mentions {
        if mention.side == side {
            keys.insert(mention.requirement.key.copy()?)?;
        }
    }
    in_order(alloc, keys)
}

/// The values that are mentioned with a key of a side, in the order of their bytes, each once.
#[tactic(auto, unfolding(crate::specs::Weight::values_at))]
pub(crate) fn values_at(
    alloc: Global,
    mentions: &[SidedRequirement],
    side: Side,
    key: &str,
) -> Result<Seq<Text>, NoMemory>
    ensures { IfOk result (λ made. made ≡ spec.values_at side key.now mentions.now) }
{
    let mut values = BTreeSet::new(alloc);
    for mention in mentions {
        if mention.looks_at(side, key) {
            add_all(&mut values, mention.requirement.values.items())?;
        }
    }
    in_order(alloc, values)
}

// Adds texts to a set.
fn add_all(set: &mut BTreeSet<Text>, texts: &[Text]) -> Result<(), NoMemory>
    ensures { OnOk result (set.new.keys ≡ fold (insert_key (slice_cmp nat_cmp)) set.old.keys texts.now) }
{
    for text in texts {
        set.insert(text.copy()?)?;
    }
    Ok(())
}

// The texts of a set, in order.
fn in_order(alloc: Global, set: BTreeSet<Text>) -> Result<Seq<Text>, NoMemory>
    ensures { IfOk result (λ made. made ≡ set.keys) }
{
    let mut made = Seq::new(alloc);
    for text in set {
        made.push(text)?;
    }
    Ok(made)
}
