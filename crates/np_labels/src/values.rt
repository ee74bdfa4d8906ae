//! The values that a requirement lists.
ghost use Rattle.std.specs.Prelude.{◌≡◌, IfOk};
ghost use Rattle.np_labels.specs.Values as values_of;

use np_base::{NoMemory, Seq, Text};
use std::alloc::Global;
use std::collections::BTreeSet;

/// The values in the order of their bytes, each once.
pub(crate) fn distinct(alloc: Global, values: Seq<Text>) -> Result<Seq<Text>, NoMemory>
    ensures { IfOk result (λ made. made ≡ values_of.distinct values) }
{
    let mut kept = Seq::new(alloc);
    for value in ordered(alloc, values)? {
        kept.push(value)?;
    }
    Ok(kept)
}

fn ordered(alloc: Global, values: Seq<Text>) -> Result<BTreeSet<Text>, NoMemory>
    ensures { IfOk result (λ made. made.keys ≡ values_of.distinct values) }
{
    let mut set = BTreeSet::new(alloc);
    for value in values.into_vec() {
        set.insert(value)?;
    }
    Ok(set)
}
