//! Maps of labels.
ghost use Rattle.np_labels.specs.Prelude.{pair_of};
ghost use Rattle.std.specs.Prelude.{◌≡◌, [], IfOk, map};

use np_base::{NoMemory, Seq, Text};
use np_json::{LabelMap, Shape, ShapeFault};
use np_labels::{Labels, Pair};
use serde_json::Value;
use std::alloc::Global;

/// An object from texts to texts, each a label. Anything else is `BadField` of the object.
#[derive(Drop)]
pub(crate) struct LabelsShape;

impl Shape for LabelsShape {
    ghost use Rattle.np_objects.specs.Labels.{label_map};

    type Output = Labels;

    ghost reads = { λ _. label_map };

    #[tactic(auto, unfolding(crate::specs::Labels::label_map))]
    fn read(&self, alloc: Global, value: &Value) -> Result<Labels, ShapeFault> {
        let entries = LabelMap.read(alloc, value)?;
        let pairs = pairs_of(alloc, entries)?;
        Ok(Labels::of(alloc, pairs)?)
    }
}

/// The labels of an object that has none.
pub(crate) fn no_labels(alloc: Global) -> Result<Labels, NoMemory>
    ensures { IfOk result (λ made. made ≡ []) }
{
    Labels::of(alloc, Seq::new(alloc))
}

// The entries as labels, in order.
fn pairs_of(alloc: Global, entries: Seq<(Text, Text)>) -> Result<Seq<Pair>, NoMemory>
    ensures { IfOk result (λ made. made ≡ map pair_of entries) }
{
    let mut pairs = Seq::new(alloc);
    for (key, value) in entries.into_vec() {
        pairs.push(Pair { key, value })?;
    }
    Ok(pairs)
}
