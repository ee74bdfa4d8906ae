//! A mentioned key of labels.
ghost use Rattle.std.specs.Prelude.{◌≡◌, ◌++◌, map, IfOk, OnOk};
ghost use Rattle.np_exposure.specs.Choices as spec;

use crate::labels::{keys_on, values_at};
use crate::side::Side;
use crate::sided_requirement::SidedRequirement;
use np_base::{NoMemory, Seq, Text};
use std::alloc::Global;

/// A key that is mentioned on a side, with the values that are mentioned with it.
#[derive(Drop)]
pub(crate) struct MentionedKey {
    pub side: Side,
    pub key: Text,
    /// In the order of their bytes, each once.
    pub values: Seq<Text>,
    /// A value that is not mentioned, which stands for all others.
    pub other: Text,
}

/// All mentioned keys, those of namespaces first, each side in the order of their bytes.
pub(crate) fn labels_of(
    alloc: Global,
    mentions: &[SidedRequirement],
) -> Result<Vec<MentionedKey>, NoMemory>
    ensures { IfOk result (λ made. made.items ≡ spec.mentioned_keys mentions.now) }
{
    let mut labels = Vec::new(alloc);
    add_labels(&mut labels, mentions, Side::Namespace)?;
    add_labels(&mut labels, mentions, Side::Pod)?;
    Ok(labels)
}

// Adds the keys of a side.
fn add_labels(
    labels: &mut Vec<MentionedKey>,
    mentions: &[SidedRequirement],
    side: Side,
) -> Result<(), NoMemory>
    ensures { OnOk result (labels.new.items ≡ labels.old.items ++ spec.labels_on side mentions.now) }
{
    let alloc = *labels.allocator();
    let keys = keys_on(alloc, mentions, side)?;
    for key in keys.items() {
        labels.push(label_at(alloc, mentions, side, key)?)?;
    }
    Ok(())
}

// A key, with the values that are mentioned with it.
fn label_at(
    alloc: Global,
    mentions: &[SidedRequirement],
    side: Side,
    key: &Text,
) -> Result<MentionedKey, NoMemory>
    ensures { IfOk result (λ made. made ≡ spec.label_at side mentions.now key.now) }
{
    let values = values_at(alloc, mentions, side, key.as_str())?;
    Ok(MentionedKey {
        side,
        key: key.copy()?,
        other: other_than(alloc, values.items())?,
        values,
    })
}

// A value that is longer than all of these together, and so none of them.
fn other_than(alloc: Global, values: &[Text]) -> Result<Text, NoMemory>
    ensures { IfOk result (λ made. made ≡ spec.other_than values.now) }
{
    let mut text = String::new(alloc);
    for value in values {
        text.push_str(value.as_str())?;
    }
    text.push('a')?;
    Ok(Text::from_string(text))
}
