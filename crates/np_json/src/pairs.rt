//! Members that are maps from texts to texts.
ghost use Rattle.std.specs.Prelude.{◌≡◌, IfOk, IfSome};
ghost use Rattle.std.specs.Cmp.Lexicographic.{slice_cmp};
ghost use Rattle.std.specs.List.Sorted.{IsStrictlySortedBy};
ghost use Rattle.std.specs.Map.{keys_of};
ghost use Rattle.std.specs.Ordering.{nat_cmp};
ghost use Rattle.serde_json.specs.View.{view, members_view};
ghost use Rattle.np_json.specs.Prelude.{IfGiven, as_pairs, pairs_of, pairs_of_members};

use crate::field::{Field, as_field, member};
use np_base::{NoMemory, Seq, Text};
use serde_json::{Map, Value};
use std::alloc::Global;

/// A member that is to be an object whose entries are all texts: its entries, in the order of their keys' bytes.
/// Each key stands once, with the value that stands last for it in the text. A value that is no object has no
/// members.
pub fn pairs_field(
    alloc: Global,
    object: &Value,
    name: &str,
) -> Result<Field<Seq<(Text, Text)>>, NoMemory>
    ensures value { IfOk result (λ field. field ≡ pairs_of name.now (view object.now)) }
    ensures ordered { IfOk result (λ field.
        IfGiven field (λ pairs. IsStrictlySortedBy (slice_cmp nat_cmp) (keys_of pairs))) }
{
    match member(object, name) {
        None => Ok(Field::Missing),
        Some(value) => Ok(as_field(pairs(alloc, value)?)),
    }
}

// The entries of an object whose entries are all texts.
pub(crate) fn pairs(alloc: Global, value: &Value) -> Result<Option<Seq<(Text, Text)>>, NoMemory>
    ensures value { IfOk result (λ read. read ≡ as_pairs (view value.now)) }
    ensures ordered { IfOk result (λ read.
        IfSome read (λ pairs. IsStrictlySortedBy (slice_cmp nat_cmp) (keys_of pairs))) }
{
    match value.as_object() {
        None => Ok(None),
        Some(members) => pairs_of_members(alloc, members),
    }
}

// The members, if they are all texts.
fn pairs_of_members(
    alloc: Global,
    members: &Map<String, Value>,
) -> Result<Option<Seq<(Text, Text)>>, NoMemory>
    ensures value { IfOk result (λ read.
        read ≡ pairs_of_members (members_view members.now.entries)) }
    ensures ordered { IfOk result (λ read.
        IfSome read (λ pairs. IsStrictlySortedBy (slice_cmp nat_cmp) (keys_of pairs))) }
{
    let mut pairs = Seq::new(alloc);
    for (key, value) in members.iter() {
        let Some(text) = value.as_str() else {
            return Ok(None);
        };
        pairs.push((Text::of(alloc, key.as_str())?, Text::of(alloc, text)?))?;
    }
    Ok(Some(pairs))
}
