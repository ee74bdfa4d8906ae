//! From the JSON value of an input to the items that it lists.
ghost use Rattle.std.specs.Prelude.{◌≡◌, [], ◌∷◌, codes, map, IfOk};
ghost use Rattle.serde_json.specs.Find.{as_array};
ghost use Rattle.serde_json.specs.View.{view};
ghost use Rattle.np_json.specs.Prelude.{field_by, list_of, text_of, unless_null};
ghost use Rattle.np_items.specs.Inputs as spec;
ghost use Rattle.np_items.specs.Prelude.{GivesAs};

use crate::fault::ItemsFault;
use np_base::{NoMemory, Seq};
use np_json::{Field, text_field};
use serde_json::Value;
use std::alloc::Global;

/// The items that the value of the input of this number, from 1, lists: those of a `v1` List, or else the value
/// itself. It is `NotAList` where the value is no object with the texts `apiVersion` and `kind`, where its kind ends
/// in `List` but it is no `v1` List, or where the `items` of a `v1` List is neither a list nor missing nor null.
#[tactic(auto, unfolding(crate::specs::Inputs::items_in, crate::specs::Inputs::items_by))]
pub(crate) fn items_in(alloc: Global, input: u64, value: Value) -> Result<Seq<Value>, ItemsFault>
    ensures { GivesAs (λ items. map view items) result (spec.items_in input (view value)) }
{
    let version = text_at(input, &value, "apiVersion")?;
    let kind = text_at(input, &value, "kind")?;
    if version == "v1" && kind == "List" {
        listed_items(alloc, input, value)
    } else if is_list_kind(kind) {
        Err(ItemsFault::NotAList { input })
    } else {
        Ok(alone(alloc, value)?)
    }
}

/// Whether a kind is that of a list, as `List` and `PodList` are.
pub(crate) fn is_list_kind(kind: &str) -> bool
    ensures { result ≡ spec.is_list_kind kind.now }
{
    kind.as_bytes().ends_with(b"List")
}

// The text at a name, which the value of an input must have.
fn text_at<'a>(input: u64, value: &'a Value, name: &str) -> Result<&'a str, ItemsFault>
    ensures { GivesAs (λ text. text.now) result (spec.or_no_list input (text_of name.now (view value.now))) }
{
    match text_field(value, name) {
        Field::Given(text) => Ok(text),
        Field::Missing => Err(ItemsFault::NotAList { input }),
        Field::Wrong => Err(ItemsFault::NotAList { input }),
    }
}

// The items of a `v1` List.
fn listed_items(alloc: Global, input: u64, mut value: Value) -> Result<Seq<Value>, ItemsFault>
    ensures { GivesAs (λ items. map view items) result (spec.or_none input (list_of (codes "items") (view value))) }
{
    match value.get_mut("items") {
        Some(items) => items_of(alloc, input, items.take()),
        None => Ok(Seq::new(alloc)),
    }
}

// The items of the member `items` of a list.
fn items_of(alloc: Global, input: u64, items: Value) -> Result<Seq<Value>, ItemsFault>
    ensures { GivesAs (λ items. map view items) result
        (spec.or_none input (field_by as_array (unless_null (view items)))) }
{
    match items {
        Value::Array(items) => Ok(Seq::from_vec(items)),
        Value::Null => Ok(Seq::new(alloc)),
        _ => Err(ItemsFault::NotAList { input }),
    }
}

// A value as the only item.
fn alone(alloc: Global, value: Value) -> Result<Seq<Value>, NoMemory>
    ensures { IfOk result (λ items. items ≡ value ∷ []) }
{
    let mut items = Seq::new(alloc);
    items.push(value)?;
    Ok(items)
}
