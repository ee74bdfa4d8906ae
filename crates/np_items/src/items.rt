//! From the values that inputs list to items.
ghost use Rattle.std.specs.Prelude.{◌≡◌, length, map, All, IfOk};
ghost use Rattle.serde_json.specs.View.{view};
ghost use Rattle.np_items.specs.Items as spec;
ghost use Rattle.np_items.specs.Prelude.{Gives, IsWellItem};

use crate::fault::ItemsFault;
use crate::item::Item;
use crate::list::is_list_kind;
use np_base::Seq;
use np_json::{TypeMetaShape, read_item};
use np_objects::read_object;
use np_policies::read_policy;
use serde_json::Value;
use std::alloc::Global;

/// Each value as an item, numbered from 1. The first fault stands.
pub(crate) fn each_item(alloc: Global, values: &[Value]) -> Result<Seq<Item>, ItemsFault>
    ensures reads { Gives result (spec.items_from 1 (map view values.now)) }
    ensures count { IfOk result (λ items. length items ≡ length values.now) }
    ensures well { IfOk result (All IsWellItem) }
{
    let mut items = Seq::new(alloc);
    for (place, value) in values.iter().enumerate() {
        items.push(item_of(alloc, place as u64 + 1, value)?)?;
    }
    Ok(items)
}

// The item of this number.
#[tactic(auto, unfolding(crate::specs::Items::item_of))]
fn item_of(alloc: Global, number: u64, value: &Value) -> Result<Item, ItemsFault>
    ensures reads { Gives result (spec.item_of number (view value.now)) }
    ensures well { IfOk result IsWellItem }
{
    must_be_no_list(alloc, number, value)?;
    match read_policy(alloc, number, value)? {
        Some(policy) => Ok(Item::Policy(policy)),
        None => Ok(Item::Object(read_object(alloc, number, value)?)),
    }
}

// The rule that an item is no list, whatever its version.
#[tactic(auto, unfolding(crate::specs::Items::must_be_no_list))]
fn must_be_no_list(alloc: Global, number: u64, value: &Value) -> Result<(), ItemsFault>
    ensures { Gives result (spec.must_be_no_list number (view value.now)) }
{
    let meta = read_item(alloc, number, value, &TypeMetaShape)?;
    if is_list_kind(meta.kind.as_str()) {
        Err(ItemsFault::NestedList { item: number })
    } else {
        Ok(())
    }
}
