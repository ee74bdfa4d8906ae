//! From the bytes of inputs to their items.
ghost use Rattle.std.specs.Prelude.{◌≤◌, length, map, All, IfOk, OnOk};
ghost use Rattle.np_items.specs.Prelude.{Gives, IsWellItem, items_of};
ghost use Rattle.np_items.specs.Items as spec;

use crate::fault::ItemsFault;
use crate::inputs::all_values;
use crate::item::Item;
use crate::items::each_item;
use np_base::Seq;
use std::alloc::Global;

// How many items are read at most.
const MOST_ITEMS: usize = 20_000;

/// The items that the inputs list, each input given by its bytes, in order. An input is a `v1` List, which lists its
/// `items`, and none where they are missing or null, or a single object, which is one item.
///
/// The fault is the first of these:
/// 1. input by input, `NotJson` and then `NotAList`;
/// 2. `TooManyItems`, with more than 20,000 items over all inputs;
/// 3. item by item, `Bad` where it is no object with the texts `apiVersion` and `kind`, then `NestedList`, then the
///    item's first fault as [`np_policies::read_policy`] and [`np_objects::read_object`] tell of it.
///
/// `NoMemory` may come in place of any answer.
///
/// A list is told by its kind: that of a list ends in `List` (Kubernetes API conventions, "Types (Kinds)").
#[tactic(auto, unfolding(crate::specs::Items::items_of))]
pub fn read_items(alloc: Global, texts: &[Vec<u8>]) -> Result<Seq<Item>, ItemsFault>
    ensures items { Gives result (items_of (map (λ text. text.items) texts.now)) }
    ensures few { IfOk result (λ items. length items ≤ 20000) }
    ensures well { IfOk result (All IsWellItem) }
{
    let values = all_values(alloc, texts)?;
    must_be_few(values.items().len())?;
    each_item(alloc, values.items())
}

// The rule that there are no more items than are read.
#[tactic(auto, unfolding(crate::specs::Items::must_be_few))]
fn must_be_few(count: usize) -> Result<(), ItemsFault>
    ensures rule { Gives result (spec.must_be_few count) }
    ensures few { OnOk result (count ≤ 20000) }
{
    if count <= MOST_ITEMS {
        Ok(())
    } else {
        Err(ItemsFault::TooManyItems {
            count: count as u64,
        })
    }
}
