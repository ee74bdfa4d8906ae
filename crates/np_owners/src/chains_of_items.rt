//! The chains of owners of the items of a list.
ghost use Rattle.std.specs.Prelude.{◌≡◌, ◌≤◌, List, None, length, IfErr, IfOk, OnOk};
ghost use Rattle.np_owners.specs.Prelude.{HoldsPlaces};
ghost use Rattle.np_items.specs.declared.item.Item.{Item};
ghost use Rattle.np_owners.specs.Owners as owners;

use crate::chains::Chains;
use crate::fault::ChainsFault;
use crate::object_name::{ObjectName, name_of};
use crate::owner_refs::owner_of;
use crate::places::Places;
use np_base::{NoMemory, Text};
use np_items::Item;
use np_objects::{OwnerRef, is_controller_kind};
use std::alloc::Global;

/// Over each item the listed controller that owns it, by their places from 0. `OwnerCycle` comes exactly where a listed
/// controller stands in its own chain of owners, with the name of the first that does, `namespace/name[Kind]`.
pub fn chains_of(alloc: Global, items: &[Item], places: &Places) -> Result<Chains, ChainsFault>
    requires few { length items.now ≤ 20000 }
    requires places { HoldsPlaces items.now places.now }
    ensures ups { IfOk result (λ chains. chains ≡ owners.ups items.now) }
    ensures ends { OnOk result (owners.first_in_cycle items.now ≡ None) }
    ensures cycle { IfErr result (owners.TellsCycle (owners.first_in_cycle items.now)) }
{
    let chains = Chains::of(ups(alloc, items, places)?);
    match chains.first_cycle() {
        None => Ok(chains),
        Some(place) => Err(ChainsFault::OwnerCycle {
            name: full_name(alloc, &items[place as usize])?,
        }),
    }
}

// Over each item the place of the listed controller that owns it.
fn ups(alloc: Global, items: &[Item], places: &Places) -> Result<Vec<Option<u32>>, NoMemory>
    requires places { HoldsPlaces items.now places.now }
    ensures { IfOk result (λ made. made.items ≡ owners.ups items.now) }
{
    let mut made = Vec::new(alloc);
    for item in items {
        made.push(owner_place(alloc, item, places)?)?;
    }
    Ok(made)
}

// The place of the listed controller that owns an item.
fn owner_place(alloc: Global, item: &Item, places: &Places) -> Result<Option<u32>, NoMemory>
    ensures { (items : List Item) → HoldsPlaces items places.now →
        IfOk result (λ place. place ≡ owners.owner_place items item.now) }
{
    let Some(owner) = owner_of(item) else {
        return Ok(None);
    };
    match name_of(alloc, item)? {
        Some(name) => controller_place(alloc, name.namespace, owner, places),
        None => Ok(None),
    }
}

// The place of the listed controller of an owner's kind and name in a namespace.
fn controller_place(
    alloc: Global,
    namespace: Text,
    owner: &OwnerRef,
    places: &Places,
) -> Result<Option<u32>, NoMemory>
    ensures { (items : List Item) → HoldsPlaces items places.now →
        IfOk result (λ place. place ≡ owners.controller_place items namespace owner.now) }
{
    if !is_controller_kind(owner.kind.as_str()) {
        return Ok(None);
    }
    let name = ObjectName {
        kind: Text::of(alloc, owner.kind.as_str())?,
        namespace,
        name: Text::of(alloc, owner.name.as_str())?,
    };
    Ok(places.find(&name))
}

// The whole name of an item, as `namespace/name[Kind]`.
fn full_name(alloc: Global, item: &Item) -> Result<Text, NoMemory>
    ensures { IfOk result (λ text. text ≡ owners.full_name_of item.now) }
{
    match name_of(alloc, item)? {
        Some(whole) => {
            let namespace = &whole.namespace;
            let name = &whole.name;
            let kind = &whole.kind;
            Ok(Text::from_string(format!(in alloc; "{namespace}/{name}[{kind}]")?))
        }
        None => Text::of(alloc, ""),
    }
}
