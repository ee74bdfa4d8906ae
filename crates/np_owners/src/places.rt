//! The places of objects by their names.
ghost use Rattle.std.specs.Prelude.{◌≡◌, ◌≤◌, [], ◌∷◌, ◌++◌, List, Some, None, IfErr, IfOk, MatchResult, OnOk, length};
ghost use Rattle.std.specs.BTreeMap.{Updates};
ghost use Rattle.np_owners.specs.Names as names;
ghost use Rattle.np_items.specs.declared.item.Item.{Item};

use crate::fault::PlacesFault;
use crate::object_name::{ObjectName, name_of};
use np_base::NoMemory;
use np_items::Item;
use std::alloc::Global;
use std::collections::BTreeMap;
use std::marker::Model;

/// The places of the items of a list, from 0, by their names. Contracts see the list of the names with their places, of
/// which `noted_place` gives that of a name.
#[derive(Drop)]
pub struct Places {
    by_name: BTreeMap<ObjectName, u32>,
}

impl Model for Places {
    ghost use Rattle.std.specs.Prelude.{ℕ, List};
    ghost use Rattle.np_owners.specs.declared.object_name.ObjectName.{ObjectName};

    ghost Value = { List (ObjectName × ℕ) };

    ghost view = { λ places. places.by_name.entries };
}

impl Places {
    /// The places of these items. `Duplicate` comes exactly where two of them have one name, with the numbers, from 1,
    /// of the first that has the name of an earlier one, and of that earlier one.
    pub fn of(alloc: Global, items: &[Item]) -> Result<Places, PlacesFault>
        requires few { length items.now ≤ 20000 }
        ensures places { IfOk result (names.HoldsPlaces items.now) }
        ensures apart { OnOk result (names.first_repeat items.now ≡ None) }
        ensures repeat { IfErr result (names.TellsRepeat (names.first_repeat items.now)) }
    {
        let mut by_name = BTreeMap::new(alloc);
        for (place, item) in items.iter().enumerate() {
            note(alloc, &mut by_name, place as u32, item)?;
        }
        Ok(Places { by_name })
    }

    /// The place of the item of a name.
    pub fn find(&self, name: &ObjectName) -> Option<u32>
        ensures { result ≡ names.noted_place self.now name.now }
    {
        self.by_name.get(name).copied()
    }
}

// Notes the place of an item, if it has a name that no earlier one has.
fn note(
    alloc: Global,
    by_name: &mut BTreeMap<ObjectName, u32>,
    place: u32,
    item: &Item,
) -> Result<(), PlacesFault>
    ensures places { OnOk result ((earlier : List Item) → length earlier ≡ place →
        names.HoldsPlaces earlier by_name.old.entries →
        names.HoldsPlaces (earlier ++ (item.now ∷ [])) by_name.new.entries) }
    ensures apart { (earlier : List Item) → length earlier ≡ place →
        names.HoldsPlaces earlier by_name.old.entries →
        MatchResult result (λ _. names.repeated earlier item.now ≡ None)
        (names.TellsRepeat (names.repeated earlier item.now)) }
{
    let Some(name) = name_of(alloc, item)? else {
        return Ok(());
    };
    if let Some(first) = by_name.get(&name) {
        return Err(PlacesFault::Duplicate {
            first: u64::from(*first) + 1,
            second: u64::from(place) + 1,
        });
    }
    Ok(put(by_name, name, place)?)
}

// Puts the place of a name.
fn put(
    by_name: &mut BTreeMap<ObjectName, u32>,
    name: ObjectName,
    place: u32,
) -> Result<(), NoMemory>
    ensures { OnOk result (Updates names.compare_names by_name.old by_name.new name (Some place)) }
{
    by_name.insert(name, place)?;
    Ok(())
}
