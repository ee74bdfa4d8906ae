//! The classes of the places of a list, by keys.
ghost use Rattle.std.specs.Prelude.{◌≡◌, ◌<◌, ◌≤◌, ◌^◌, [], ◌∷◌, ◌++◌, IfOk, List, OnOk, length, map};
ghost use Rattle.np_classes.specs.Classes as spec;
ghost use Rattle.np_classes.specs.Noted.{HoldsClasses};

use np_base::{NoMemory, Seq};
use std::alloc::Global;
use std::collections::BTreeMap;

/// The classes of the places of a list, numbered from 0 by their first places.
#[derive(Debug, Drop)]
pub struct Classes {
    /// The first place of each class, in ascending order.
    pub firsts: Seq<u32>,
    /// The number of each place's class.
    pub numbers: Seq<u32>,
}

impl Classes {
    /// The classes of places whose keys tie.
    pub fn of<K: Ord + Drop>(alloc: Global, keys: Vec<K>) -> Result<Classes, NoMemory>
        requires { length keys.items < 2 ^ 32 }
        ensures firsts { IfOk result (λ made. made.firsts ≡ spec.firsts (spec.keys_tie K.cmp keys.items) (length keys.items)) }
        ensures numbers { IfOk result (λ made. made.numbers
            ≡ map (spec.class_of (spec.keys_tie K.cmp keys.items) (length keys.items)) (spec.places (length keys.items))) }
    {
        let mut known = BTreeMap::new(alloc);
        let mut firsts = Seq::new(alloc);
        let mut numbers = Seq::new(alloc);
        for key in keys {
            note(&mut known, &mut firsts, &mut numbers, key)?;
        }
        Ok(Classes { firsts, numbers })
    }
}

// Notes the class of one place more, that of this key. `known` has the number of each class by its key.
fn note<K: Ord + Drop>(
    known: &mut BTreeMap<K, u32>,
    firsts: &mut Seq<u32>,
    numbers: &mut Seq<u32>,
    key: K,
) -> Result<(), NoMemory>
    requires few { length numbers.old < 2 ^ 32 }
    requires among { length firsts.old ≤ length numbers.old }
    ensures { OnOk result ((earlier : List K) → HoldsClasses K.cmp earlier known.old firsts.old numbers.old →
        HoldsClasses K.cmp (earlier ++ (key ∷ [])) known.new firsts.new numbers.new) }
{
    if let Some(number) = known.get(&key).copied() {
        return numbers.push(number);
    }
    let place = numbers.items().len() as u32;
    let number = firsts.items().len() as u32;
    firsts.push(place)?;
    numbers.push(number)?;
    known.insert(key, number)?;
    Ok(())
}
