//! Things in the order of their names.
ghost use Rattle.std.specs.Prelude.{◌≡◌, ◌<◌, ◌^◌, IfOk, OnOk, length};
ghost use Rattle.std.specs.BTreeSet.{insert_key};
ghost use Rattle.np_names.specs.Counts.{HoldsCounts};
ghost use Rattle.np_names.specs.Names as spec;

use crate::named::Named;
use crate::numbered::{counts_of, next_name};
use np_base::{NoMemory, Seq, Text};
use std::alloc::Global;
use std::collections::{BTreeMap, BTreeSet};

/// The things that would have these names, in the byte order of the names that they get: the wished one, and behind it
/// `#1`, `#2` and so on, by place, where several things wish for the same.
pub fn all_by_name(alloc: Global, wishes: &[Text]) -> Result<Seq<Named>, NoMemory>
    requires { length wishes.now < 2 ^ 32 }
    ensures { IfOk result (λ made. made ≡ spec.all_by_name wishes.now) }
{
    let counts = counts_of(alloc, wishes)?;
    let things = in_order(alloc, wishes, &counts)?;
    Ok(Seq::from_vec(things.into_iter().collect(alloc)?))
}

// The same as a set, where it is known how often each wish is there.
fn in_order(
    alloc: Global,
    wishes: &[Text],
    counts: &BTreeMap<Text, u32>,
) -> Result<BTreeSet<Named>, NoMemory>
    requires few { length wishes.now < 2 ^ 32 }
    requires counts { HoldsCounts wishes.now counts.now.entries }
    ensures { IfOk result (λ made. made.keys ≡ spec.all_by_name wishes.now) }
{
    let mut given = BTreeMap::new(alloc);
    let mut things = BTreeSet::new(alloc);
    for (place, wish) in wishes.iter().enumerate() {
        let name = next_name(alloc, counts, &mut given, wish)?;
        put(&mut things, name, place as u32)?;
    }
    Ok(things)
}

// Puts the thing of this name and place among others in order.
fn put(things: &mut BTreeSet<Named>, name: Text, place: u32) -> Result<(), NoMemory>
    ensures { OnOk result (things.new.keys ≡
        insert_key spec.compare_named things.old.keys (spec.with_name name place)) }
{
    things.insert(Named { name, place })?;
    Ok(())
}
