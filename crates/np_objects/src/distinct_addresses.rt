//! Addresses, each once.
ghost use Rattle.std.specs.Prelude.{◌≡◌, ◌∷◌, IfOk, OnOk};
ghost use Rattle.np_objects.specs.Statuses as statuses;
ghost use Rattle.np_objects.specs.Prelude.{HaveSame};

use np_addr::Address;
use np_base::{NoMemory, Seq};
use std::alloc::Global;
use std::collections::BTreeSet;

/// The addresses that are there, each once, where it stands first.
pub(crate) fn distinct(
    alloc: Global,
    first: Option<Address>,
    others: Seq<Option<Address>>,
) -> Result<Seq<Address>, NoMemory>
    ensures { IfOk result (λ made. made ≡ statuses.distinct_addresses (first ∷ others)) }
{
    let mut kept = Seq::new(alloc);
    let mut known = BTreeSet::new(alloc);
    keep(&mut kept, &mut known, first)?;
    for address in others.into_vec() {
        keep(&mut kept, &mut known, address)?;
    }
    Ok(kept)
}

// One more address, if there is one and it is not known yet.
fn keep(
    kept: &mut Seq<Address>,
    known: &mut BTreeSet<Address>,
    address: Option<Address>,
) -> Result<(), NoMemory>
    requires { HaveSame kept.old known.old.keys }
    ensures kept { OnOk result (kept.new ≡ statuses.kept_with kept.old address) }
    ensures known { OnOk result (HaveSame kept.new known.new.keys) }
{
    let Some(address) = address else {
        return Ok(());
    };
    if !known.insert(address)? {
        return Ok(());
    }
    kept.push(address)
}
