//! Top owners.
ghost use Rattle.std.specs.Prelude.{◌≡◌, IfOk};
ghost use Rattle.np_owners.specs.Owners as owners;

use crate::chains::Chains;
use crate::object_name::name_of;
use crate::owner_refs::owner_of;
use np_base::NoMemory;
use np_items::Item;
use np_model::Owner;
use std::alloc::Global;

/// The top owner of each item: the last one that its chain of owners reaches, listed or not, or it itself where it has
/// no owner. It is `None` for items of kinds that are not read.
pub fn top_owners(
    alloc: Global,
    items: &[Item],
    chains: &Chains,
) -> Result<Vec<Option<Owner>>, NoMemory>
    requires { chains.now ≡ owners.ups items.now }
    ensures { IfOk result (λ made. made.items ≡ owners.top_owners items.now) }
{
    let tops = chains.tops(alloc)?;
    let mut made = Vec::new(alloc);
    for top in &tops {
        made.push(last_owner(alloc, &items[*top as usize])?)?;
    }
    Ok(made)
}

// The owner that an item names, or it itself where it names none.
fn last_owner(alloc: Global, item: &Item) -> Result<Option<Owner>, NoMemory>
    ensures { IfOk result (λ made. made ≡ owners.last_owner item.now) }
{
    if let Some(owner) = owner_of(item) {
        return Ok(Some(Owner {
            kind: owner.kind.copy()?,
            name: owner.name.copy()?,
        }));
    }
    match name_of(alloc, item)? {
        Some(name) => Ok(Some(Owner {
            kind: name.kind,
            name: name.name,
        })),
        None => Ok(None),
    }
}
