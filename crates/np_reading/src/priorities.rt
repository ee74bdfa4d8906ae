//! Admin policies of one priority.
ghost use Rattle.std.specs.Prelude.{◌≡◌, IfOk, OnOk, fold, []};
ghost use Rattle.std.specs.Option.{option_copied};
ghost use Rattle.np_reading.specs.Listed as spec;
ghost use Rattle.np_reading.specs.Readings.{Gives, refuse_found};
ghost use Rattle.std.specs.List.{filter_map};

use crate::refusal::Refusal;
use np_base::{NoMemory, Text};
use np_items::Item;
use np_model::AdminPolicy;
use np_policies::Policy;
use std::alloc::Global;
use std::collections::BTreeMap;

/// Where an admin policy stands among others: by its priority, and among those of one priority by its name.
#[derive(Drop, PartialEq, Eq, PartialOrd, Ord)]
pub(crate) struct Rank {
    pub(crate) priority: u16,
    pub(crate) name: Text,
}

/// `EqualPriority` exactly where two admin policies have one priority: with the least such priority, and its two least
/// names in the order of their bytes.
pub(crate) fn refuse_equal_priorities(alloc: Global, items: &[Item]) -> Result<(), Refusal>
    ensures { Gives result (spec.have_priorities_apart items.now) }
{
    refuse_equal_neighbours(&ranks_of(alloc, items)?)
}

// Refuses the first two neighbours of one priority.
fn refuse_equal_neighbours(ranks: &[Rank]) -> Result<(), Refusal>
    ensures { Gives result (refuse_found (λ ranks. Refusal.EqualPriority ranks.0.priority ranks.0.name ranks.1.name) (spec.first_equal ranks.now)) }
{
    for place in 1..ranks.len() {
        let before = &ranks[place - 1];
        let rank = &ranks[place];
        if before.priority == rank.priority {
            return Err(Refusal::EqualPriority {
                priority: before.priority,
                a: before.name.copy()?,
                b: rank.name.copy()?,
            });
        }
    }
    Ok(())
}

// The ranks of the admin policies, in their order.
fn ranks_of(alloc: Global, items: &[Item]) -> Result<Vec<Rank>, NoMemory>
    ensures { IfOk result (λ made. made.items ≡ spec.ranks_of items.now) }
{
    let ranks = by_rank(alloc, items)?;
    Ok(ranks.into_keys().collect(alloc)?)
}

// The ranks of the admin policies, each in its place.
fn by_rank(alloc: Global, items: &[Item]) -> Result<BTreeMap<Rank, ()>, NoMemory>
    ensures { IfOk result (λ made. made.entries ≡ fold spec.with_rank [] (filter_map spec.admin_policy_in items.now)) }
{
    let mut ranks = BTreeMap::new(alloc);
    for item in items {
        note_rank(&mut ranks, item)?;
    }
    Ok(ranks)
}

// Puts the rank of an item in its place, if it is an admin policy.
fn note_rank(ranks: &mut BTreeMap<Rank, ()>, item: &Item) -> Result<(), NoMemory>
    ensures { OnOk result (ranks.new.entries ≡ spec.rank_too ranks.old.entries (spec.admin_policy_in item.now)) }
{
    let Some(admin) = admin_policy(item) else {
        return Ok(());
    };
    let rank = Rank {
        priority: admin.priority,
        name: admin.name.copy()?,
    };
    ranks.insert(rank, ())?;
    Ok(())
}

// The admin policy that an item is.
fn admin_policy(item: &Item) -> Option<&AdminPolicy>
    ensures { option_copied result ≡ spec.admin_policy_in item.now }
{
    match item {
        Item::Policy(Policy::Admin(admin)) => Some(admin),
        _ => None,
    }
}
