//! How an estate is read from the bytes of its inputs.
ghost use Rattle.std.specs.Prelude.{◌≡◌, ◌≤◌, length, map, IfOk};
ghost use Rattle.np_reading.specs.steps.Gathering as gathering;
ghost use Rattle.np_model.specs.Prelude.{IsLawful};
ghost use Rattle.np_reading.specs.Reading as spec;
ghost use Rattle.np_reading.specs.Prelude.{Gives};
ghost use Rattle.np_owners.specs.Prelude.{HoldsPlaces, ups};

use crate::context::contexts;
use crate::grouped_items::{GroupedItems, gather};
use crate::left_out::{LeftOut, count_left_out, unaddressed};
use crate::priorities::refuse_equal_priorities;
use crate::refusal::Refusal;
use np_base::{NoMemory, Seq};
use np_items::{Item, read_items};
use np_model::{Estate, EstateLists, Notes};
use np_owners::{Chains, Places, chains_of, made_pods, top_owners};
use std::alloc::Global;

/// The estate that the inputs list, all together, or the first refusal.
///
/// Refusals come in this order: `NotJson` or `NotAList` of the first such input; `TooManyItems`; the first item that
/// is `NestedList` or `Bad`; `Duplicate`; `EqualPriority`; `OwnerCycle`. Every estate that is read is lawful.
#[tactic(auto, unfolding(crate::specs::Reading::estate_of))]
pub fn read_estate(alloc: Global, texts: &[Vec<u8>]) -> Result<Estate, Refusal>
    ensures estate { Gives result (spec.estate_of (map (λ text. text.items) texts.now)) }
    ensures lawful { IfOk result IsLawful }
{
    let items = read_items(alloc, texts)?;
    let places = Places::of(alloc, items.items())?;
    refuse_equal_priorities(alloc, items.items())?;
    let chains = chains_of(alloc, items.items(), &places)?;
    Ok(Estate::of(lists_of(alloc, items, &places, &chains)?))
}

// The lists of the estate of these items.
fn lists_of(
    alloc: Global,
    items: Seq<Item>,
    places: &Places,
    chains: &Chains,
) -> Result<EstateLists, NoMemory>
    requires few { length items ≤ 20000 }
    requires places { HoldsPlaces items places.now }
    requires chains { chains.now ≡ ups items }
    ensures { IfOk result (λ lists. lists ≡ spec.estate_of_items items) }
{
    let makers = made_pods(alloc, items.items(), chains)?;
    let owners = top_owners(alloc, items.items(), chains)?;
    let notes = Notes {
        host: count_left_out(items.items(), &makers, LeftOut::Host),
        finished: count_left_out(items.items(), &makers, LeftOut::Finished),
        skipped: count_left_out(items.items(), &makers, LeftOut::Skipped),
        unaddressed: 0,
    };
    let contexts = contexts(alloc, items.items(), places, &makers, &owners)?;
    in_order(alloc, gather(alloc, items, contexts)?, notes)
}

// The lists of what was gathered, each in its order. What the notes say of pods without addresses is counted here.
fn in_order(alloc: Global, gathered: GroupedItems, notes: Notes) -> Result<EstateLists, NoMemory>
    ensures { IfOk result (λ lists. lists ≡ gathering.in_order (gathering.seen gathered) notes) }
{
    let admin_policies = Seq::from_vec(gathered.admin_policies.into_values().collect(alloc)?);
    let unaddressed = unaddressed(
        alloc,
        gathered.pods.items(),
        admin_policies.items(),
        gathered.baseline.as_ref(),
    )?;
    Ok(EstateLists {
        pods: gathered.pods,
        net_policies: Seq::from_vec(gathered.net_policies.into_values().collect(alloc)?),
        admin_policies,
        baseline: gathered.baseline,
        services: gathered.services,
        ingresses: gathered.ingresses,
        notes: Notes {
            unaddressed,
            ..notes
        },
    })
}
