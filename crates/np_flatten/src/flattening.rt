//! Whether an estate has flat policies.
ghost use Rattle.std.specs.Prelude.{◌≡◌, ◌⊎◌, IfErr, IfOk, None, OnOk, Some};
ghost use Rattle.np_flatten.specs.Prelude.{flat_fault};
ghost use Rattle.np_flatten.specs.declared.fault.FlatFault.TheVariants.{NoMemory};

use crate::fault::FlatFault;
use crate::flat::Flat;
use crate::groups::groups_of;
use crate::passing::Passing;
use crate::split::first_split;
use crate::unlike::first_unlike;
use np_fold::Folded;
use std::alloc::Global;

/// The flat policies of an estate: without any other policy they allow and deny what the whole estate does, between its pods
/// and between its pods and all addresses.
///
/// `Split` comes exactly where what may pass between two workloads differs between the families of the list, with the first
/// such two by the source and then by the destination. `Alike` comes exactly where nothing is split and two workloads of one
/// group differ, with the first such two by the lesser number and then by the greater. What may pass is read off the
/// rows of the table one by one, and asked of the rules of kinds where workloads of one group are compared; no table of it is held.
#[tactic(auto, unfolding(crate::specs::Faults::flat_fault))]
pub fn flatten<'a>(alloc: Global, folded: &'a Folded) -> Result<Flat<'a>, FlatFault>
    ensures flat { IfOk result (λ flat. flat ≡ folded.now) }
    ensures none { OnOk result (flat_fault folded.now ≡ None) }
    ensures fault { IfErr result (λ fault. (fault ≡ NoMemory) ⊎ (flat_fault folded.now ≡ Some fault)) }
{
    if let Some((source, destination)) = first_split(alloc, folded)? {
        return Err(FlatFault::Split {
            source,
            destination,
        });
    }
    let groups = groups_of(alloc, folded)?;
    let mut passing = Passing::of(alloc, folded)?;
    if let Some((a, b)) = first_unlike(&mut passing, &groups)? {
        return Err(FlatFault::Alike { a, b });
    }
    Ok(Flat::of(passing, groups))
}
