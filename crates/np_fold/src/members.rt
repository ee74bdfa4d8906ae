//! Workloads by name, with the places of their pods.
ghost use Rattle.std.specs.Prelude.{◌≡◌, ◌≢◌, ◌<◌, ◌^◌, ◌∷◌, [], ◌++◌, All, IfOk, OnOk, length, map};
ghost use Rattle.std.specs.Cmp.Lexicographic.{slice_cmp};
ghost use Rattle.std.specs.List.{zip};
ghost use Rattle.std.specs.List.Sorted.{IsStrictlySortedBy};
ghost use Rattle.std.specs.Ordering.{nat_cmp};
ghost use Rattle.np_classes.specs.Classes.{numbered, places};
ghost use Rattle.np_fold.specs.steps.Folded as folded;
ghost use Rattle.np_fold.specs.Workloads as spec;

use indexmap::IndexMap;
use np_base::{NoMemory, Seq, Text};
use np_classes::groups;
use np_names::Named;
use std::alloc::Global;

/// The places of the pods of each workload by its name, where `numbers` has the number of each pod's workload. Names
/// ascend strictly, so each is a new one, and the map keeps their order.
pub(crate) fn members_by_name(
    alloc: Global,
    named: &[Named],
    numbers: &[u32],
) -> Result<IndexMap<String, Seq<u32>>, NoMemory>
    requires few { length named.now < 2 ^ 32 }
    requires pods { length numbers.now < 2 ^ 32 }
    requires within { All (λ number. number < length named.now) numbers.now }
    requires names { IsStrictlySortedBy (slice_cmp nat_cmp) (map (λ one. one.name) named.now) }
    ensures { IfOk result (λ made. map spec.workload_of_entry made.entries
        ≡ map folded.workload_of_pair (zip named.now (map (numbered numbers.now) (places (length named.now))))) }
{
    let groups = groups(alloc, numbers, named.len() as u32)?;
    let mut by_name = IndexMap::new(alloc);
    for members in groups.into_vec() {
        let place = by_name.len();
        put_last(alloc, &mut by_name, &named[place].name, members)?;
    }
    Ok(by_name)
}

// Puts a workload of a new name last.
fn put_last(
    alloc: Global,
    by_name: &mut IndexMap<String, Seq<u32>>,
    name: &Text,
    members: Seq<u32>,
) -> Result<(), NoMemory>
    requires { All (λ workload. workload.name ≢ name.now) (map spec.workload_of_entry by_name.old.entries) }
    ensures { OnOk result (map spec.workload_of_entry by_name.new.entries
        ≡ map spec.workload_of_entry by_name.old.entries ++ folded.workload_of name.now members ∷ []) }
{
    let name = String::from_str(alloc, name.as_str())?;
    by_name.insert(name, members)?;
    Ok(())
}
