//! The groups of the workloads.
ghost use Rattle.std.specs.Prelude.{◌≡◌, ◌<◌, ◌^◌, IfOk, OnOk, map};
ghost use Rattle.std.specs.Cmp.Lexicographic.{slice_cmp};
ghost use Rattle.std.specs.List.Sorted.{IsStrictlySortedBy};
ghost use Rattle.std.specs.Ordering.{nat_cmp};
ghost use Rattle.np_classes.specs.Classes.{places};
ghost use Rattle.np_rules.specs.Prelude.{pod_end};
ghost use Rattle.np_flatten.specs.Groups as spec;
ghost use Rattle.np_flatten.specs.Prelude.{nobody, seen, seen_at};
ghost use Rattle.np_kinds.specs.Prelude.{number_of_workloads};

use np_base::{NoMemory, Seq, Text};
use np_classes::Classes;
use np_fold::{Folded, Traits};
use np_kinds::first_pod;
use np_model::{Owner, Pod};
use std::alloc::Global;

/// The groups of the workloads of an estate: those of one namespace whose pods have the same values of all keys that some
/// selector names. They are numbered from 0 by the first workload of each.
pub(crate) fn groups_of(alloc: Global, folded: &Folded) -> Result<Classes, NoMemory>
    ensures firsts { IfOk result (λ made. made.firsts ≡ spec.group_firsts folded.now) }
    ensures numbers { IfOk result (λ made. made.numbers
        ≡ map (spec.group_of folded.now) (places (number_of_workloads folded.now))) }
    ensures few { OnOk result (number_of_workloads folded.now < 2 ^ 32) }
{
    let seen = seen_of_workloads(alloc, folded)?;
    Classes::of(alloc, seen)
}

// What a selector sees of the first pod of each workload.
fn seen_of_workloads(alloc: Global, folded: &Folded) -> Result<Vec<Traits>, NoMemory>
    ensures seen { IfOk result (λ made. made.items ≡ map (seen_at folded.now) (places (number_of_workloads folded.now))) }
    ensures few { OnOk result (number_of_workloads folded.now < 2 ^ 32) }
{
    let keys = folded.workloads().relevant();
    let mut made = Vec::new(alloc);
    for workload in 0..folded.workloads().count() {
        made.push(seen_of(alloc, first_pod(folded, workload), keys)?)?;
    }
    Ok(made)
}

// What a selector sees of a pod: its namespace, and the labels of these keys, which ascend.
fn seen_of(alloc: Global, pod: &Pod, keys: &[Text]) -> Result<Traits, NoMemory>
    requires { IsStrictlySortedBy (slice_cmp nat_cmp) keys.now }
    ensures { IfOk result (λ made. made ≡ seen keys.now (pod_end pod.now)) }
{
    let mut traits = Traits::of(alloc, pod, keys, &[])?;
    traits.owner = nobody(alloc)?;
    traits.ports = Seq::new(alloc);
    Ok(traits)
}

// An owner of no name.
fn nobody(alloc: Global) -> Result<Owner, NoMemory>
    ensures { IfOk result (λ owner. owner ≡ nobody) }
{
    Ok(Owner {
        kind: Text::of(alloc, "")?,
        name: Text::of(alloc, "")?,
    })
}
