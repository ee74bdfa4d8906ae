//! The first pods of the workloads, by the names of their workloads.
ghost use Rattle.std.specs.Prelude.{◌≡◌, ◌<◌, ◌^◌, All, IfOk, length, map};
ghost use Rattle.np_fold.specs.Workloads as spec;

use np_base::{NoMemory, Seq, Text};
use np_model::{Estate, Pod};
use np_names::{Named, all_by_name};
use std::alloc::Global;

/// The first pods' places among themselves, by the names of their workloads.
pub(crate) fn first_pods_by_name(
    alloc: Global,
    estate: &Estate,
    firsts: &[u32],
) -> Result<Seq<Named>, NoMemory>
    requires few { length firsts.now < 2 ^ 32 }
    requires within { All (λ first. first < length estate.now.pods) firsts.now }
    requires firsts { firsts.now ≡ spec.first_pods estate.now }
    ensures { IfOk result (λ made. made ≡ spec.named_first_pods estate.now) }
{
    let names = owner_names(alloc, estate, firsts)?;
    all_by_name(alloc, names.items())
}

// The names of the owners of the pods at these places, in order.
fn owner_names(alloc: Global, estate: &Estate, firsts: &[u32]) -> Result<Seq<Text>, NoMemory>
    requires { All (λ first. first < length estate.now.pods) firsts.now }
    ensures { IfOk result (λ made. made ≡ map (spec.owner_name_at estate.now) firsts.now) }
{
    let mut names = Seq::new(alloc);
    for first in firsts {
        names.push(owner_name(alloc, &estate.pods()[*first as usize])?)?;
    }
    Ok(names)
}

// The name of the top owner of a pod, with its namespace and its kind.
fn owner_name(alloc: Global, pod: &Pod) -> Result<Text, NoMemory>
    ensures { IfOk result (λ name. name ≡ spec.owner_name pod.now) }
{
    let namespace = &pod.namespace;
    let name = &pod.owner.name;
    let kind = &pod.owner.kind;
    Ok(Text::from_string(format!(in alloc; "{namespace}/{name}[{kind}]")?))
}
