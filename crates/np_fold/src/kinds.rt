//! The kinds of workloads.
ghost use Rattle.std.specs.Prelude.{◌≡◌, ◌<◌, ◌^◌, All, IfOk, List, Some, ℕ, length, map};
ghost use Rattle.std.specs.Cmp.Lexicographic.{slice_cmp};
ghost use Rattle.std.specs.List.Sorted.{IsStrictlySortedBy};
ghost use Rattle.std.specs.Ordering.{nat_cmp};
ghost use Rattle.np_classes.specs.Classes.{class_of, firsts, places};
ghost use Rattle.np_fold.specs.Prelude.{cidrs_of_estate, keys_of_estate};
ghost use Rattle.np_fold.specs.steps.Folded as folded;
ghost use Rattle.np_fold.specs.Workloads as spec;
ghost use Rattle.np_labels.specs.Prelude.{is_listed};

use crate::traits::{Traits, traits_with};
use np_addr::Cidr;
use np_base::{NoMemory, Seq, Text};
use np_classes::Classes;
use np_model::{Estate, Owner, Pod};
use np_names::Named;
use std::alloc::Global;

/// The kinds of the workloads of an estate, in the order of their names: classes of first pods that are alike but for
/// their owners.
pub(crate) fn kinds_of_workloads(
    alloc: Global,
    estate: &Estate,
    keys: &[Text],
    cidrs: &[Cidr],
    firsts: &[u32],
    named: &[Named],
) -> Result<Classes, NoMemory>
    requires few { length named.now < 2 ^ 32 }
    requires keys { (key : List ℕ) → is_listed keys.now key ≡ is_listed (keys_of_estate estate.now) key }
    requires ascending { IsStrictlySortedBy (slice_cmp nat_cmp) keys.now }
    requires cidrs { folded.HaveSame cidrs.now (cidrs_of_estate estate.now) }
    requires firsts { firsts.now ≡ spec.first_pods estate.now }
    requires named { named.now ≡ spec.named_first_pods estate.now }
    ensures firsts { IfOk result (λ made. made.firsts ≡ folded.first_kinds estate.now) }
    ensures numbers { IfOk result (λ made. made.numbers ≡ folded.kinds_of_workloads estate.now) }
{
    let traits = traits_by_name(alloc, estate.pods(), keys, cidrs, firsts, named)?;
    Classes::of(alloc, traits.into_vec())
}

// What rules see of the pods at the places of things, in the order of the things, without the pods' owners.
fn traits_by_name(
    alloc: Global,
    pods: &[Pod],
    keys: &[Text],
    cidrs: &[Cidr],
    firsts: &[u32],
    named: &[Named],
) -> Result<Seq<Traits>, NoMemory>
    requires keys { IsStrictlySortedBy (slice_cmp nat_cmp) keys.now }
    requires firsts { All (λ first. first < length pods.now) firsts.now }
    requires named { All (λ one. one.place < length firsts.now) named.now }
    ensures { IfOk result (λ made. map Some made ≡ map (folded.kind_at keys.now cidrs.now pods.now firsts.now) named.now) }
{
    let mut made = Seq::new(alloc);
    for one in named {
        let first = firsts[one.place as usize];
        made.push(traits_with(alloc, &pods[first as usize], nobody(alloc), keys, cidrs)?)?;
    }
    Ok(made)
}

// An owner of no name.
fn nobody(alloc: Global) -> Owner
    ensures { result ≡ folded.nobody }
{
    Owner {
        kind: Text::from_string(String::new(alloc)),
        name: Text::from_string(String::new(alloc)),
    }
}
