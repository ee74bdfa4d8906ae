//! The classes of alike pods.
ghost use Rattle.std.specs.Prelude.{◌≡◌, ◌<◌, ◌^◌, IfOk, List, ℕ, length};
ghost use Rattle.std.specs.Cmp.Lexicographic.{slice_cmp};
ghost use Rattle.std.specs.List.Sorted.{IsStrictlySortedBy};
ghost use Rattle.std.specs.Ordering.{nat_cmp};
ghost use Rattle.np_fold.specs.Prelude.{cidrs_of_estate, keys_of_estate};
ghost use Rattle.np_fold.specs.steps.Folded as folded;
ghost use Rattle.np_fold.specs.Workloads as spec;
ghost use Rattle.np_labels.specs.Prelude.{is_listed};

use crate::traits::Traits;
use np_addr::Cidr;
use np_base::{NoMemory, Text};
use np_classes::Classes;
use np_model::Estate;
use std::alloc::Global;

/// The classes of the pods of an estate that are alike, by the keys that its selectors name and the blocks that it lists.
pub(crate) fn classes_of_pods(
    alloc: Global,
    estate: &Estate,
    keys: &[Text],
    cidrs: &[Cidr],
) -> Result<Classes, NoMemory>
    requires few { length estate.now.pods < 2 ^ 32 }
    requires keys { (key : List ℕ) → is_listed keys.now key ≡ is_listed (keys_of_estate estate.now) key }
    requires ascending { IsStrictlySortedBy (slice_cmp nat_cmp) keys.now }
    requires cidrs { folded.HaveSame cidrs.now (cidrs_of_estate estate.now) }
    ensures firsts { IfOk result (λ made. made.firsts ≡ spec.first_pods estate.now) }
    ensures numbers { IfOk result (λ made. made.numbers ≡ folded.classes_of_pods estate.now) }
{
    let traits = Traits::of_all(alloc, estate.pods(), keys, cidrs)?;
    Classes::of(alloc, traits.into_vec())
}
