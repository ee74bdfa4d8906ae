//! The workloads of an estate.
ghost use Rattle.std.specs.Prelude.{◌≡◌, ◌≢◌, ◌<◌, ◌≤◌, ◌^◌, [], ℕ, Err, IfOk, OnOk, length, slice_index};
ghost use Rattle.np_fold.specs.Blocks.{cidrs_of_estate};
ghost use Rattle.np_fold.specs.steps.Folded as folded;
ghost use Rattle.np_fold.specs.Keys.{keys_of_estate, with_keys};
ghost use Rattle.np_fold.specs.Workloads as spec;
ghost use Rattle.np_fold.specs.declared.fold_fault.FoldFault.TheVariants.{TooManyWorkloads};

use crate::distinct_blocks::distinct_cidrs;
use crate::fold_fault::FoldFault;
use crate::kinds::kinds_of_workloads;
use crate::members::members_by_name;
use crate::numbers::numbers_by_name;
use crate::owner_names::first_pods_by_name;
use crate::pod_classes::classes_of_pods;
use crate::relevant::relevant_keys;
use indexmap::IndexMap;
use np_addr::Cidr;
use np_base::{Seq, Text};
use np_classes::Classes;
use np_model::Estate;
use np_names::Named;
use std::alloc::Global;
use std::marker::Model;

/// The most workloads that an estate may have, so that a table of all pairs of them is not too large.
pub const MOST_WORKLOADS: usize = 2000;

/// The workloads of an estate: its pods in classes, so that pods of one class are alike to every rule and have one top
/// owner. Workloads are numbered from 0 in the byte order of their names, and pods by their places in the estate.
/// Contracts see them as a `Folding`, and that of an estate is `folding_of` it.
pub struct Workloads {
    // The places of the pods of each, by name.
    by_name: IndexMap<String, Seq<u32>>,
    // The number of each pod's workload.
    numbers: Seq<u32>,
    // The number of each workload's kind, and the first workload of each.
    kinds: Classes,
    relevant: Seq<Text>,
}

// Written out, so that letting one go is one call.
impl Drop for Workloads {
    fn drop(self) {
        let Workloads {
            by_name: _by_name,
            numbers: _numbers,
            kinds: _kinds,
            relevant: _relevant,
        } = self;
    }
}

impl Model for Workloads {
    ghost use Rattle.std.specs.Prelude.{◌<◌, ◌^◌, length, map};
    ghost use Rattle.np_fold.specs.Workloads.{Folding, workload_of_entry};

    ghost Value = { Folding };

    ghost view = { λ w. record {
      workloads = map workload_of_entry w.by_name.entries;
      numbers = w.numbers;
      kinds = w.kinds.numbers;
      kind_count = length w.kinds.firsts;
      first_of_kinds = w.kinds.firsts;
      relevant = w.relevant;
    } };

    // Numbers of workloads and of kinds fit.
    ghost invariant = { λ w. (length w.by_name.entries < 2 ^ 32) × (length w.kinds.firsts < 2 ^ 32) };
}

impl Workloads {
    /// The workloads of an estate. `TooManyWorkloads` comes exactly where there are more than 2,000, with their number.
    ///
    /// Two pods are of one workload exactly where they have the same namespace, the same top owner, the same values of
    /// the labels that some selector names, the same named ports, and addresses in the same blocks of `networks` peers.
    pub fn of(alloc: Global, estate: &Estate) -> Result<Workloads, FoldFault>
        requires { length estate.now.pods < 2 ^ 32 }
        ensures folded { IfOk result (λ workloads. workloads ≡ spec.folding_of estate.now) }
        ensures few { OnOk result (spec.workload_count estate.now ≤ MOST_WORKLOADS) }
        ensures many { (count : ℕ) → result ≡ Err (TooManyWorkloads count) →
            (MOST_WORKLOADS < spec.workload_count estate.now) × (count ≡ spec.workload_count estate.now) }
    {
        let relevant = relevant_keys(alloc, estate)?;
        let cidrs = distinct_cidrs(alloc, estate)?;
        Workloads::of_keys(alloc, estate, relevant, cidrs.items())
    }

    // The same, where the keys and blocks that tell pods apart are known.
    fn of_keys(
        alloc: Global,
        estate: &Estate,
        relevant: Seq<Text>,
        cidrs: &[Cidr],
    ) -> Result<Workloads, FoldFault>
        requires pods { length estate.now.pods < 2 ^ 32 }
        requires relevant { relevant ≡ with_keys [] (keys_of_estate estate.now) }
        requires cidrs { folded.HaveSame cidrs.now (cidrs_of_estate estate.now) }
        ensures folded { IfOk result (λ workloads. workloads ≡ spec.folding_of estate.now) }
        ensures few { OnOk result (spec.workload_count estate.now ≤ MOST_WORKLOADS) }
        ensures many { (count : ℕ) → result ≡ Err (TooManyWorkloads count) →
            (MOST_WORKLOADS < spec.workload_count estate.now) × (count ≡ spec.workload_count estate.now) }
    {
        let classes = classes_of_pods(alloc, estate, relevant.items(), cidrs)?;
        let count = classes.firsts.items().len();
        if count > MOST_WORKLOADS {
            return Err(FoldFault::TooManyWorkloads {
                count: count as u64,
            });
        }
        Workloads::of_classes(alloc, estate, relevant, cidrs, &classes)
    }

    // The same, where the classes of alike pods are known and few.
    fn of_classes(
        alloc: Global,
        estate: &Estate,
        relevant: Seq<Text>,
        cidrs: &[Cidr],
        classes: &Classes,
    ) -> Result<Workloads, FoldFault>
        requires pods { length estate.now.pods < 2 ^ 32 }
        requires few { spec.workload_count estate.now ≤ MOST_WORKLOADS }
        requires relevant { relevant ≡ with_keys [] (keys_of_estate estate.now) }
        requires cidrs { folded.HaveSame cidrs.now (cidrs_of_estate estate.now) }
        requires firsts { classes.now.firsts ≡ spec.first_pods estate.now }
        requires numbers { classes.now.numbers ≡ folded.classes_of_pods estate.now }
        ensures folded { IfOk result (λ workloads. workloads ≡ spec.folding_of estate.now) }
        ensures no_count { (count : ℕ) → result ≢ Err (TooManyWorkloads count) }
    {
        let named = first_pods_by_name(alloc, estate, classes.firsts.items())?;
        Workloads::of_named(alloc, estate, relevant, cidrs, classes, named.items())
    }

    // The same, where the names of the workloads are known.
    fn of_named(
        alloc: Global,
        estate: &Estate,
        relevant: Seq<Text>,
        cidrs: &[Cidr],
        classes: &Classes,
        named: &[Named],
    ) -> Result<Workloads, FoldFault>
        requires pods { length estate.now.pods < 2 ^ 32 }
        requires few { spec.workload_count estate.now ≤ MOST_WORKLOADS }
        requires relevant { relevant ≡ with_keys [] (keys_of_estate estate.now) }
        requires cidrs { folded.HaveSame cidrs.now (cidrs_of_estate estate.now) }
        requires firsts { classes.now.firsts ≡ spec.first_pods estate.now }
        requires numbers { classes.now.numbers ≡ folded.classes_of_pods estate.now }
        requires named { named.now ≡ spec.named_first_pods estate.now }
        ensures folded { IfOk result (λ workloads. workloads ≡ spec.folding_of estate.now) }
        ensures no_count { (count : ℕ) → result ≢ Err (TooManyWorkloads count) }
    {
        let firsts = classes.firsts.items();
        let kinds = kinds_of_workloads(alloc, estate, relevant.items(), cidrs, firsts, named)?;
        let numbers = numbers_by_name(alloc, classes.numbers.items(), named)?;
        let by_name = members_by_name(alloc, named, numbers.items())?;
        Ok(Workloads {
            by_name,
            numbers,
            kinds,
            relevant,
        })
    }

    /// How many workloads there are.
    pub fn count(&self) -> u32
        ensures { result ≡ length self.now.workloads }
    {
        self.by_name.len() as u32
    }

    /// The number of a pod's workload.
    pub fn workload_of(&self, pod: u32) -> u32
        requires { pod < length self.now.numbers }
        ensures { result ≡ slice_index self.now.numbers pod }
    {
        self.numbers.items()[pod as usize]
    }

    /// The places of the pods of a workload, in ascending order.
    pub fn members(&self, workload: u32) -> &[u32]
        requires { workload < length self.now.workloads }
        ensures { result.now ≡ spec.members_of self.now workload }
    {
        match self.by_name.get_index(workload as usize) {
            Some((_, members)) => members.items(),
            None => &[],
        }
    }

    /// The name of a workload: `namespace/name[Kind]` of its top owner, and `#1`, `#2` and so on behind it where the owner
    /// has several workloads.
    pub fn name(&self, workload: u32) -> &str
        requires { workload < length self.now.workloads }
        ensures { result.now ≡ spec.name_of_workload self.now workload }
    {
        match self.by_name.get_index(workload as usize) {
            Some((name, _)) => name.as_str(),
            None => "",
        }
    }

    /// The number of the workload of a name. `None` exactly where no workload has it.
    pub fn by_name(&self, name: &str) -> Option<u32>
        ensures { result ≡ spec.number_named self.now name.now }
    {
        match self.by_name.get_index_of(name) {
            Some(number) => Some(number as u32),
            None => None,
        }
    }

    /// How many kinds of workloads there are. Two workloads are of one kind where their pods differ at most in their top
    /// owners to every rule.
    pub fn kinds(&self) -> u32
        ensures { result ≡ self.now.kind_count }
    {
        self.kinds.firsts.items().len() as u32
    }

    /// The first workload of each kind, in the order of the kinds' numbers.
    pub fn first_of_kinds(&self) -> &[u32]
        ensures { result.now ≡ self.now.first_of_kinds }
    {
        self.kinds.firsts.items()
    }

    /// The number of a workload's kind. Kinds are numbered from 0 by the first workload of each.
    pub fn kind_of(&self, workload: u32) -> u32
        requires { workload < length self.now.kinds }
        ensures { result ≡ slice_index self.now.kinds workload }
    {
        self.kinds.numbers.items()[workload as usize]
    }

    /// The keys of labels that some selector of a policy or service names, each once, in the order of their bytes.
    pub fn relevant(&self) -> &[Text]
        ensures { result.now ≡ self.now.relevant }
    {
        self.relevant.items()
    }
}
