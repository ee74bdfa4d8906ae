//! What rules see of a pod.
ghost use Rattle.std.specs.Prelude.{◌≡◌, IfOk, map};
ghost use Rattle.std.specs.Cmp.Lexicographic.{slice_cmp};
ghost use Rattle.std.specs.List.{filter_map};
ghost use Rattle.std.specs.List.Sorted.{IsStrictlySortedBy};
ghost use Rattle.std.specs.Ordering.{nat_cmp};
ghost use Rattle.np_fold.specs.Traits as spec;
ghost use Rattle.np_labels.specs.Prelude.{HasAscendingKeys, is_listed};

use np_addr::{Addresses, Cidr};
use np_base::{NoMemory, Seq, Text, TryCopy};
use np_labels::Pair;
use np_model::{NamedPort, Owner, Pod};
use std::alloc::Global;

/// A label that rules see. Labels are ordered by their keys, and those of one key by their values.
#[derive(Drop, PartialEq, Eq, PartialOrd, Ord)]
pub struct Label {
    pub key: Text,
    pub value: Text,
}

/// What rules see of a pod, and its top owner. Pods with equal traits are alike.
pub struct Traits {
    pub namespace: Text,
    pub owner: Owner,
    /// The labels of relevant keys, in the order of the keys.
    pub labels: Seq<Label>,
    pub ports: Seq<NamedPort>,
    /// The places of the listed blocks that some address of the pod is in, in ascending order.
    pub blocks: Seq<u64>,
}

// Written out, so that letting one go is one call.
impl Drop for Traits {
    fn drop(self) {
        let Traits {
            namespace: _namespace,
            owner: _owner,
            labels: _labels,
            ports: _ports,
            blocks: _blocks,
        } = self;
    }
}

impl Traits {
    /// The traits of a pod by these keys, which ascend, and these blocks.
    pub fn of(alloc: Global, pod: &Pod, keys: &[Text], cidrs: &[Cidr]) -> Result<Traits, NoMemory>
        requires { IsStrictlySortedBy (slice_cmp nat_cmp) keys.now }
        ensures { IfOk result (λ made. made ≡ spec.traits_of keys.now cidrs.now pod.now) }
    {
        let owner = pod.owner.try_copy(alloc)?;
        traits_with(alloc, pod, owner, keys, cidrs)
    }

    /// The traits of pods by these keys, which ascend, and these blocks, in order.
    pub fn of_all(
        alloc: Global,
        pods: &[Pod],
        keys: &[Text],
        cidrs: &[Cidr],
    ) -> Result<Seq<Traits>, NoMemory>
        requires { IsStrictlySortedBy (slice_cmp nat_cmp) keys.now }
        ensures { IfOk result (λ made. made ≡ map (spec.traits_of keys.now cidrs.now) pods.now) }
    {
        let mut made = Seq::new(alloc);
        for pod in pods {
            made.push(Traits::of(alloc, pod, keys, cidrs)?)?;
        }
        Ok(made)
    }
}

/// The traits of a pod as if this were its owner, by these keys, which ascend, and these blocks.
pub(crate) fn traits_with(
    alloc: Global,
    pod: &Pod,
    owner: Owner,
    keys: &[Text],
    cidrs: &[Cidr],
) -> Result<Traits, NoMemory>
    requires { IsStrictlySortedBy (slice_cmp nat_cmp) keys.now }
    ensures { IfOk result (λ made. made ≡ spec.with_owner owner (spec.traits_of keys.now cidrs.now pod.now)) }
{
    Ok(Traits {
        owner,
        namespace: pod.namespace.copy()?,
        labels: labels_of(alloc, pod.labels.pairs(), keys)?,
        ports: pod.ports.try_copy(alloc)?,
        blocks: blocks_of(alloc, &pod.addresses, cidrs)?,
    })
}

// The labels of these keys, in their order.
fn labels_of(alloc: Global, pairs: &[Pair], keys: &[Text]) -> Result<Seq<Label>, NoMemory>
    requires pairs { HasAscendingKeys pairs.now }
    requires keys { IsStrictlySortedBy (slice_cmp nat_cmp) keys.now }
    ensures { IfOk result (λ made. made ≡ filter_map (spec.label_of pairs.now) keys.now) }
{
    let mut labels = Seq::new(alloc);
    for pair in pairs {
        if is_listed(keys, &pair.key) {
            labels.push(label_of(pair)?)?;
        }
    }
    Ok(labels)
}

// A pair as a label.
fn label_of(pair: &Pair) -> Result<Label, NoMemory>
    ensures key { IfOk result (λ made. made.key ≡ pair.now.key) }
    ensures value { IfOk result (λ made. made.value ≡ pair.now.value) }
{
    Ok(Label {
        key: pair.key.copy()?,
        value: pair.value.copy()?,
    })
}

// Whether a key is one of these. It is looked up by halves.
fn is_listed(keys: &[Text], key: &Text) -> bool
    requires { IsStrictlySortedBy (slice_cmp nat_cmp) keys.now }
    ensures { result ≡ is_listed keys.now key.now }
{
    keys.binary_search(key).is_ok()
}

// The places of the blocks that some address is in, in ascending order.
fn blocks_of(alloc: Global, addresses: &Addresses, cidrs: &[Cidr]) -> Result<Seq<u64>, NoMemory>
    ensures { IfOk result (λ made. made ≡ spec.blocks_of cidrs.now addresses.now) }
{
    let mut blocks = Seq::new(alloc);
    for (place, cidr) in cidrs.iter().enumerate() {
        if addresses.some_in(cidr) {
            blocks.push(place as u64)?;
        }
    }
    Ok(blocks)
}
