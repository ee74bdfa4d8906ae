//! The labels of an object.
ghost use Rattle.std.specs.Prelude.{◌≡◌, List, ℕ, IfOk, map};
ghost use Rattle.std.specs.Option.{option_map};
ghost use Rattle.np_labels.specs.Labels.{value_of, last_value_of, labels_of, HasAscendingKeys};

use crate::pair::Pair;
use np_base::{NoMemory, Seq, Text, TryCopy};
use std::alloc::Global;
use std::collections::BTreeMap;
use std::marker::Model;

/// The labels of an object, each key once. Contracts see the list of pairs, whose keys ascend by their bytes.
#[derive(Debug, Drop)]
pub struct Labels {
    pairs: Vec<Pair>,
}

impl Model for Labels {
    ghost use Rattle.std.specs.Prelude.{List};
    ghost use Rattle.np_labels.specs.declared.pair.Pair.{Pair};
    ghost use Rattle.np_labels.specs.Labels.{HasAscendingKeys};

    ghost Value = { List Pair };

    ghost view = { λ labels. labels.pairs.items };

    ghost invariant = { λ labels. HasAscendingKeys labels.pairs.items };
}

impl Labels {
    /// The labels of these pairs. A later pair of a key replaces an earlier one.
    pub fn of(alloc: Global, pairs: Seq<Pair>) -> Result<Labels, NoMemory>
        ensures values { IfOk result
            (λ made. (key : List ℕ) → value_of made key ≡ last_value_of pairs key) }
        ensures ascending { IfOk result HasAscendingKeys }
        ensures exact { IfOk result (λ made. made ≡ labels_of pairs) }
    {
        let pairs = pairs_of(alloc, last_values(alloc, pairs)?)?;
        Ok(Labels { pairs })
    }

    /// The labels of pairs whose keys ascend.
    pub(crate) fn from_pairs(pairs: Vec<Pair>) -> Labels
        requires { HasAscendingKeys pairs.items }
        ensures { result ≡ pairs.items }
    {
        Labels { pairs }
    }

    /// The value of a key, or `None` where the key is absent.
    pub fn get(&self, key: &str) -> Option<&str>
        ensures { option_map (λ value. value.now) result ≡ value_of self.now key.now }
    {
        find_value(&self.pairs, key)
    }

    /// The pairs, lent, in ascending order of their keys.
    pub fn pairs(&self) -> &[Pair]
        ensures value { result.now ≡ self.now }
        ensures ascending { HasAscendingKeys self.now }
    {
        &self.pairs
    }

    /// Equal labels in memory of their own.
    pub fn copy(&self) -> Result<Labels, NoMemory>
        ensures { IfOk result (λ made. made ≡ self.now) }
    {
        self.try_copy(*self.pairs.allocator())
    }
}

impl TryCopy for Labels {
    fn try_copy(&self, alloc: Global) -> Result<Labels, NoMemory> {
        let pairs = copy_pairs(alloc, &self.pairs)?;
        Ok(Labels { pairs })
    }
}

// So many labels are gone over faster than they are halved.
const FEW: usize = 8;

// The value of a key. Of many labels it is looked for by halves.
fn find_value<'a>(pairs: &'a [Pair], key: &str) -> Option<&'a str>
    requires { HasAscendingKeys pairs.now }
    ensures { option_map (λ value. value.now) result ≡ value_of pairs.now key.now }
{
    if pairs.len() <= FEW {
        return find_among_few(pairs, key);
    }
    match pairs.binary_search_by(|pair| pair.key.as_str().cmp(key)) {
        Ok(place) => Some(pairs[place].value.as_str()),
        Err(_) => None,
    }
}

// The value of the first pair of a key.
fn find_among_few<'a>(pairs: &'a [Pair], key: &str) -> Option<&'a str>
    ensures { option_map (λ value. value.now) result ≡ value_of pairs.now key.now }
{
    for pair in pairs {
        if pair.key.as_str() == key {
            return Some(pair.value.as_str());
        }
    }
    None
}

// Each key with the value of its last pair.
fn last_values(alloc: Global, pairs: Seq<Pair>) -> Result<BTreeMap<Text, Text>, NoMemory>
    ensures { IfOk result (λ made.
        map (λ entry. record { key = entry.0; value = entry.1 }) made.entries ≡ labels_of pairs) }
{
    let mut made = BTreeMap::new(alloc);
    for Pair { key, value } in pairs.into_vec() {
        made.insert(key, value)?;
    }
    Ok(made)
}

// The entries of a map as pairs, in the order of the keys.
fn pairs_of(alloc: Global, entries: BTreeMap<Text, Text>) -> Result<Vec<Pair>, NoMemory>
    ensures { IfOk result
        (λ made. made.items ≡ map (λ entry. record { key = entry.0; value = entry.1 }) entries.entries) }
{
    let mut made = Vec::new(alloc);
    for (key, value) in entries {
        made.push(Pair { key, value })?;
    }
    Ok(made)
}

// Copies of the pairs, in order.
fn copy_pairs(alloc: Global, pairs: &[Pair]) -> Result<Vec<Pair>, NoMemory>
    ensures { IfOk result (λ made. made.items ≡ pairs.now) }
{
    let mut made = Vec::with_capacity(alloc, pairs.len())?;
    for pair in pairs {
        made.push(pair.try_copy(alloc)?)?;
    }
    Ok(made)
}
