//! Labels, by example.

use np_base::{NoMemory, Seq, Text};
use np_labels::{Labels, Pair, SharedLabels};
use std::alloc::Global;
use std::test::Fail;

/// A key and its value.
pub fn pair(alloc: Global, key: &str, value: &str) -> Result<Pair, NoMemory> {
    let key = Text::of(alloc, key)?;
    let value = Text::of(alloc, value)?;
    Ok(Pair { key, value })
}

// Three pairs, of which a later one replaces an earlier one of its key.
fn three_pairs(alloc: Global) -> Result<Labels, NoMemory> {
    let mut pairs = Seq::new(alloc);
    pairs.push(pair(alloc, "b", "1")?)?;
    pairs.push(pair(alloc, "a", "2")?)?;
    pairs.push(pair(alloc, "b", "3")?)?;
    Labels::of(alloc, pairs)
}

// Whether a copy of these labels that is shared has two pairs, whose keys ascend.
fn is_shared(alloc: Global) -> Result<bool, NoMemory> {
    let copied = three_pairs(alloc)?.copy()?;
    let shared = SharedLabels::of(alloc, copied)?.share()?;
    Ok(match shared.labels().pairs() {
        [first, second] => is_pair(first, "a", "2") && is_pair(second, "b", "3"),
        _ => false,
    })
}

fn is_pair(pair: &Pair, key: &str, value: &str) -> bool {
    pair.key.as_str() == key && pair.value.as_str() == value
}

#[test]
fn last_values_of_keys(rt: HostRuntime) -> Result<(), Fail> {
    assert!(rt; is_shared(rt.alloc())?);
    Ok(())
}
