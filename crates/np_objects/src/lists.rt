//! Values that may be missing, alone and in lists.
ghost use Rattle.std.specs.Prelude.{◌≡◌, ◌++◌, IfOk};
ghost use Rattle.std.specs.List.{filter_map, flat_map};
ghost use Rattle.std.specs.Option.{option_to_list};
ghost use Rattle.np_objects.specs.Lists as lists;

use np_base::{NoMemory, Seq, Text};
use std::alloc::Global;

/// A text, unless it is empty: the empty text counts as missing.
pub(crate) fn unless_empty(text: Text) -> Option<Text>
    ensures { result ≡ lists.unless_empty text }
{
    if text.as_str().is_empty() {
        None
    } else {
        Some(text)
    }
}

/// The values that are there, in order.
pub(crate) fn somes<T: Drop>(alloc: Global, found: Seq<Option<T>>) -> Result<Seq<T>, NoMemory>
    ensures { IfOk result (λ made. made ≡ filter_map (λ value. value) found) }
{
    let mut values = Seq::new(alloc);
    for value in found.into_vec() {
        if let Some(value) = value {
            values.push(value)?;
        }
    }
    Ok(values)
}

/// The items of all the lists, one list after another.
pub(crate) fn joined<T: Drop>(alloc: Global, lists: Seq<Seq<T>>) -> Result<Seq<T>, NoMemory>
    ensures { IfOk result (λ made. made ≡ flat_map (λ items. items) lists) }
{
    let mut all = Vec::new(alloc);
    for items in lists.into_vec() {
        let mut more = items.into_vec();
        all.append(&mut more)?;
    }
    Ok(Seq::from_vec(all))
}

/// A value, if there is one, and then those of a list.
pub(crate) fn put_first<T: Drop>(first: Option<T>, rest: Seq<T>) -> Result<Seq<T>, NoMemory>
    ensures { IfOk result (λ made. made ≡ option_to_list first ++ rest) }
{
    let mut all = rest.into_vec();
    if let Some(first) = first {
        all.insert(0, first)?;
    }
    Ok(Seq::from_vec(all))
}
