//! Numbers by name.
ghost use Rattle.std.specs.Prelude.{◌≡◌, ◌<◌, ◌^◌, ℕ, All, IfOk, length, map, slice_index};
ghost use Rattle.np_fold.specs.steps.Folded as spec;

use np_base::{NoMemory, Seq};
use np_names::Named;
use std::alloc::Global;

/// The numbers of things among those in order, where `classes` has the place of each.
pub(crate) fn numbers_by_name(
    alloc: Global,
    classes: &[u32],
    named: &[Named],
) -> Result<Seq<u32>, NoMemory>
    requires few { length named.now < 2 ^ 32 }
    requires places { All (λ one. one.place < length named.now) named.now }
    requires classes { All (λ class. class < length named.now) classes.now }
    ensures { IfOk result (λ made. made ≡ map (spec.number_among named.now) classes.now) }
{
    let ranks = ranks(alloc, named)?;
    let mut numbers = Seq::new(alloc);
    for class in classes {
        numbers.push(ranks[*class as usize])?;
    }
    Ok(numbers)
}

// The number of each place among those in order. It goes backwards, so that the first number of a place stays.
fn ranks(alloc: Global, named: &[Named]) -> Result<Vec<u32>, NoMemory>
    requires few { length named.now < 2 ^ 32 }
    requires places { All (λ one. one.place < length named.now) named.now }
    ensures count { IfOk result (λ made. length made.items ≡ length named.now) }
    ensures each { IfOk result (λ made. (place : ℕ) → place < length named.now →
        slice_index made.items place ≡ spec.number_among named.now place) }
{
    let mut ranks = vec![in alloc; named.len() as u32; named.len()]?;
    for number in (0..named.len()).rev() {
        ranks[named[number].place as usize] = number as u32;
    }
    Ok(ranks)
}
