//! Places by their numbers.
ghost use Rattle.std.specs.Prelude.{◌≡◌, ◌<◌, ◌^◌, [], ◌∷◌, ◌++◌, All, IfOk, OnOk, length, map, slice_index_or, slice_set};
ghost use Rattle.np_classes.specs.Classes as spec;

use np_base::{NoMemory, Seq};
use std::alloc::Global;

/// For each number below `count` the places that have it, in ascending order.
pub fn groups(alloc: Global, numbers: &[u32], count: u32) -> Result<Seq<Seq<u32>>, NoMemory>
    requires few { length numbers.now < 2 ^ 32 }
    requires within { All (λ number. number < count) numbers.now }
    ensures { IfOk result (λ made. made ≡ map (spec.numbered numbers.now) (spec.places count)) }
{
    let mut made = blanks(alloc, count)?;
    for (place, number) in numbers.iter().enumerate() {
        put(&mut made, *number, place as u32)?;
    }
    Ok(Seq::from_vec(made))
}

// That many empty lists.
fn blanks(alloc: Global, count: u32) -> Result<Vec<Seq<u32>>, NoMemory>
    ensures { IfOk result (λ made. made.items ≡ map (spec.numbered []) (spec.places count)) }
{
    let mut made = Vec::new(alloc);
    for _blank in 0..count {
        made.push(Seq::new(alloc))?;
    }
    Ok(made)
}

// Puts a place last in the list of its number.
fn put(groups: &mut [Seq<u32>], number: u32, place: u32) -> Result<(), NoMemory>
    requires { number < length groups.old }
    ensures { OnOk result (groups.new
        ≡ slice_set groups.old number (slice_index_or groups.old number [] ++ place ∷ [])) }
{
    groups[number as usize].push(place)
}
