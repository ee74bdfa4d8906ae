//! The join of many sets.
ghost use Rattle.std.specs.Prelude.{◌≡◌, IfOk};
ghost use Rattle.std.specs.List.{list_any};

use crate::cells::Cells;
use crate::no_memory::NoMemory;
use std::alloc::Global;

/// The spots that some of the sets has. Want of memory is the one refusal.
///
/// Sets are joined in halves: the joins of the two halves of the list are joined, each made in the same way. So each
/// set takes part in as many joins as the logarithm of how many sets there are, and n sets of a few ranges each
/// take time n log n. No sets cost the empty set, and one set its copy.
pub fn join_all<S: Cells>(alloc: Global, sets: &[S]) -> Result<S, NoMemory>
    ensures members { IfOk result (λ made. (spot : S.Spot) →
        S.has made spot ≡ list_any (λ set. S.has set spot) sets.now) }
    ensures well { IfOk result S.IsWell }
{
    match sets {
        [] => S::nothing(alloc),
        [set] => set.copy(),
        _ => {
            let (front, back) = sets.split_at(sets.len() / 2);
            let joined = join_all(alloc, front)?.join(&join_all(alloc, back)?)?;
            Ok(joined)
        }
    }
}
