//! The numbers that the first of two lists of ranges has and the second has not.
ghost use Rattle.std.specs.Prelude.{ℕ, ◌≡◌, ◌&&◌, not, IfOk};
ghost use Rattle.np_base.specs.Ranges.{holds, IsAscending};

use crate::complement::complement_ranges;
use crate::meet::meet_ranges;
use crate::ranges::Ranges;
use np_base::{NoMemory, Point, Range};
use std::alloc::Global;

/// The ranges of the numbers that the first list has and the second has not.
pub fn subtract_ranges<P: Point>(
    alloc: Global,
    left: &[Range<P>],
    right: &[Range<P>],
) -> Result<Ranges<P>, NoMemory>
    requires left { IsAscending P.number_of P.LOW P.HIGH left.now }
    requires right { IsAscending P.number_of P.LOW P.HIGH right.now }
    ensures members { IfOk result (λ made. (n : ℕ) →
        holds P.number_of made.items n
        ≡ (holds P.number_of left.now n && not (holds P.number_of right.now n))) }
    ensures ascending { IfOk result (λ made. IsAscending P.number_of P.LOW P.HIGH made.items) }
{
    let others = complement_ranges(alloc, right)?;
    meet_ranges(alloc, left, others.as_slice())
}
