//! The numbers of a space that no range has.
ghost use Rattle.std.specs.Prelude.{ℕ, ◌≡◌, ◌+◌, ◌≤◌, ◌&&◌, ◌||◌, not, nat_le, nat_lt, IfOk, OnOk};
ghost use Rattle.np_base.specs.Ranges.{holds, IsAscending};
ghost use Rattle.np_sets.specs.Growing.{IsAscendingUpTo};
ghost use Rattle.np_sets.specs.Space.{is_between};

use crate::point_range::range_between;
use crate::ranges::Ranges;
use np_base::{NoMemory, Point, Range};
use std::alloc::Global;

/// The ranges of the numbers of the space that none of the ranges has, in one pass.
pub fn complement_ranges<P: Point>(
    alloc: Global,
    ranges: &[Range<P>],
) -> Result<Ranges<P>, NoMemory>
    requires { IsAscending P.number_of P.LOW P.HIGH ranges.now }
    ensures members { IfOk result (λ made. (n : ℕ) →
        holds P.number_of made.items n
        ≡ (is_between P.LOW P.HIGH n && not (holds P.number_of ranges.now n))) }
    ensures ascending { IfOk result (λ made. IsAscending P.number_of P.LOW P.HIGH made.items) }
{
    let mut gaps = Ranges::new(alloc);
    let mut from = P::LOW;
    for range in ranges {
        push_gap(&mut gaps, from, range.lo.number())?;
        let last = range.hi.number();
        if last == P::HIGH {
            return Ok(gaps);
        }
        from = last + 1;
    }
    gaps.push(range_between(from, P::HIGH))?;
    Ok(gaps)
}

// Puts last the range from the number `from` to the one before `to`, where there is any.
fn push_gap<P: Point>(gaps: &mut Ranges<P>, from: u128, to: u128) -> Result<(), NoMemory>
    requires low { P.LOW ≤ from }
    requires ordered { from ≤ to }
    requires high { to ≤ P.HIGH }
    ensures members { OnOk result ((n : ℕ) →
        holds P.number_of gaps.new.items n
        ≡ (holds P.number_of gaps.old.items n || (nat_le from n && nat_lt n to))) }
    ensures ascending { OnOk result (
        IsAscendingUpTo P.number_of P.LOW P.HIGH gaps.old.items from
        → IsAscendingUpTo P.number_of P.LOW P.HIGH gaps.new.items (to + 1)) }
{
    if from < to {
        gaps.push(range_between(from, to - 1))?;
    }
    Ok(())
}
