//! The ranges of single points.
ghost use Rattle.std.specs.Prelude.{ℕ, ◌≡◌, ◌≤◌, ◌==◌, IfOk};
ghost use Rattle.std.specs.List.{list_any};
ghost use Rattle.std.specs.List.Sorted.{IsNonDecreasingBy};
ghost use Rattle.np_base.specs.Ranges.{holds, IsAscending};

use crate::join::grow;
use crate::ranges::Ranges;
use np_base::{NoMemory, Point, Range};
use std::alloc::Global;

/// The ranges of the numbers of some points, which stand in ascending order, equal ones beside each other, in one pass.
pub fn point_ranges<P: Point>(alloc: Global, points: &[P]) -> Result<Ranges<P>, NoMemory>
    requires { IsNonDecreasingBy P.number_of points.now }
    ensures members { IfOk result (λ made. (n : ℕ) →
        holds P.number_of made.items n ≡ list_any (λ point. P.number_of point == n) points.now) }
    ensures ascending { IfOk result (λ made. IsAscending P.number_of P.LOW P.HIGH made.items) }
{
    let mut made = Ranges::new(alloc);
    let Some((first, rest)) = points.split_first() else {
        return Ok(made);
    };
    let mut growing = range_of(*first);
    let mut left = rest;
    while let Some((next, others)) = left.split_first() {
        growing = grow(&mut made, growing, range_of(*next))?;
        left = others;
    }
    made.push(growing)?;
    Ok(made)
}

// The range of one point.
fn range_of<P: Point>(point: P) -> Range<P>
    ensures range { result ≡ record { lo = point; hi = point } }
    ensures low { P.LOW ≤ P.number_of point }
    ensures high { P.number_of point ≤ P.HIGH }
{
    // A point that tells its number is one of the space.
    let _number = point.number();
    Range {
        lo: point,
        hi: point,
    }
}
