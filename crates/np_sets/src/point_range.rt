//! Ranges between two numbers of a space.
ghost use Rattle.std.specs.Prelude.{◌≡◌, ◌≤◌};

use np_base::{Point, Range};

/// The points from the number `lo` to the number `hi`, both included.
pub fn range_between<P: Point>(lo: u128, hi: u128) -> Range<P>
    requires low { P.LOW ≤ lo }
    requires ordered { lo ≤ hi }
    requires high { hi ≤ P.HIGH }
    ensures first { P.number_of result.lo ≡ lo }
    ensures last { P.number_of result.hi ≡ hi }
{
    Range {
        lo: point_at(lo),
        hi: point_at(hi),
    }
}

// The point of a number of the space.
fn point_at<P: Point>(number: u128) -> P
    requires low { P.LOW ≤ number }
    requires high { number ≤ P.HIGH }
    ensures { P.number_of result ≡ number }
{
    P::at(number).unwrap()
}
