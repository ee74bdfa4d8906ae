//! Whether two lists have the same ranges.
ghost use Rattle.std.specs.Prelude.{◌≡◌};
ghost use Rattle.np_sets.specs.Alike.{is_alike, are_alike};

use np_base::{Point, Range};

/// Whether two lists have ranges between the same numbers, in the same order.
pub fn same_ranges<P: Point>(left: &[Range<P>], right: &[Range<P>]) -> bool
    ensures { result ≡ are_alike P.number_of left.now right.now }
{
    let mut left = left;
    let mut right = right;
    while let Some((first, left_rest)) = left.split_first() {
        let Some((second, right_rest)) = right.split_first() else {
            return false;
        };
        if !same_range(first, second) {
            return false;
        }
        left = left_rest;
        right = right_rest;
    }
    right.is_empty()
}

// Whether two ranges are between the same numbers.
fn same_range<P: Point>(left: &Range<P>, right: &Range<P>) -> bool
    ensures { result ≡ is_alike P.number_of left.now right.now }
{
    left.lo.number() == right.lo.number() && left.hi.number() == right.hi.number()
}
