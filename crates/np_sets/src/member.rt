//! Whether a list of ranges has a number.
ghost use Rattle.std.specs.Prelude.{◌≡◌};
ghost use Rattle.np_base.specs.Ranges.{is_within, holds};

use np_base::{Point, Range};

/// Whether the number is in one of the ranges.
pub fn has_number<P: Point>(ranges: &[Range<P>], number: u128) -> bool
    ensures { result ≡ holds P.number_of ranges.now number }
{
    for range in ranges {
        if is_in_range(range, number) {
            return true;
        }
    }
    false
}

// Whether the number is in the range, ends included.
fn is_in_range<P: Point>(range: &Range<P>, number: u128) -> bool
    ensures { result ≡ is_within P.number_of range.now number }
{
    range.lo.number() <= number && number <= range.hi.number()
}
