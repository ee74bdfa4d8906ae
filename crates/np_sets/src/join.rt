//! The numbers that either of two lists of ranges has.
ghost use Rattle.std.specs.Prelude.{ℕ, ◌≡◌, ◌+◌, ◌≤◌, ◌||◌, [], IfOk, IsTrue, ◌↔◌, MatchOption, max};
ghost use Rattle.np_base.specs.Ranges.{holds, IsAscending};
ghost use Rattle.np_sets.specs.Growing.{GrowsTo};
ghost use Rattle.np_sets.specs.Steps.{IsEarlier};

use crate::ranges::Ranges;
use np_base::{NoMemory, Point, Range};
use std::alloc::Global;

// The range that begins first in two lists, and the lists without it.
#[derive(Clone, Copy)]
struct Earlier<'a, P> {
    range: Range<P>,
    left: &'a [Range<P>],
    right: &'a [Range<P>],
}

/// The ranges of the numbers that either list has, in one pass over both.
pub fn join_ranges<P: Point>(
    alloc: Global,
    left: &[Range<P>],
    right: &[Range<P>],
) -> Result<Ranges<P>, NoMemory>
    requires left { IsAscending P.number_of P.LOW P.HIGH left.now }
    requires right { IsAscending P.number_of P.LOW P.HIGH right.now }
    ensures members { IfOk result (λ made. (n : ℕ) →
        holds P.number_of made.items n
        ≡ (holds P.number_of left.now n || holds P.number_of right.now n)) }
    ensures ascending { IfOk result (λ made. IsAscending P.number_of P.LOW P.HIGH made.items) }
{
    let mut made = Ranges::new(alloc);
    let Some(first) = take_earlier(left, right) else {
        return Ok(made);
    };
    let mut growing = first.range;
    let mut left = first.left;
    let mut right = first.right;
    while let Some(next) = take_earlier(left, right) {
        growing = grow(&mut made, growing, next.range)?;
        left = next.left;
        right = next.right;
    }
    made.push(growing)?;
    Ok(made)
}

// Takes the range that begins first off the lists. `None` where both are empty.
fn take_earlier<'a, P: Point>(left: &'a [Range<P>], right: &'a [Range<P>]) -> Option<Earlier<'a, P>>
    ensures { MatchOption result ((left.now ≡ []) × (right.now ≡ []))
        (λ taken. IsEarlier P.number_of
        left.now right.now taken.range taken.left.now taken.right.now) }
{
    let Some((first_left, left_rest)) = left.split_first() else {
        let (first_right, right_rest) = right.split_first()?;
        return Some(Earlier {
            range: *first_right,
            left,
            right: right_rest,
        });
    };
    let Some((first_right, right_rest)) = right.split_first() else {
        return Some(Earlier {
            range: *first_left,
            left: left_rest,
            right,
        });
    };
    if first_left.lo.number() <= first_right.lo.number() {
        Some(Earlier {
            range: *first_left,
            left: left_rest,
            right,
        })
    } else {
        Some(Earlier {
            range: *first_right,
            left,
            right: right_rest,
        })
    }
}

/// Widens the growing range by the next one where they touch. Else puts it last of what is made, and the
/// next one grows.
pub(crate) fn grow<P: Point>(
    made: &mut Ranges<P>,
    growing: Range<P>,
    next: Range<P>,
) -> Result<Range<P>, NoMemory>
    requires { P.number_of growing.lo ≤ P.number_of next.lo }
    ensures { IfOk result (λ grown. GrowsTo P.number_of P.LOW P.HIGH
        made.old.items growing next made.new.items grown) }
{
    if is_touching(growing, next) {
        return Ok(widened(growing, next));
    }
    made.push(growing)?;
    Ok(next)
}

// Whether no number is missing between the growing range and the next one, which does not begin before it.
// The greatest number has no next one, so it goes by the difference.
fn is_touching<P: Point>(growing: Range<P>, next: Range<P>) -> bool
    ensures { IsTrue result ↔ (P.number_of next.lo ≤ P.number_of growing.hi + 1) }
{
    let last = growing.hi.number();
    let first = next.lo.number();
    first <= last || first - last <= 1
}

// The growing range, up to the greater last number of the two.
fn widened<P: Point>(growing: Range<P>, next: Range<P>) -> Range<P>
    ensures first { result.lo ≡ growing.lo }
    ensures last { P.number_of result.hi ≡ max (P.number_of growing.hi) (P.number_of next.hi) }
{
    if growing.hi.number() < next.hi.number() {
        Range {
            lo: growing.lo,
            hi: next.hi,
        }
    } else {
        growing
    }
}
