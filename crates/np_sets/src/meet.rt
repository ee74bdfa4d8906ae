//! The numbers that both of two lists of ranges have.
ghost use Rattle.std.specs.Prelude.{ℕ, ◌≡◌, ◌&&◌, ◌++◌, false, option_to_list, IfOk, OnOk, MatchOption};
ghost use Rattle.np_base.specs.Ranges.{holds, IsAscending};
ghost use Rattle.np_sets.specs.Steps.{IsShared, IsOverlap};

use crate::ranges::Ranges;
use np_base::{NoMemory, Point, Range, earlier, later};
use std::alloc::Global;

// What the first ranges of two lists share, and the lists without the one of them that ends first.
#[derive(Clone, Copy)]
struct Overlap<'a, P> {
    range: Option<Range<P>>,
    left: &'a [Range<P>],
    right: &'a [Range<P>],
}

/// The ranges of the numbers that both lists have, in one pass over both.
pub fn meet_ranges<P: Point>(
    alloc: Global,
    left: &[Range<P>],
    right: &[Range<P>],
) -> Result<Ranges<P>, NoMemory>
    requires left { IsAscending P.number_of P.LOW P.HIGH left.now }
    requires right { IsAscending P.number_of P.LOW P.HIGH right.now }
    ensures members { IfOk result (λ made. (n : ℕ) →
        holds P.number_of made.items n
        ≡ (holds P.number_of left.now n && holds P.number_of right.now n)) }
    ensures ascending { IfOk result (λ made. IsAscending P.number_of P.LOW P.HIGH made.items) }
{
    let mut made = Ranges::new(alloc);
    let mut left = left;
    let mut right = right;
    while let Some(step) = take_overlap(left, right) {
        push_some(&mut made, step.range)?;
        left = step.left;
        right = step.right;
    }
    Ok(made)
}

// What the first ranges of the lists share, and what is left to go through. `None` where the lists share
// nothing.
fn take_overlap<'a, P: Point>(left: &'a [Range<P>], right: &'a [Range<P>]) -> Option<Overlap<'a, P>>
    requires left { IsAscending P.number_of P.LOW P.HIGH left.now }
    requires right { IsAscending P.number_of P.LOW P.HIGH right.now }
    ensures { MatchOption result
        ((n : ℕ) → (holds P.number_of left.now n && holds P.number_of right.now n) ≡ false)
        (λ step. IsOverlap P.number_of P.LOW P.HIGH
        left.now right.now step.range step.left.now step.right.now) }
{
    let Some((first_left, left_rest)) = left.split_first() else {
        return None;
    };
    let Some((first_right, right_rest)) = right.split_first() else {
        return None;
    };
    let range = shared(*first_left, *first_right);
    if first_left.hi.number() <= first_right.hi.number() {
        Some(Overlap {
            range,
            left: left_rest,
            right,
        })
    } else {
        Some(Overlap {
            range,
            left,
            right: right_rest,
        })
    }
}

// The range of the numbers that two ranges share, if they share any.
fn shared<P: Point>(left: Range<P>, right: Range<P>) -> Option<Range<P>>
    ensures { IsShared P.number_of left right result }
{
    let lo = later(left.lo, right.lo);
    let hi = earlier(left.hi, right.hi);
    if lo.number() <= hi.number() {
        Some(Range { lo, hi })
    } else {
        None
    }
}

// Puts the range last, if there is one.
fn push_some<P: Point>(ranges: &mut Ranges<P>, range: Option<Range<P>>) -> Result<(), NoMemory>
    ensures { OnOk result (ranges.new.items ≡ ranges.old.items ++ option_to_list range) }
{
    if let Some(more) = range {
        ranges.push(more)?;
    }
    Ok(())
}
