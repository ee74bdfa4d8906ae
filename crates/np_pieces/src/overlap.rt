//! Steps of one pass over two lists of pieces.
ghost use Rattle.std.specs.Prelude.{ℕ, ◌≡◌, ◌<◌, ◌≤◌, MatchOption};
ghost use Rattle.np_pieces.specs.Steps.{GoOn, IsOverlap};

use crate::piece::Piece;
use np_base::{Cells, Point, earlier, later};

/// Where the first pieces of two lists overlap, their values, and what is left to go through.
#[derive(Drop)]
pub struct Overlap<'a, P, S> {
    pub lo: P,
    pub hi: P,
    pub first: &'a S,
    pub second: &'a S,
    pub left: &'a [Piece<P, S>],
    pub right: &'a [Piece<P, S>],
}

/// The next overlap of two lists. `None` where they have ended.
pub fn take_overlap<'a, P: Point, S: Cells>(
    left: &'a [Piece<P, S>],
    right: &'a [Piece<P, S>],
) -> Option<Overlap<'a, P, S>>
    ensures { MatchOption result
        ((from to : ℕ) → GoOn P.number_of S.IsWell from to left.now right.now → from ≡ to)
        (λ step. IsOverlap P.number_of S.IsWell
        left.now right.now step.lo step.hi step.first.now step.second.now step.left.now step.right.now) }
{
    let Some((first, left_rest)) = left.split_first() else {
        return None;
    };
    let Some((second, right_rest)) = right.split_first() else {
        return None;
    };
    let hi = earlier(first.hi, second.hi);
    Some(Overlap {
        lo: later(first.lo, second.lo),
        hi,
        first: &first.value,
        second: &second.value,
        left: after(left, first, left_rest, hi),
        right: after(right, second, right_rest, hi),
    })
}

// What is left of a list past the point `hi`, which is in its first piece.
fn after<'a, P: Point, S: Cells>(
    pieces: &'a [Piece<P, S>],
    first: &Piece<P, S>,
    rest: &'a [Piece<P, S>],
    hi: P,
) -> &'a [Piece<P, S>]
    ensures ended { P.number_of first.now.hi ≤ P.number_of hi → result.now ≡ rest.now }
    ensures going { P.number_of hi < P.number_of first.now.hi → result.now ≡ pieces.now }
{
    if first.hi.number() <= hi.number() {
        rest
    } else {
        pieces
    }
}
