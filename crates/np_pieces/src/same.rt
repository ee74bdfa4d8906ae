//! Whether two lists have the same pieces.
ghost use Rattle.std.specs.Prelude.{◌≡◌, not, MatchBool};
ghost use Rattle.np_pieces.specs.Prelude.{Covers, has_spot};
ghost use Rattle.np_pieces.specs.declared.piece.At.{At};

use crate::overlap::take_overlap;
use crate::piece::Piece;
use np_base::{Cells, Point};

/// Whether two lists of pieces have the same values at all points, and so are equal. Where they have not, some
/// spot is in one value alone.
pub fn same_pieces<P: Point, S: Cells>(left: &[Piece<P, S>], right: &[Piece<P, S>]) -> bool
    requires left { Covers P.number_of S.IsWell P.LOW P.HIGH left.now }
    requires right { Covers P.number_of S.IsWell P.LOW P.HIGH right.now }
    ensures { MatchBool result (left.now ≡ right.now)
        ((place : At P S.Spot) × (has_spot P.number_of S.has left.now place
        ≡ not (has_spot P.number_of S.has right.now place))) }
{
    let mut left = left;
    let mut right = right;
    while let Some(step) = take_overlap(left, right) {
        if !step.first.same(step.second) {
            return false;
        }
        left = step.left;
        right = step.right;
    }
    true
}
