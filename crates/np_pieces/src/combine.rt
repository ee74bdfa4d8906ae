//! An operation on the values of two lists of pieces, at each point.
ghost use Rattle.std.specs.Prelude.{ℕ, ◌≡◌, IfOk};
ghost use Rattle.np_pieces.specs.Prelude.{Covers, has_at, holds_after};

use crate::append::append;
use crate::operation::{Operation, combine};
use crate::overlap::take_overlap;
use crate::piece::Piece;
use np_base::{Cells, NoMemory, Point};
use std::alloc::Global;

/// The pieces of what the operation makes of the two values at each point, in one pass over both lists.
pub fn combine_pieces<P: Point, S: Cells>(
    alloc: Global,
    operation: Operation,
    left: &[Piece<P, S>],
    right: &[Piece<P, S>],
) -> Result<Vec<Piece<P, S>>, NoMemory>
    requires left { Covers P.number_of S.IsWell P.LOW P.HIGH left.now }
    requires right { Covers P.number_of S.IsWell P.LOW P.HIGH right.now }
    ensures members { IfOk result (λ made. (n : ℕ) (spot : S.Spot) →
        has_at P.number_of S.has made.items n spot
        ≡ holds_after operation
        (has_at P.number_of S.has left.now n spot) (has_at P.number_of S.has right.now n spot)) }
    ensures covers { IfOk result (λ made. Covers P.number_of S.IsWell P.LOW P.HIGH made.items) }
{
    let mut made = Vec::new(alloc);
    let mut left = left;
    let mut right = right;
    while let Some(step) = take_overlap(left, right) {
        let value = combine(operation, step.first, step.second)?;
        append(
            &mut made,
            Piece {
                lo: step.lo,
                hi: step.hi,
                value,
            },
        )?;
        left = step.left;
        right = step.right;
    }
    Ok(made)
}
