//! The values in lists of pieces.
ghost use Rattle.std.specs.Prelude.{◌≡◌, ◌≤◌, true, false, Some, MatchBool, IfOk};
ghost use Rattle.np_pieces.specs.Prelude.{Covers, has_spot, is_in, value_at};
ghost use Rattle.np_pieces.specs.declared.piece.At.{At};

use crate::piece::Piece;
use np_base::{Cells, NoMemory, Point};
use std::alloc::Global;

/// The value at a number of the space.
pub fn value_of<P: Point, S: Cells>(pieces: &[Piece<P, S>], number: u128) -> &S
    requires covers { Covers P.number_of S.IsWell P.LOW P.HIGH pieces.now }
    requires low { P.LOW ≤ number }
    requires high { number ≤ P.HIGH }
    ensures value { value_at P.number_of pieces.now number ≡ Some result.now }
    ensures well { S.IsWell result.now }
{
    for piece in pieces {
        if has_number(piece, number) {
            return &piece.value;
        }
    }
    unreachable!()
}

// Whether the number is in the piece, ends included.
fn has_number<P: Point, S: Cells>(piece: &Piece<P, S>, number: u128) -> bool
    ensures { result ≡ is_in P.number_of piece.now number }
{
    piece.lo.number() <= number && number <= piece.hi.number()
}

/// Whether no value has a spot. Where it answers false, some value has one.
pub fn are_empty<P: Point, S: Cells>(pieces: &[Piece<P, S>]) -> bool
    requires { Covers P.number_of S.IsWell P.LOW P.HIGH pieces.now }
    ensures { MatchBool result
        ((place : At P S.Spot) → has_spot P.number_of S.has pieces.now place ≡ false)
        ((place : At P S.Spot) × (has_spot P.number_of S.has pieces.now place ≡ true)) }
{
    for piece in pieces {
        if !piece.value.is_empty() {
            return false;
        }
    }
    true
}

/// Copies of the pieces, in order.
pub fn copy_pieces<P: Point, S: Cells>(
    alloc: Global,
    pieces: &[Piece<P, S>],
) -> Result<Vec<Piece<P, S>>, NoMemory>
    ensures { IfOk result (λ made. made.items ≡ pieces.now) }
{
    let mut copies = Vec::new(alloc);
    for piece in pieces {
        let value = piece.value.copy()?;
        copies.push(Piece {
            lo: piece.lo,
            hi: piece.hi,
            value,
        })?;
    }
    Ok(copies)
}
