//! Values over a space of points.
ghost use Rattle.std.specs.Prelude.{ℕ, ◌≡◌, ◌≤◌, ◌&&◌, [], ◌∷◌, Some, if◌then◌else◌, IfOk};
ghost use Rattle.np_base.specs.Ranges.{holds};
ghost use Rattle.np_sets.specs.Space.{is_between};
ghost use Rattle.np_pieces.specs.Operations.{holds_after};
ghost use Rattle.np_pieces.specs.Pieces.{value_at, has_spot, Covers};
ghost use Rattle.np_pieces.specs.declared.piece.At.{At};

use crate::combine::combine_pieces;
use crate::member::{are_empty, copy_pieces, value_of};
use crate::operation::Operation;
use crate::over::{one_piece, pieces_over};
use crate::piece::{At, Piece};
use crate::same::same_pieces;
use np_base::{Cells, NoMemory, Point};
use np_sets::IntervalSet;
use std::alloc::Global;
use std::marker::Model;

/// A value at each point of a space, kept as the fewest pieces. Contracts see it as the list of those pieces. They
/// cover the space in ascending order without gap or overlap, and the values of neighbours are not equal, so the
/// same values at the same points are equal lists.
///
/// Where the values are sets, it is itself a set: of spots at points.
#[derive(Debug, Drop)]
pub struct Pieces<P: Point, S: Cells> {
    pieces: Vec<Piece<P, S>>,
}

impl<P: Point, S: Cells> Model for Pieces<P, S> {
    ghost use Rattle.std.specs.Prelude.{List};
    ghost use Rattle.np_pieces.specs.Pieces.{Covers};
    ghost use Rattle.np_pieces.specs.declared.piece.Piece.{Piece};

    ghost Value = { List (Piece P S) };

    ghost view = { λ values. values.pieces.items };

    ghost invariant = { λ values. Covers P.number_of S.IsWell P.LOW P.HIGH values.pieces.items };
}

impl<P: Point, S: Cells> Pieces<P, S> {
    /// The value at all points, in one piece.
    pub fn constant(alloc: Global, value: S) -> Result<Pieces<P, S>, NoMemory>
        ensures pieces { IfOk result (λ made. made
            ≡ record { lo = P.point_of P.LOW; hi = P.point_of P.HIGH; value = value } ∷ []) }
        ensures members { IfOk result (λ made. (place : At P S.Spot) →
            has_spot P.number_of S.has made place
            ≡ (is_between P.LOW P.HIGH (P.number_of place.point) && S.has value place.spot)) }
        ensures covers { IfOk result (λ made. Covers P.number_of S.IsWell P.LOW P.HIGH made) }
    {
        let pieces = one_piece(alloc, value)?;
        Ok(Pieces::from_pieces(pieces))
    }

    /// The value `inside` at the points of the set, and `outside` at the others. Where the two are the same, it is
    /// one piece.
    pub fn over(
        alloc: Global,
        set: &IntervalSet<P>,
        inside: S,
        outside: S,
    ) -> Result<Pieces<P, S>, NoMemory>
        ensures values { IfOk result (λ made. (n : ℕ) → P.LOW ≤ n → n ≤ P.HIGH →
            value_at P.number_of made n
            ≡ Some (if holds P.number_of set.now n then inside else outside)) }
        ensures members { IfOk result (λ made. (place : At P S.Spot) →
            has_spot P.number_of S.has made place
            ≡ (is_between P.LOW P.HIGH (P.number_of place.point)
            && S.has (if holds P.number_of set.now (P.number_of place.point) then inside else outside)
            place.spot)) }
        ensures covers { IfOk result (λ made. Covers P.number_of S.IsWell P.LOW P.HIGH made) }
    {
        let pieces = pieces_over(alloc, set.ranges(), &inside, &outside)?;
        Ok(Pieces::from_pieces(pieces))
    }

    /// The value at the point.
    pub fn at(&self, p: P) -> &S
        ensures value { value_at P.number_of self.now (P.number_of p) ≡ Some result.now }
        ensures well { S.IsWell result.now }
    {
        value_of(self.pieces(), p.number())
    }

    /// The pieces, in ascending order.
    pub fn pieces(&self) -> &[Piece<P, S>]
        ensures value { result.now ≡ self.now }
        ensures covers { Covers P.number_of S.IsWell P.LOW P.HIGH self.now }
    {
        &self.pieces
    }

    // Where its memory comes from, and that of what is made of it.
    fn allocator(&self) -> Global {
        *self.pieces.allocator()
    }

    // The values of pieces that cover the space.
    fn from_pieces(pieces: Vec<Piece<P, S>>) -> Pieces<P, S>
        requires { Covers P.number_of S.IsWell P.LOW P.HIGH pieces.items }
        ensures { result ≡ pieces.items }
    {
        Pieces { pieces }
    }

    // What the operation makes of the values of both at each point.
    fn combined(&self, operation: Operation, other: &Pieces<P, S>) -> Result<Pieces<P, S>, NoMemory>
        ensures members { IfOk result (λ made. (place : At P S.Spot) →
            has_spot P.number_of S.has made place
            ≡ holds_after operation
            (has_spot P.number_of S.has self.now place) (has_spot P.number_of S.has other.now place)) }
        ensures covers { IfOk result (λ made. Covers P.number_of S.IsWell P.LOW P.HIGH made) }
    {
        let pieces = combine_pieces(self.allocator(), operation, self.pieces(), other.pieces())?;
        Ok(Pieces::from_pieces(pieces))
    }
}

impl<P: Point, S: Cells> Cells for Pieces<P, S> {
    ghost use Rattle.np_pieces.specs.Laws.{has_spot-in_space, same_spots_same_pieces};

    type Spot = At<P, S::Spot>;

    ghost in_space = { λ place. is_between P.LOW P.HIGH (P.number_of place.point) && S.in_space place.spot };

    ghost has = { λ values place. has_spot P.number_of S.has values place };

    ghost IsWell = { λ values. Covers P.number_of S.IsWell P.LOW P.HIGH values };

    fn nothing(alloc: Global) -> Result<Pieces<P, S>, NoMemory> {
        let value = S::nothing(alloc)?;
        Pieces::constant(alloc, value)
    }

    fn everything(alloc: Global) -> Result<Pieces<P, S>, NoMemory> {
        let value = S::everything(alloc)?;
        Pieces::constant(alloc, value)
    }

    fn join(&self, other: &Pieces<P, S>) -> Result<Pieces<P, S>, NoMemory> {
        self.combined(Operation::Join, other)
    }

    fn meet(&self, other: &Pieces<P, S>) -> Result<Pieces<P, S>, NoMemory> {
        self.combined(Operation::Meet, other)
    }

    fn minus(&self, other: &Pieces<P, S>) -> Result<Pieces<P, S>, NoMemory> {
        self.combined(Operation::Minus, other)
    }

    fn copy(&self) -> Result<Pieces<P, S>, NoMemory> {
        let pieces = copy_pieces(self.allocator(), self.pieces())?;
        Ok(Pieces::from_pieces(pieces))
    }

    fn same(&self, other: &Pieces<P, S>) -> bool {
        same_pieces(self.pieces(), other.pieces())
    }

    fn is_empty(&self) -> bool {
        are_empty(self.pieces())
    }

    ghost members_in_space = { λ values place well held.
        has_spot-in_space P.number_of S.IsWell S.has S.in_space P.LOW P.HIGH S.members_in_space values place well held };

    ghost equal_by_members = { λ a b well_a well_b alike.
        same_spots_same_pieces P.number_of P.point_of S.IsWell S.has P.LOW P.HIGH P.number_of_point P.point_of_number
        S.equal_by_members a b well_a well_b alike };
}
