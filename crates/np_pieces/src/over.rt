//! Lists of pieces of one value, and of one value inside a set and another outside it.
ghost use Rattle.std.specs.Prelude.{ℕ, ◌≡◌, ◌≤◌, ◌+◌, [], ◌∷◌, Some, if◌then◌else◌, IfOk, OnOk};
ghost use Rattle.np_base.specs.Ranges.{holds, IsAscending};
ghost use Rattle.np_pieces.specs.Prelude.{Covers, GrowsTo, value_at};

use crate::append::append;
use crate::piece::Piece;
use np_base::{Cells, NoMemory, Point, Range};
use std::alloc::Global;

/// One piece over the whole space.
pub fn one_piece<P: Point, S: Cells>(alloc: Global, value: S) -> Result<Vec<Piece<P, S>>, NoMemory>
    ensures pieces { IfOk result (λ made. made.items
        ≡ record { lo = P.point_of P.LOW; hi = P.point_of P.HIGH; value = value } ∷ []) }
    ensures covers { IfOk result (λ made. Covers P.number_of S.IsWell P.LOW P.HIGH made.items) }
{
    // A set that tells whether it is empty tells that it is well formed.
    let _empty = value.is_empty();
    let mut pieces = Vec::new(alloc);
    pieces.push(Piece {
        lo: point_at(P::LOW),
        hi: point_at(P::HIGH),
        value,
    })?;
    Ok(pieces)
}

/// The pieces with `inside` at the numbers of the ranges and `outside` at the others, in one pass.
pub fn pieces_over<P: Point, S: Cells>(
    alloc: Global,
    ranges: &[Range<P>],
    inside: &S,
    outside: &S,
) -> Result<Vec<Piece<P, S>>, NoMemory>
    requires { IsAscending P.number_of P.LOW P.HIGH ranges.now }
    ensures values { IfOk result (λ made. (n : ℕ) → P.LOW ≤ n → n ≤ P.HIGH →
        value_at P.number_of made.items n
        ≡ Some (if holds P.number_of ranges.now n then inside.now else outside.now)) }
    ensures covers { IfOk result (λ made. Covers P.number_of S.IsWell P.LOW P.HIGH made.items) }
{
    let mut made = Vec::new(alloc);
    let mut from = P::LOW;
    for range in ranges {
        let lo = range.lo.number();
        append_gap(&mut made, from, lo, outside)?;
        let last = range.hi.number();
        append_run(&mut made, lo, last, inside)?;
        if last == P::HIGH {
            return Ok(made);
        }
        from = last + 1;
    }
    append_run(&mut made, from, P::HIGH, outside)?;
    Ok(made)
}

// Puts last a value from the number `from` to the one before `to`, where there is any.
fn append_gap<P: Point, S: Cells>(
    made: &mut Vec<Piece<P, S>>,
    from: u128,
    to: u128,
    value: &S,
) -> Result<(), NoMemory>
    requires low { P.LOW ≤ from }
    requires ordered { from ≤ to }
    requires high { to ≤ P.HIGH }
    ensures { OnOk result (GrowsTo P.number_of S.IsWell
        from to value.now made.old.items made.new.items) }
{
    if from < to {
        append_run(made, from, to - 1, value)?;
    }
    Ok(())
}

// Puts last a value from the number `lo` to the number `hi`.
fn append_run<P: Point, S: Cells>(
    made: &mut Vec<Piece<P, S>>,
    lo: u128,
    hi: u128,
    value: &S,
) -> Result<(), NoMemory>
    requires low { P.LOW ≤ lo }
    requires ordered { lo ≤ hi }
    requires high { hi ≤ P.HIGH }
    ensures { OnOk result (GrowsTo P.number_of S.IsWell
        lo (hi + 1) value.now made.old.items made.new.items) }
{
    let value = value.copy()?;
    let lo = point_at(lo);
    let hi = point_at(hi);
    append(made, Piece { lo, hi, value })?;
    Ok(())
}

// The point of a number of the space.
fn point_at<P: Point>(number: u128) -> P
    requires low { P.LOW ≤ number }
    requires high { number ≤ P.HIGH }
    ensures point { result ≡ P.point_of number }
    ensures number { P.number_of result ≡ number }
{
    P::at(number).unwrap()
}
