//! A set of points, kept as ranges.
ghost use Rattle.std.specs.Prelude.{ℕ, ◌≡◌, ◌≤◌, ◌==◌, [], ◌∷◌, length, false, IfOk, IsOk};
ghost use Rattle.std.specs.List.{list_any};
ghost use Rattle.np_base.specs.Ranges.{is_within, holds, IsAscending};

use crate::complement::complement_ranges;
use crate::join::join_ranges;
use crate::meet::meet_ranges;
use crate::member::has_number;
use crate::minus::subtract_ranges;
use crate::point_range::range_between;
use crate::points::point_ranges;
use crate::ranges::Ranges;
use crate::same::same_ranges;
use np_base::{Cells, NoMemory, Point, Range};
use std::alloc::Global;
use std::marker::Model;

/// A set of points, kept as the fewest ranges that have them. Contracts see it as the list of those ranges.
/// They ascend, none is empty, and between two neighbours at least one point is missing, so sets of the same
/// points are equal values. A set of at most two ranges takes no memory.
#[derive(Debug)]
pub struct IntervalSet<P: Point> {
    ranges: Ranges<P>,
}

// Written out: where a set is let go this is called, and not each function that lets one go has to tell whether its ranges lie in it.
impl<P: Point> Drop for IntervalSet<P> {
    fn drop(self) {
        let IntervalSet { ranges: _ranges } = self;
    }
}

impl<P: Point> Model for IntervalSet<P> {
    ghost use Rattle.std.specs.Prelude.{List};
    ghost use Rattle.np_base.specs.Ranges.{IsAscending};
    ghost use Rattle.np_base.specs.declared.range.Range.{Range};

    ghost Value = { List (Range P) };

    ghost view = { λ s. s.ranges.items };

    ghost invariant = { λ s. IsAscending P.number_of P.LOW P.HIGH s.ranges.items };
}

impl<P: Point> IntervalSet<P> {
    /// The set of the points from `lo` to `hi`, both included. It takes no memory.
    pub fn of_range(alloc: Global, lo: P, hi: P) -> Result<IntervalSet<P>, NoMemory>
        requires { P.number_of lo ≤ P.number_of hi }
        ensures ranges { IfOk result (λ made. made ≡ record { lo = lo; hi = hi } ∷ []) }
        ensures members { IfOk result (λ made. (p : P) →
            holds P.number_of made (P.number_of p)
            ≡ is_within P.number_of (record { lo = lo; hi = hi }) (P.number_of p)) }
        ensures ascending { IfOk result (λ made. IsAscending P.number_of P.LOW P.HIGH made) }
        ensures succeeds { IsOk result }
    {
        let ranges = one_range(alloc, Range { lo, hi });
        Ok(IntervalSet { ranges })
    }

    /// The set of some points, in whatever order they stand. It takes time n log n.
    pub fn of_points(alloc: Global, points: Vec<P>) -> Result<IntervalSet<P>, NoMemory>
        ensures members { IfOk result (λ made. (p : P) →
            holds P.number_of made (P.number_of p)
            ≡ list_any (λ point. P.number_of point == P.number_of p) points.items) }
        ensures ascending { IfOk result (λ made. IsAscending P.number_of P.LOW P.HIGH made) }
    {
        let mut points = points;
        points.sort_unstable_by_key(|point| point.number());
        let ranges = point_ranges(alloc, &points)?;
        Ok(IntervalSet { ranges })
    }

    /// Whether the point is in the set.
    pub fn has(&self, p: P) -> bool
        ensures { result ≡ holds P.number_of self.now (P.number_of p) }
    {
        has_number(self.ranges.as_slice(), p.number())
    }

    /// The ranges, ends included, in ascending order.
    pub fn ranges(&self) -> &[Range<P>]
        ensures value { result.now ≡ self.now }
        ensures ascending { IsAscending P.number_of P.LOW P.HIGH self.now }
    {
        self.ranges.as_slice()
    }

    // Where its memory comes from, and that of sets made of it.
    fn allocator(&self) -> Global {
        *self.ranges.allocator()
    }

    // The set of ranges that ascend.
    fn from_ranges(ranges: Ranges<P>) -> IntervalSet<P>
        requires { IsAscending P.number_of P.LOW P.HIGH ranges.items }
        ensures { result ≡ ranges.items }
    {
        IntervalSet { ranges }
    }
}

// The list of one range that is not empty.
fn one_range<P: Point>(alloc: Global, range: Range<P>) -> Ranges<P>
    requires { P.number_of range.lo ≤ P.number_of range.hi }
    ensures ranges { result.items ≡ range ∷ [] }
    ensures ascending { IsAscending P.number_of P.LOW P.HIGH result.items }
{
    // A point that tells its number is one of the space.
    let _first = range.lo.number();
    let _last = range.hi.number();
    let mut ranges = Ranges::new(alloc);
    ranges.push_reserved(range);
    ranges
}

impl<P: Point> Cells for IntervalSet<P> {
    ghost use Rattle.np_base.specs.Ranges.{holds, IsAscending};
    ghost use Rattle.np_sets.specs.Laws.{holds-between, same_points_same_ranges};
    ghost use Rattle.np_sets.specs.Space.{is_between};

    type Spot = P;

    ghost in_space = { λ spot. is_between P.LOW P.HIGH (P.number_of spot) };

    ghost has = { λ set spot. holds P.number_of set (P.number_of spot) };

    ghost IsWell = { λ set. IsAscending P.number_of P.LOW P.HIGH set };

    // It takes no memory.
    fn nothing(alloc: Global) -> Result<IntervalSet<P>, NoMemory>
        ensures members { IfOk result (λ made. (p : P) → holds P.number_of made (P.number_of p) ≡ false) }
        ensures well { IfOk result (IsAscending P.number_of P.LOW P.HIGH) }
        ensures succeeds { IsOk result }
    {
        Ok(IntervalSet::from_ranges(Ranges::new(alloc)))
    }

    // It takes no memory.
    fn everything(alloc: Global) -> Result<IntervalSet<P>, NoMemory>
        ensures members { IfOk result (λ made. (p : P) →
            holds P.number_of made (P.number_of p) ≡ is_between P.LOW P.HIGH (P.number_of p)) }
        ensures well { IfOk result (IsAscending P.number_of P.LOW P.HIGH) }
        ensures succeeds { IsOk result }
    {
        let ranges = one_range(alloc, range_between(P::LOW, P::HIGH));
        Ok(IntervalSet::from_ranges(ranges))
    }

    fn join(&self, other: &IntervalSet<P>) -> Result<IntervalSet<P>, NoMemory> {
        let ranges = join_ranges(self.allocator(), self.ranges(), other.ranges())?;
        Ok(IntervalSet::from_ranges(ranges))
    }

    fn meet(&self, other: &IntervalSet<P>) -> Result<IntervalSet<P>, NoMemory> {
        let ranges = meet_ranges(self.allocator(), self.ranges(), other.ranges())?;
        Ok(IntervalSet::from_ranges(ranges))
    }

    fn minus(&self, other: &IntervalSet<P>) -> Result<IntervalSet<P>, NoMemory> {
        let ranges = subtract_ranges(self.allocator(), self.ranges(), other.ranges())?;
        Ok(IntervalSet::from_ranges(ranges))
    }

    // It takes no memory where the set has at most two ranges.
    fn copy(&self) -> Result<IntervalSet<P>, NoMemory>
        ensures equal { IfOk result (λ made. made ≡ self.now) }
        ensures well { IfOk result (IsAscending P.number_of P.LOW P.HIGH) }
        ensures succeeds { length self.now ≤ 2 → IsOk result }
    {
        let ranges = Ranges::from_slice(self.allocator(), self.ranges())?;
        Ok(IntervalSet::from_ranges(ranges))
    }

    fn same(&self, other: &IntervalSet<P>) -> bool {
        same_ranges(self.ranges(), other.ranges())
    }

    fn is_empty(&self) -> bool {
        self.ranges().is_empty()
    }

    ghost members_in_space = { λ set spot well held. holds-between P.number_of P.LOW P.HIGH set (P.number_of spot) well held };

    ghost equal_by_members = { λ a b well_a well_b alike.
        same_points_same_ranges P.number_of P.point_of P.LOW P.HIGH P.number_of_point P.point_of_number a b well_a well_b alike };
}
