//! Ranges of points.

use crate::point::Point;

/// The points from `lo` to `hi`, both included.
#[derive(Clone, Copy, Debug, PartialEq, Eq)]
pub struct Range<P> {
    pub lo: P,
    pub hi: P,
}

/// The least point alone. It fills the places for ranges that a `SmallVec` keeps in itself and does not use.
impl<P: Point> Default for Range<P> {
    fn default() -> Range<P> {
        let least = P::at(P::LOW).unwrap();
        Range {
            lo: least,
            hi: least,
        }
    }
}
