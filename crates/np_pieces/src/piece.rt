//! Pieces of a space with one value each, and spots of such a space.

/// One value at all points from `lo` to `hi`, both included.
#[derive(Debug, Drop)]
pub struct Piece<P, S> {
    pub lo: P,
    pub hi: P,
    pub value: S,
}

/// A spot at a point.
#[derive(Clone, Copy, Debug, PartialEq, Eq)]
pub struct At<P, T> {
    pub point: P,
    pub spot: T,
}
