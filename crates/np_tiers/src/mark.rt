//! What decides a spot.

/// The part of a layer that decides a spot, by its place, from 0, in its list. `pass` is the place of the admin
/// part with `Pass` that was met on the way, where one was.
#[derive(Clone, Copy, Debug, PartialEq, Eq)]
pub enum Mark {
    /// An admin part that allows or denies.
    Admin { place: u64 },
    /// The first `net` set that has the spot; it allows.
    Net { pass: Option<u64>, place: u64 },
    /// The layer is isolated and no `net` set has the spot, which is refused.
    Isolated { pass: Option<u64> },
    /// A base part.
    Base { pass: Option<u64>, place: u64 },
    /// No part speaks of the spot, which is allowed.
    Free { pass: Option<u64> },
}

/// The set of the spots that a mark decides.
#[derive(Debug, Drop)]
pub struct Marked<S> {
    pub mark: Mark,
    pub set: S,
}
