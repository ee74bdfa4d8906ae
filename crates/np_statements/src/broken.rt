//! A line that does not hold.

use np_check::Counterexample;

/// A line whose statement does not hold: its number, the first packet that does not comply, and whether that one is
/// allowed.
#[derive(Clone, Copy, PartialEq, Eq)]
pub struct Broken {
    pub line: u64,
    pub packet: Counterexample,
    pub allowed: bool,
}
