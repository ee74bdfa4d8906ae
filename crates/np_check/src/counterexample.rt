//! A packet that breaks a statement.

use np_addr::{Address, Family};
use np_conns::PortSpot;

/// An end of a packet: a workload by its number, whichever of its pods, or an address.
#[derive(Clone, Copy, PartialEq, Eq)]
pub enum PlaceEnd {
    Work(u32),
    At(Address),
}

/// A packet: its ends, its family, and its protocol and port.
#[derive(Clone, Copy, PartialEq, Eq)]
pub struct Counterexample {
    pub source: PlaceEnd,
    pub destination: PlaceEnd,
    pub family: Family,
    pub spot: PortSpot,
}
