//! What a statement asks.

use np_addr::AddrSet;
use np_base::Seq;
use np_conns::ConnSet;

/// What a statement asks for: that all of its packets are allowed, or that all are denied.
#[derive(Clone, Copy, PartialEq, Eq)]
pub enum Wanted {
    Allow,
    Deny,
}

/// The ends on one side of a statement: workloads, by their numbers, and addresses.
#[derive(Drop)]
pub struct Ends {
    pub works: Seq<u32>,
    pub block: AddrSet,
}

/// What a statement asks: that all packets from its source to its destination at some protocols and ports are allowed, or
/// that all are denied.
#[derive(Drop)]
pub struct Question {
    pub wanted: Wanted,
    pub source: Ends,
    pub destination: Ends,
    pub conns: ConnSet,
}
