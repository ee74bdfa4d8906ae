//! Packets between the pods of an estate and addresses.

use np_addr::{Address, Family};
use np_base::PortNum;
use np_conns::Proto;

/// An end of a packet.
#[derive(Clone, Copy, PartialEq, Eq)]
pub enum End {
    /// The pod at this place of the estate's pods, from 0.
    Pod(u32),
    /// An address outside the cluster.
    At(Address),
}

/// One packet. Where an end is an address, the family is that of the address, and that of the source where both are.
#[derive(Clone, Copy, PartialEq, Eq)]
pub struct Packet {
    pub source: End,
    pub destination: End,
    pub family: Family,
    pub proto: Proto,
    pub port: PortNum,
}
