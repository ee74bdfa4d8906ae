//! Spots: a protocol and a port.

use crate::proto::Proto;
use np_base::PortNum;

/// A port of a protocol, as of a packet's destination. The space has every port from 1 to 65535 of each protocol.
#[derive(Clone, Copy, Debug, PartialEq, Eq)]
pub struct PortSpot {
    pub proto: Proto,
    pub port: PortNum,
}
