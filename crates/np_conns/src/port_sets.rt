//! For each protocol a set of ports.
ghost use Rattle.std.specs.Prelude.{◌≡◌, ◌≤◌, ◌<◌, ◌&&◌, ◌==◌, ℕ, false, length, nat_le, IfOk, IsOk, MatchBool};
ghost use Rattle.std.specs.Bool.{OnTrue};
ghost use Rattle.std.specs.List.{list_any};
ghost use Rattle.np_base.specs.Ranges.{holds};
ghost use Rattle.np_conns.specs.Conns.{ranges_of, is_spot, has_spot, same_proto, AscendsInPorts, IsConns};
ghost use Rattle.np_conns.specs.ConnsText.{spans_of};
ghost use Rattle.np_conns.specs.declared.port_spot.PortSpot.{PortSpot};
ghost use Rattle.np_conns.specs.declared.proto.Proto.{Proto};

use crate::port_spot::PortSpot;
use crate::proto::Proto;
use np_base::{Cells, NoMemory, Point, PortNum, Range};
use np_sets::IntervalSet;
use std::alloc::Global;
use std::marker::Model;

/// A set of spots: for each protocol a set of ports. Contracts see it as the ascending ranges of each protocol's ports.
#[derive(Debug)]
pub(crate) struct PortSets {
    tcp: IntervalSet<PortNum>,
    udp: IntervalSet<PortNum>,
    sctp: IntervalSet<PortNum>,
}

// Written out, so that letting a set go is one call.
impl Drop for PortSets {
    fn drop(self) {
        let PortSets {
            tcp: _tcp,
            udp: _udp,
            sctp: _sctp,
        } = self;
    }
}

impl Model for PortSets {
    ghost use Rattle.np_conns.specs.Conns.{Conns};

    ghost Value = { Conns };

    ghost view = { λ set. record { tcp = set.tcp; udp = set.udp; sctp = set.sctp } };
}

impl PortSets {
    /// The set of the ports from `lo` to `hi`, both included, of one protocol. It takes no memory.
    pub(crate) fn of(
        alloc: Global,
        proto: Proto,
        lo: PortNum,
        hi: PortNum,
    ) -> Result<PortSets, NoMemory>
        requires { lo ≤ hi }
        ensures members { IfOk result (λ made. (spot : PortSpot) →
            has_spot made spot
            ≡ (same_proto spot.proto proto && (nat_le lo spot.port && nat_le spot.port hi))) }
        ensures well { IfOk result IsConns }
        ensures succeeds { IsOk result }
    {
        PortSets::of_set(alloc, proto, IntervalSet::of_range(alloc, lo, hi)?)
    }

    /// The set of some ports of one protocol, in whatever order they stand. It takes time n log n.
    pub(crate) fn of_ports(
        alloc: Global,
        proto: Proto,
        ports: Vec<PortNum>,
    ) -> Result<PortSets, NoMemory>
        ensures members { IfOk result (λ made. (spot : PortSpot) →
            has_spot made spot
            ≡ (same_proto spot.proto proto && list_any (λ port. port == spot.port) ports.items)) }
        ensures well { IfOk result IsConns }
    {
        PortSets::of_set(alloc, proto, IntervalSet::of_points(alloc, ports)?)
    }

    // The set of some ports of one protocol. It takes no memory.
    pub(crate) fn of_set(
        alloc: Global,
        proto: Proto,
        ports: IntervalSet<PortNum>,
    ) -> Result<PortSets, NoMemory>
        requires { AscendsInPorts ports }
        ensures members { IfOk result (λ made. (spot : PortSpot) →
            has_spot made spot
            ≡ (same_proto spot.proto proto && holds (λ port. port) ports spot.port)) }
        ensures well { IfOk result IsConns }
        ensures succeeds { IsOk result }
    {
        let first = IntervalSet::nothing(alloc)?;
        let second = IntervalSet::nothing(alloc)?;
        Ok(match proto {
            Proto::Tcp => PortSets {
                tcp: ports,
                udp: first,
                sctp: second,
            },
            Proto::Udp => PortSets {
                tcp: first,
                udp: ports,
                sctp: second,
            },
            Proto::Sctp => PortSets {
                tcp: first,
                udp: second,
                sctp: ports,
            },
        })
    }

    /// Whether the spot is in the set.
    pub(crate) fn has(&self, spot: PortSpot) -> bool
        ensures { result ≡ has_spot self.now spot }
    {
        self.ports(spot.proto).has(spot.port)
    }

    /// The maximal runs of one protocol's ports, in ascending order.
    pub(crate) fn spans(&self, proto: Proto) -> &[Range<PortNum>]
        ensures kept { result.now ≡ ranges_of self.now proto }
        ensures runs { result.now ≡ spans_of (has_spot self.now) proto }
        ensures ascending { AscendsInPorts result.now }
    {
        self.ports(proto).ranges()
    }

    /// Whether each protocol has at most two ranges.
    pub(crate) fn is_small(&self) -> bool
        ensures { MatchBool result ((proto : Proto) → length (ranges_of self.now proto) ≤ 2)
            ((proto : Proto) × (2 < length (ranges_of self.now proto))) }
    {
        let tcp = self.tcp.ranges().len() <= 2;
        let udp = self.udp.ranges().len() <= 2;
        let sctp = self.sctp.ranges().len() <= 2;
        tcp & udp & sctp
    }

    /// Whether it has all spots.
    pub(crate) fn is_everything(&self) -> bool
        ensures answer { OnTrue result ((spot : PortSpot) → has_spot self.now spot ≡ is_spot spot) }
        ensures well { IsConns self.now }
    {
        let tcp = are_all(self.tcp.ranges());
        let udp = are_all(self.udp.ranges());
        let sctp = are_all(self.sctp.ranges());
        tcp & udp & sctp
    }

    // The ports of one protocol.
    fn ports(&self, proto: Proto) -> &IntervalSet<PortNum>
        ensures { result.now ≡ ranges_of self.now proto }
    {
        match proto {
            Proto::Tcp => &self.tcp,
            Proto::Udp => &self.udp,
            Proto::Sctp => &self.sctp,
        }
    }
}

impl Cells for PortSets {
    ghost use Rattle.np_conns.specs.Spots.{has_spot-is_spot, equal_by_spots};

    type Spot = PortSpot;

    ghost in_space = { is_spot };

    ghost has = { has_spot };

    ghost IsWell = { IsConns };

    // It takes no memory.
    fn nothing(alloc: Global) -> Result<PortSets, NoMemory>
        ensures members { IfOk result (λ made. (spot : PortSpot) → has_spot made spot ≡ false) }
        ensures well { IfOk result IsConns }
        ensures succeeds { IsOk result }
    {
        Ok(PortSets {
            tcp: IntervalSet::nothing(alloc)?,
            udp: IntervalSet::nothing(alloc)?,
            sctp: IntervalSet::nothing(alloc)?,
        })
    }

    // It takes no memory.
    fn everything(alloc: Global) -> Result<PortSets, NoMemory>
        ensures members { IfOk result (λ made. (spot : PortSpot) → has_spot made spot ≡ is_spot spot) }
        ensures well { IfOk result IsConns }
        ensures succeeds { IsOk result }
    {
        Ok(PortSets {
            tcp: IntervalSet::everything(alloc)?,
            udp: IntervalSet::everything(alloc)?,
            sctp: IntervalSet::everything(alloc)?,
        })
    }

    fn join(&self, other: &PortSets) -> Result<PortSets, NoMemory> {
        Ok(PortSets {
            tcp: self.tcp.join(&other.tcp)?,
            udp: self.udp.join(&other.udp)?,
            sctp: self.sctp.join(&other.sctp)?,
        })
    }

    fn meet(&self, other: &PortSets) -> Result<PortSets, NoMemory> {
        Ok(PortSets {
            tcp: self.tcp.meet(&other.tcp)?,
            udp: self.udp.meet(&other.udp)?,
            sctp: self.sctp.meet(&other.sctp)?,
        })
    }

    fn minus(&self, other: &PortSets) -> Result<PortSets, NoMemory> {
        Ok(PortSets {
            tcp: self.tcp.minus(&other.tcp)?,
            udp: self.udp.minus(&other.udp)?,
            sctp: self.sctp.minus(&other.sctp)?,
        })
    }

    // It takes no memory where each protocol has at most two ranges.
    fn copy(&self) -> Result<PortSets, NoMemory>
        ensures equal { IfOk result (λ made. made ≡ self.now) }
        ensures well { IfOk result IsConns }
        ensures succeeds { ((proto : Proto) → length (ranges_of self.now proto) ≤ 2) → IsOk result }
    {
        Ok(PortSets {
            tcp: self.tcp.copy()?,
            udp: self.udp.copy()?,
            sctp: self.sctp.copy()?,
        })
    }

    // Each protocol is asked, also where the answer is known: each call tells that its ports are
    // well formed.
    fn same(&self, other: &PortSets) -> bool {
        let tcp = self.tcp.same(&other.tcp);
        let udp = self.udp.same(&other.udp);
        let sctp = self.sctp.same(&other.sctp);
        tcp & udp & sctp
    }

    fn is_empty(&self) -> bool {
        let tcp = self.tcp.is_empty();
        let udp = self.udp.is_empty();
        let sctp = self.sctp.is_empty();
        tcp & udp & sctp
    }

    ghost members_in_space = { has_spot-is_spot };

    ghost equal_by_members = { equal_by_spots };
}

// Whether the ranges have all ports.
fn are_all(ranges: &[Range<PortNum>]) -> bool
    ensures { OnTrue result ((n : ℕ) → holds (λ port. port) ranges.now n ≡ (nat_le 1 n && nat_le n 65535)) }
{
    match ranges {
        [one] => one.lo.number() == PortNum::LOW && one.hi.number() == PortNum::HIGH,
        _ => false,
    }
}
