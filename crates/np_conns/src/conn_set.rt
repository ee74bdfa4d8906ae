//! Sets of connections.
ghost use Rattle.std.specs.Prelude.{◌≡◌, ◌≤◌, ◌&&◌, ◌==◌, false, length, nat_le, IfOk, IsOk};
ghost use Rattle.std.specs.List.{list_any};
ghost use Rattle.np_base.specs.Ranges.{holds};
ghost use Rattle.np_conns.specs.Conns.{ranges_of, is_spot, has_spot, same_proto, AscendsInPorts, IsConns};
ghost use Rattle.np_conns.specs.ConnsText.{spans_of};
ghost use Rattle.np_conns.specs.declared.port_spot.PortSpot.{PortSpot};
ghost use Rattle.np_conns.specs.declared.proto.Proto.{Proto};

use crate::port_sets::PortSets;
use crate::port_spot::PortSpot;
use crate::proto::Proto;
use np_base::{Cells, NoMemory, PortNum, Range};
use np_sets::IntervalSet;
use std::alloc::Global;
use std::marker::Model;
use std::rc::Rc;

/// A set of spots: for each protocol a set of ports. Contracts see it as the ascending ranges of each protocol's
/// ports, between which at least one port is missing, so sets of the same spots are equal values. A set with at most
/// two ranges of each protocol takes no memory. One of more is held once for all copies of it, so that the same thousands of
/// ports at each of many addresses are one set.
#[derive(Debug)]
pub struct ConnSet {
    alloc: Global,
    // The ports, where these are few ranges.
    few: PortSets,
    // The ports, where they are more.
    many: Option<Rc<PortSets>>,
}

// Written out, so that letting a set go is one call.
impl Drop for ConnSet {
    fn drop(self) {
        let ConnSet {
            alloc: _alloc,
            few: _few,
            many: _many,
        } = self;
    }
}

impl Model for ConnSet {
    ghost use Rattle.std.specs.Prelude.{IfSome, unwrap_or};
    ghost use Rattle.std.specs.Option.{option_map};
    ghost use Rattle.np_conns.specs.Conns.{Conns, IsLarge};

    ghost Value = { Conns };

    ghost view = { λ set. unwrap_or (option_map (λ held. held.value) set.many) set.few };

    ghost invariant = { λ set. IfSome set.many (λ held. IsLarge held.value) };
}

impl ConnSet {
    /// The set of the ports from `lo` to `hi`, both included, of one protocol. It takes no memory.
    pub fn of(alloc: Global, proto: Proto, lo: PortNum, hi: PortNum) -> Result<ConnSet, NoMemory>
        requires { lo ≤ hi }
        ensures members { IfOk result (λ made. (spot : PortSpot) →
            has_spot made spot
            ≡ (same_proto spot.proto proto && (nat_le lo spot.port && nat_le spot.port hi))) }
        ensures well { IfOk result IsConns }
        ensures succeeds { IsOk result }
    {
        Ok(ConnSet::of_few(alloc, PortSets::of(alloc, proto, lo, hi)?))
    }

    /// The set of some ports of one protocol, in whatever order they stand. It takes time n log n.
    pub fn of_ports(alloc: Global, proto: Proto, ports: Vec<PortNum>) -> Result<ConnSet, NoMemory>
        ensures members { IfOk result (λ made. (spot : PortSpot) →
            has_spot made spot
            ≡ (same_proto spot.proto proto && list_any (λ port. port == spot.port) ports.items)) }
        ensures well { IfOk result IsConns }
    {
        let made = PortSets::of_ports(alloc, proto, ports)?;
        ConnSet::held(alloc, made)
    }

    // The set of some ports of one protocol.
    pub(crate) fn of_set(
        alloc: Global,
        proto: Proto,
        ports: IntervalSet<PortNum>,
    ) -> Result<ConnSet, NoMemory>
        requires { AscendsInPorts ports }
        ensures members { IfOk result (λ made. (spot : PortSpot) →
            has_spot made spot
            ≡ (same_proto spot.proto proto && holds (λ port. port) ports spot.port)) }
        ensures well { IfOk result IsConns }
    {
        let made = PortSets::of_set(alloc, proto, ports)?;
        ConnSet::held(alloc, made)
    }

    // These ports, which are few ranges. It takes no memory.
    fn of_few(alloc: Global, few: PortSets) -> ConnSet
        ensures { result ≡ few }
    {
        ConnSet {
            alloc,
            few,
            many: None,
        }
    }

    // These ports, held once where they are many ranges.
    fn held(alloc: Global, ports: PortSets) -> Result<ConnSet, NoMemory>
        ensures { IfOk result (λ made. made ≡ ports) }
    {
        if ports.is_small() {
            return Ok(ConnSet::of_few(alloc, ports));
        }
        let few = PortSets::nothing(alloc)?;
        let many = Rc::new(alloc, ports)?;
        Ok(ConnSet {
            alloc,
            few,
            many: Some(many),
        })
    }

    /// Leaves the set as it is, also where memory is wanting. Where it is that of before, and takes memory, both are held once
    /// from now on. So the thousands of ports that a name stands for at a pod are held once for all rules in a row that have the
    /// name.
    pub fn share_with(&mut self, before: Option<&ConnSet>) -> Result<(), NoMemory>
        ensures { self.new ≡ self.old }
    {
        match before {
            Some(before) if self.many.is_some() && before.same(self) => *self = before.copy()?,
            _ => {}
        }
        Ok(())
    }

    // The ports, lent.
    fn ports(&self) -> &PortSets
        ensures { result.now ≡ self.now }
    {
        match &self.many {
            Some(held) => held,
            None => &self.few,
        }
    }

    /// Whether the spot is in the set.
    pub fn has(&self, spot: PortSpot) -> bool
        ensures { result ≡ has_spot self.now spot }
    {
        self.ports().has(spot)
    }

    /// The maximal runs of one protocol's ports, in ascending order.
    pub fn spans(&self, proto: Proto) -> &[Range<PortNum>]
        ensures kept { result.now ≡ ranges_of self.now proto }
        ensures runs { result.now ≡ spans_of (has_spot self.now) proto }
        ensures ascending { AscendsInPorts result.now }
    {
        self.ports().spans(proto)
    }
}

impl Cells for ConnSet {
    ghost use Rattle.np_conns.specs.Spots.{has_spot-is_spot, equal_by_spots};

    type Spot = PortSpot;

    ghost in_space = { is_spot };

    ghost has = { has_spot };

    ghost IsWell = { IsConns };

    // It takes no memory.
    fn nothing(alloc: Global) -> Result<ConnSet, NoMemory>
        ensures members { IfOk result (λ made. (spot : PortSpot) → has_spot made spot ≡ false) }
        ensures well { IfOk result IsConns }
        ensures succeeds { IsOk result }
    {
        Ok(ConnSet::of_few(alloc, PortSets::nothing(alloc)?))
    }

    // It takes no memory.
    fn everything(alloc: Global) -> Result<ConnSet, NoMemory>
        ensures members { IfOk result (λ made. (spot : PortSpot) → has_spot made spot ≡ is_spot spot) }
        ensures well { IfOk result IsConns }
        ensures succeeds { IsOk result }
    {
        Ok(ConnSet::of_few(alloc, PortSets::everything(alloc)?))
    }

    // A set that is joined with nothing is held no second time.
    fn join(&self, other: &ConnSet) -> Result<ConnSet, NoMemory> {
        if other.is_empty() {
            return self.copy();
        }
        if self.is_empty() {
            return other.copy();
        }
        let made = self.ports().join(other.ports())?;
        ConnSet::held(self.alloc, made)
    }

    // Nor is one of which everything is taken.
    fn meet(&self, other: &ConnSet) -> Result<ConnSet, NoMemory> {
        let left = self.ports();
        let right = other.ports();
        let has_left = right.is_everything();
        let has_right = left.is_everything();
        if has_left {
            return self.copy();
        }
        if has_right {
            return other.copy();
        }
        let made = left.meet(right)?;
        ConnSet::held(self.alloc, made)
    }

    fn minus(&self, other: &ConnSet) -> Result<ConnSet, NoMemory> {
        if other.is_empty() {
            return self.copy();
        }
        let made = self.ports().minus(other.ports())?;
        ConnSet::held(self.alloc, made)
    }

    // It takes no memory.
    fn copy(&self) -> Result<ConnSet, NoMemory>
        ensures equal { IfOk result (λ made. made ≡ self.now) }
        ensures well { IfOk result IsConns }
        ensures succeeds { ((proto : Proto) → length (ranges_of self.now proto) ≤ 2) → IsOk result }
    {
        match &self.many {
            Some(held) => {
                // Ports that tell whether there are none tell that they are well formed.
                let _empty = held.is_empty();
                let few = PortSets::nothing(self.alloc)?;
                let many = held.clone()?;
                Ok(ConnSet {
                    alloc: self.alloc,
                    few,
                    many: Some(many),
                })
            }
            None => {
                let few = self.few.copy()?;
                Ok(ConnSet::of_few(self.alloc, few))
            }
        }
    }

    fn same(&self, other: &ConnSet) -> bool {
        self.ports().same(other.ports())
    }

    fn is_empty(&self) -> bool {
        self.ports().is_empty()
    }

    ghost members_in_space = { has_spot-is_spot };

    ghost equal_by_members = { equal_by_spots };
}
