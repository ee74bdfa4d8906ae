//! All addresses of both families as far ends.
ghost use Rattle.std.specs.Prelude.{◌≡◌, true, ◌&&◌, IfOk};
ghost use Rattle.np_addr.specs.Prelude.{set_has};
ghost use Rattle.np_base.specs.Ranges.{holds};
ghost use Rattle.np_conns.specs.Prelude.{has_spot};
ghost use Rattle.np_addr.specs.declared.address.Address.{Address};
ghost use Rattle.np_conns.specs.declared.port_spot.PortSpot.{PortSpot};
ghost use Rattle.np_pieces.specs.Pieces as pieces;
ghost use Rattle.np_pieces.specs.declared.piece.At.{At};
ghost use Rattle.np_rules.specs.EveryAddress as spec;
ghost use Rattle.np_sets.specs.Space.{is_between};

use crate::address_sets::{joined_set, net_addresses};
use crate::far_ends::FarEnds;
use crate::port_sets::{PortEntry, entries_set};
use crate::views::EndView;
use np_addr::{AddrSet, Address};
use np_base::{Beside, Cells, NoMemory, Point, V4, V6};
use np_conns::ConnSet;
use np_model::{AdminRule, Direction, NetRule};
use np_pieces::Pieces;
use np_sets::IntervalSet;
use std::alloc::Global;

/// Connections by address: at each address of either family a set of protocols and ports.
pub type AddrConns = Beside<Pieces<V4, ConnSet>, Pieces<V6, ConnSet>>;

/// All addresses as far ends of a near end. The spots stand for an address, a protocol and a port.
#[derive(Drop)]
pub(crate) struct EveryAddress<'a> {
    pub direction: Direction,
    pub near: EndView<'a>,
}

impl FarEnds<AddrConns> for EveryAddress<'_> {
    ghost use Rattle.np_rules.specs.EveryAddress.{every_contact};

    ghost contact_at = { every_contact };

    fn admin_set(&self, alloc: Global, rule: &AdminRule) -> Result<AddrConns, NoMemory> {
        let addresses = joined_set(alloc, rule.peers.items())?;
        if addresses.is_empty() {
            return AddrConns::nothing(alloc);
        }
        let conns = self.entries_set(alloc, rule.ports.items())?;
        at_addresses(alloc, &addresses, &conns)
    }

    fn net_set(
        &self,
        alloc: Global,
        _namespace: &str,
        rule: &NetRule,
    ) -> Result<AddrConns, NoMemory> {
        let addresses = net_addresses(alloc, rule.peers.items())?;
        if addresses.is_empty() {
            return AddrConns::nothing(alloc);
        }
        let conns = self.entries_set(alloc, rule.ports.items())?;
        at_addresses(alloc, &addresses, &conns)
    }

    fn share(&self, before: Option<&AddrConns>, set: &mut AddrConns) -> Result<(), NoMemory> {
        match before {
            Some(before) if before.same(set) => *set = before.copy()?,
            _ => {}
        }
        Ok(())
    }
}

impl EveryAddress<'_> {
    ghost use Rattle.std.specs.Prelude.{◌≡◌, true, IfOk};
    ghost use Rattle.np_conns.specs.Conns.{is_spot, has_spot};
    ghost use Rattle.np_rules.specs.model.Ends.{address, destination_of};
    ghost use Rattle.np_rules.specs.model.Rules.{none_or_any};
    ghost use Rattle.np_rules.specs.Views.{end_view};

    /// The spots that some port entry matches, whatever the address is. No entries at all stand for every spot.
    pub(crate) fn entries_set<E: PortEntry>(
        &self,
        alloc: Global,
        entries: &[E],
    ) -> Result<ConnSet, NoMemory>
        ensures { IfOk result (λ made. (a : Address) (spot : PortSpot) → is_spot spot ≡ true →
            has_spot made spot
            ≡ none_or_any (λ entry. E.matches entry (destination_of self.now.direction (end_view self.now.near) (address a)) spot)
            entries.now) }
    {
        match self.direction {
            Direction::Ingress => entries_set(alloc, entries, &self.near),
            Direction::Egress => {
                let some = EndView::At(Address::Six(V6::at(0).unwrap()));
                entries_set(alloc, entries, &some)
            }
        }
    }
}

// These connections at these addresses, and none at any other.
fn at_addresses(alloc: Global, addresses: &AddrSet, conns: &ConnSet) -> Result<AddrConns, NoMemory>
    ensures { IfOk result (λ made. (place : spec.AddressSpot) → spec.is_address_spot place ≡ true →
        spec.has_address_spot made place
        ≡ (set_has addresses.now (spec.address_of place) && has_spot conns.now (spec.spot_of place))) }
{
    let first = pieces_at(alloc, &addresses.first, conns)?;
    let second = pieces_at(alloc, &addresses.second, conns)?;
    Ok(Beside { first, second })
}

// The same at those of one family.
fn pieces_at<P: Point>(
    alloc: Global,
    addresses: &IntervalSet<P>,
    conns: &ConnSet,
) -> Result<Pieces<P, ConnSet>, NoMemory>
    ensures { IfOk result (λ made. (place : At P PortSpot) → pieces.has_spot P.number_of has_spot made place
        ≡ (is_between P.LOW P.HIGH (P.number_of place.point)
        && (holds P.number_of addresses.now (P.number_of place.point) && has_spot conns.now place.spot))) }
{
    let inside = conns.copy()?;
    let outside = ConnSet::nothing(alloc)?;
    Pieces::over(alloc, addresses, inside, outside)
}
