//! The order of traits.
ghost use Rattle.std.specs.Prelude.{◌≡◌};
ghost use Rattle.std.specs.Cmp.Lexicographic.{slice_cmp};
ghost use Rattle.np_fold.specs.Order as spec;
ghost use Rattle.np_conns.specs.Prelude.{proto_number};

use crate::traits::Traits;
use np_conns::Proto;
use np_model::{NamedPort, Owner};
use std::cmp::Ordering;

impl PartialEq for Traits {
    ghost use Rattle.std.specs.Cmp.{eq_by_cmp_equiv, partial_equiv_from_equiv};
    ghost use Rattle.std.specs.Ordering.{eq_by_cmp};
    ghost use Rattle.np_fold.specs.Order.{compare_traits, traits_total};

    ghost eq = { eq_by_cmp compare_traits };

    ghost laws = { partial_equiv_from_equiv (eq_by_cmp_equiv traits_total) };

    fn eq(&self, other: &Traits) -> bool {
        self.cmp(other).is_eq()
    }
}

impl Eq for Traits {
    ghost use Rattle.std.specs.Cmp.{eq_by_cmp_equiv};
    ghost use Rattle.np_fold.specs.Order.{traits_total};

    ghost laws = { eq_by_cmp_equiv traits_total };
}

impl PartialOrd for Traits {
    ghost use Rattle.std.specs.Prelude.{Some, refl};
    ghost use Rattle.std.specs.Cmp.{po};
    ghost use Rattle.np_fold.specs.Order.{compare_traits, traits_total};

    ghost partial_cmp = { λ x y. Some (compare_traits x y) };

    ghost laws = { po traits_total (λ x y. refl) };

    fn partial_cmp(&self, other: &Traits) -> Option<Ordering> {
        Some(self.cmp(other))
    }
}

impl Ord for Traits {
    ghost use Rattle.std.specs.Prelude.{refl};
    ghost use Rattle.np_fold.specs.Order.{compare_traits, traits_total};

    ghost cmp = { compare_traits };

    ghost total = { traits_total };

    ghost matches_partial_cmp = { λ x y. refl };

    ghost matches_eq = { λ x y. refl };

    fn cmp(&self, other: &Traits) -> Ordering {
        self.namespace
            .cmp(&other.namespace)
            .then(compare_owners(&self.owner, &other.owner))
            .then(self.labels.items().cmp(other.labels.items()))
            .then(compare_port_lists(self.ports.items(), other.ports.items()))
            .then(self.blocks.items().cmp(other.blocks.items()))
    }
}

// By kind, and then by name.
fn compare_owners(owner: &Owner, other: &Owner) -> Ordering
    ensures { result ≡ spec.compare_owners owner.now other.now }
{
    owner
        .kind
        .cmp(&other.kind)
        .then(owner.name.cmp(&other.name))
}

// By the first difference, and where there is none by their lengths.
fn compare_port_lists(ports: &[NamedPort], others: &[NamedPort]) -> Ordering
    ensures { result ≡ slice_cmp spec.compare_ports ports.now others.now }
{
    for (place, port) in ports.iter().enumerate() {
        let Some(other) = others.get(place) else {
            return Ordering::Greater;
        };
        let order = compare_ports(port, other);
        if order.is_ne() {
            return order;
        }
    }
    ports.len().cmp(&others.len())
}

// By name, then by protocol, and then by number.
fn compare_ports(port: &NamedPort, other: &NamedPort) -> Ordering
    ensures { result ≡ spec.compare_ports port.now other.now }
{
    port.name
        .cmp(&other.name)
        .then(rank(port.proto).cmp(&rank(other.proto)))
        .then(port.number.get().cmp(&other.number.get()))
}

// The place of a protocol among the three.
fn rank(proto: Proto) -> u8
    ensures { result ≡ proto_number proto }
{
    match proto {
        Proto::Tcp => 0,
        Proto::Udp => 1,
        Proto::Sctp => 2,
    }
}
