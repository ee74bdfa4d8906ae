//! The protocols and ports of port entries, as sets.
ghost use Rattle.std.specs.Prelude.{◌≡◌, Bool, true, false, ◌&&◌, ◌||◌, ◌==◌, IfOk};
ghost use Rattle.std.specs.Bool.{OnTrue};
ghost use Rattle.std.specs.List.{list_any};
ghost use Rattle.std.specs.Str.{bytes_eq};
ghost use Rattle.np_conns.specs.Prelude.{has_spot, is_spot, same_proto};
ghost use Rattle.np_conns.specs.declared.port_spot.PortSpot.{PortSpot};
ghost use Rattle.np_addr.specs.declared.address.Address.{Address};
ghost use Rattle.np_rules.specs.model.Ends.{ModelEnd, address};
ghost use Rattle.np_rules.specs.model.PortEntries as spec;
ghost use Rattle.np_rules.specs.PortNames.{has_name};
ghost use Rattle.np_rules.specs.model.Rules.{none_or_any};
ghost use Rattle.np_rules.specs.Views.{end_view};

use crate::views::EndView;
use np_base::{Cells, NoMemory, PortNum};
use np_conns::{ConnSet, Proto};
use np_model::{AdminPort, NamedPort, NetPort};
use std::alloc::Global;

/// A port entry of a rule.
pub(crate) trait PortEntry {
    /// Whether it matches, for a packet to a destination.
    ghost matches: { Self → ModelEnd → PortSpot → Bool };

    /// The spots that it matches.
    fn spots(&self, alloc: Global, destination: &EndView<'_>) -> Result<ConnSet, NoMemory>
        ensures { IfOk result (λ made. (spot : PortSpot) → is_spot spot ≡ true →
            has_spot made spot ≡ matches self.now (end_view destination.now) spot) };

    /// Whether it names ports, and none at a destination has that name, so that it matches nothing there.
    fn names_no_port(&self, destination: &EndView<'_>) -> bool
        ensures { OnTrue result ((spot : PortSpot) → matches self.now (end_view destination.now) spot ≡ false) };

    /// At an address it matters not which.
    ghost same_at_addresses: { (entry : Self) (a b : Address) (spot : PortSpot) →
        matches entry (address a) spot ≡ matches entry (address b) spot };
}

impl PortEntry for NetPort {
    ghost use Rattle.np_rules.specs.model.PortEntries.{net_entry_matches, net_same_at_addresses};

    ghost matches = { net_entry_matches };

    ghost same_at_addresses = { net_same_at_addresses };

    fn spots(&self, alloc: Global, destination: &EndView<'_>) -> Result<ConnSet, NoMemory> {
        match self {
            NetPort::Span { proto, lo, hi } => span_set(alloc, *proto, *lo, *hi),
            NetPort::Named { proto, name } => {
                named_of_protocol(alloc, *proto, name.as_str(), destination)
            }
        }
    }

    fn names_no_port(&self, destination: &EndView<'_>) -> bool {
        match self {
            NetPort::Span { .. } => false,
            NetPort::Named { name, .. } => !has_port_named(name.as_str(), destination),
        }
    }
}

impl PortEntry for AdminPort {
    ghost use Rattle.np_rules.specs.model.PortEntries.{admin_entry_matches, admin_same_at_addresses};

    ghost matches = { admin_entry_matches };

    ghost same_at_addresses = { admin_same_at_addresses };

    fn spots(&self, alloc: Global, destination: &EndView<'_>) -> Result<ConnSet, NoMemory> {
        match self {
            AdminPort::Span { proto, lo, hi } => span_set(alloc, *proto, *lo, *hi),
            AdminPort::Named { name } => named_at(alloc, name.as_str(), destination),
        }
    }

    fn names_no_port(&self, destination: &EndView<'_>) -> bool {
        match self {
            AdminPort::Span { .. } => false,
            AdminPort::Named { name } => !has_port_named(name.as_str(), destination),
        }
    }
}

/// The spots that some port entry matches. No entries at all stand for every spot.
pub(crate) fn entries_set<E: PortEntry>(
    alloc: Global,
    entries: &[E],
    destination: &EndView<'_>,
) -> Result<ConnSet, NoMemory>
    ensures { IfOk result (λ made. (spot : PortSpot) → is_spot spot ≡ true →
        has_spot made spot ≡ none_or_any (λ entry. E.matches entry (end_view destination.now) spot) entries.now) }
{
    if entries.is_empty() {
        ConnSet::everything(alloc)
    } else {
        joined_set(alloc, entries, destination)
    }
}

// The spots that some entry matches.
fn joined_set<E: PortEntry>(
    alloc: Global,
    entries: &[E],
    destination: &EndView<'_>,
) -> Result<ConnSet, NoMemory>
    ensures { IfOk result (λ made. (spot : PortSpot) → is_spot spot ≡ true →
        has_spot made spot ≡ list_any (λ entry. E.matches entry (end_view destination.now) spot) entries.now) }
{
    if let [entry] = entries {
        return entry.spots(alloc, destination);
    }
    let matching = entries_toward(alloc, entries, destination)?;
    joined_by_halves(alloc, &matching, destination)
}

// The entries but those that name ports of which the destination has none. A rule may have thousands of these, and no set is
// made for them.
fn entries_toward<'a, E: PortEntry>(
    alloc: Global,
    entries: &'a [E],
    destination: &EndView<'_>,
) -> Result<Vec<&'a E>, NoMemory>
    ensures { IfOk result (λ made. (spot : PortSpot) →
        list_any (λ entry. E.matches entry.now (end_view destination.now) spot) made.items
        ≡ list_any (λ entry. E.matches entry (end_view destination.now) spot) entries.now) }
{
    let mut made = Vec::new(alloc);
    for entry in entries {
        if !entry.names_no_port(destination) {
            made.push(entry)?;
        }
    }
    Ok(made)
}

// The same. The sets of both halves of the entries are joined, so that n entries take time n log n; one entry alone, as most
// rules have, is not joined.
fn joined_by_halves<E: PortEntry>(
    alloc: Global,
    entries: &[&E],
    destination: &EndView<'_>,
) -> Result<ConnSet, NoMemory>
    ensures { IfOk result (λ made. (spot : PortSpot) → is_spot spot ≡ true →
        has_spot made spot ≡ list_any (λ entry. E.matches entry.now (end_view destination.now) spot) entries.now) }
{
    match entries {
        [] => ConnSet::nothing(alloc),
        [entry] => entry.spots(alloc, destination),
        _ => {
            let (front, back) = entries.split_at(entries.len() / 2);
            let first = joined_by_halves(alloc, front, destination)?;
            let second = joined_by_halves(alloc, back, destination)?;
            first.join(&second)
        }
    }
}

// Whether some port of the end has that name.
fn has_port_named(name: &str, end: &EndView<'_>) -> bool
    ensures { result ≡ has_name name.now (end_view end.now) }
{
    match end {
        EndView::Pod(pod) => is_some_port_named(name, pod.ports),
        EndView::At(_) => false,
    }
}

fn is_some_port_named(name: &str, ports: &[NamedPort]) -> bool
    ensures { result ≡ list_any (λ port. bytes_eq port.name name.now) ports.now }
{
    ports.iter().any(|port| port.name.as_str() == name)
}

// The ports of a protocol from `lo` to `hi`. Where `hi` is below `lo` there are none.
fn span_set(alloc: Global, proto: Proto, lo: PortNum, hi: PortNum) -> Result<ConnSet, NoMemory>
    ensures { IfOk result (λ made. (spot : PortSpot) → has_spot made spot ≡ spec.in_span proto lo hi spot) }
{
    if lo <= hi {
        ConnSet::of(alloc, proto, lo, hi)
    } else {
        ConnSet::nothing(alloc)
    }
}

// The ports of that name at the end, of one protocol.
fn named_of_protocol(
    alloc: Global,
    proto: Proto,
    name: &str,
    end: &EndView<'_>,
) -> Result<ConnSet, NoMemory>
    ensures { IfOk result (λ made. (spot : PortSpot) →
        has_spot made spot ≡ (same_proto spot.proto proto && spec.has_named name.now spot (end_view end.now))) }
{
    match end {
        EndView::Pod(pod) => {
            let numbers = numbers_named(alloc, proto, name, pod.ports)?;
            ConnSet::of_ports(alloc, proto, numbers)
        }
        EndView::At(_) => ConnSet::nothing(alloc),
    }
}

// The ports of that name at the end, of every protocol.
fn named_at(alloc: Global, name: &str, end: &EndView<'_>) -> Result<ConnSet, NoMemory>
    ensures { IfOk result (λ made. (spot : PortSpot) → has_spot made spot ≡ spec.has_named name.now spot (end_view end.now)) }
{
    let tcp = named_of_protocol(alloc, Proto::Tcp, name, end)?;
    let more = with_named(alloc, &tcp, Proto::Udp, name, end)?;
    with_named(alloc, &more, Proto::Sctp, name, end)
}

// A set with the ports of that name at the end, of one protocol, beside its own.
fn with_named(
    alloc: Global,
    set: &ConnSet,
    proto: Proto,
    name: &str,
    end: &EndView<'_>,
) -> Result<ConnSet, NoMemory>
    ensures { IfOk result (λ made. (spot : PortSpot) → has_spot made spot
        ≡ (has_spot set.now spot || (same_proto spot.proto proto && spec.has_named name.now spot (end_view end.now)))) }
{
    let named = named_of_protocol(alloc, proto, name, end)?;
    set.join(&named)
}

// The numbers of the ports of that name and protocol.
fn numbers_named(
    alloc: Global,
    proto: Proto,
    name: &str,
    ports: &[NamedPort],
) -> Result<Vec<PortNum>, NoMemory>
    ensures { IfOk result (λ made. (spot : PortSpot) → same_proto spot.proto proto ≡ true →
        list_any (λ number. number == spot.port) made.items ≡ list_any (spec.is_named name.now spot) ports.now) }
{
    let mut numbers = Vec::new(alloc);
    for port in ports {
        if port.proto == proto && port.name.as_str() == name {
            numbers.push(port.number)?;
        }
    }
    Ok(numbers)
}
