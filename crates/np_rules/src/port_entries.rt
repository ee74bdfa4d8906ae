//! Whether a port entry matches a protocol and a port.
ghost use Rattle.std.specs.Prelude.{◌≡◌};
ghost use Rattle.std.specs.List.{list_any};
ghost use Rattle.np_rules.specs.model.PortEntries as spec;
ghost use Rattle.np_rules.specs.Prelude.{end_view, none_or_any};

use crate::views::EndView;
use np_base::PortNum;
use np_conns::{PortSpot, Proto};
use np_model::{AdminPort, NamedPort, NetPort};

/// Whether some port entry of a rule of a NetworkPolicy matches. No entries at all match every protocol and port.
pub(crate) fn net_entries_match(
    entries: &[NetPort],
    destination: &EndView<'_>,
    spot: PortSpot,
) -> bool
    ensures { result ≡ none_or_any (λ entry. spec.net_entry_matches entry (end_view destination.now) spot) entries.now }
{
    entries.is_empty() || some_net_entry_matches(entries, destination, spot)
}

fn some_net_entry_matches(entries: &[NetPort], destination: &EndView<'_>, spot: PortSpot) -> bool
    ensures { result ≡ list_any (λ entry. spec.net_entry_matches entry (end_view destination.now) spot) entries.now }
{
    entries
        .iter()
        .any(|entry| net_entry_matches(entry, destination, spot))
}

fn net_entry_matches(entry: &NetPort, destination: &EndView<'_>, spot: PortSpot) -> bool
    ensures { result ≡ spec.net_entry_matches entry.now (end_view destination.now) spot }
{
    match entry {
        NetPort::Span { proto, lo, hi } => in_span(*proto, *lo, *hi, spot),
        NetPort::Named { proto, name } => {
            spot.proto == *proto && has_named(name.as_str(), spot, destination)
        }
    }
}

/// Whether some port entry of an admin rule matches. No entries at all match every protocol and port.
pub(crate) fn admin_entries_match(
    entries: &[AdminPort],
    destination: &EndView<'_>,
    spot: PortSpot,
) -> bool
    ensures { result ≡ none_or_any (λ entry. spec.admin_entry_matches entry (end_view destination.now) spot) entries.now }
{
    entries.is_empty() || some_admin_entry_matches(entries, destination, spot)
}

fn some_admin_entry_matches(
    entries: &[AdminPort],
    destination: &EndView<'_>,
    spot: PortSpot,
) -> bool
    ensures { result ≡ list_any (λ entry. spec.admin_entry_matches entry (end_view destination.now) spot) entries.now }
{
    entries
        .iter()
        .any(|entry| admin_entry_matches(entry, destination, spot))
}

fn admin_entry_matches(entry: &AdminPort, destination: &EndView<'_>, spot: PortSpot) -> bool
    ensures { result ≡ spec.admin_entry_matches entry.now (end_view destination.now) spot }
{
    match entry {
        AdminPort::Span { proto, lo, hi } => in_span(*proto, *lo, *hi, spot),
        AdminPort::Named { name } => has_named(name.as_str(), spot, destination),
    }
}

// Whether the spot has the protocol, and a port from `lo` to `hi`.
fn in_span(proto: Proto, lo: PortNum, hi: PortNum, spot: PortSpot) -> bool
    ensures { result ≡ spec.in_span proto lo hi spot }
{
    spot.proto == proto && (lo <= spot.port && spot.port <= hi)
}

// Whether the spot is a port of that name at the end.
fn has_named(name: &str, spot: PortSpot, end: &EndView<'_>) -> bool
    ensures { result ≡ spec.has_named name.now spot (end_view end.now) }
{
    match end {
        EndView::Pod(pod) => some_is_named(name, spot, pod.ports),
        EndView::At(_) => false,
    }
}

fn some_is_named(name: &str, spot: PortSpot, ports: &[NamedPort]) -> bool
    ensures { result ≡ list_any (spec.is_named name.now spot) ports.now }
{
    ports.iter().any(|port| is_named(name, spot, port))
}

fn is_named(name: &str, spot: PortSpot, port: &NamedPort) -> bool
    ensures { result ≡ spec.is_named name.now spot port.now }
{
    port.name.as_str() == name && (spot.proto == port.proto && spot.port == port.number)
}
