//! Whether a rule matches.
ghost use Rattle.std.specs.Prelude.{◌≡◌};
ghost use Rattle.np_rules.specs.model.Rules as spec;
ghost use Rattle.np_rules.specs.Prelude.{contact_view};

use crate::peers::{admin_peers_match, net_peers_match};
use crate::port_entries::{admin_entries_match, net_entries_match};
use crate::views::ContactView;
use np_model::{AdminRule, NetRule};

/// Whether a rule of a NetworkPolicy of this namespace matches.
pub(crate) fn net_rule_matches(namespace: &str, rule: &NetRule, contact: &ContactView<'_>) -> bool
    ensures { result ≡ spec.net_rule_matches namespace.now rule.now (contact_view contact.now) }
{
    net_peers_match(namespace, rule.peers.items(), &contact.far)
        && net_entries_match(rule.ports.items(), &contact.destination, contact.spot)
}

/// Whether an admin rule matches.
pub(crate) fn admin_rule_matches(rule: &AdminRule, contact: &ContactView<'_>) -> bool
    ensures { result ≡ spec.admin_rule_matches rule.now (contact_view contact.now) }
{
    admin_peers_match(rule.peers.items(), &contact.far, contact.family)
        && admin_entries_match(rule.ports.items(), &contact.destination, contact.spot)
}
