//! The rules that may match an address.
ghost use Rattle.std.specs.Prelude.{◌≡◌, Bool, IfOk, filter, map};

use crate::address_sets::are_of_addresses;
use np_base::NoMemory;
use np_model::{AdminRule, NetRule};
use std::alloc::Global;

/// A rule that matches no address unless it has a peer of a kind that stands for addresses.
pub(crate) trait AddressRule {
    /// Whether it may match an address.
    ghost may_match: { Self → Bool };

    /// Whether it may match an address.
    fn may_match_addresses(&self) -> bool
        ensures { result ≡ may_match self.now };
}

impl AddressRule for AdminRule {
    ghost use Rattle.np_rules.specs.AddressRules.{admin_rule_of_addresses};

    ghost may_match = { admin_rule_of_addresses };

    fn may_match_addresses(&self) -> bool {
        are_of_addresses(self.peers.items())
    }
}

impl AddressRule for NetRule {
    ghost use Rattle.np_rules.specs.AddressRules.{net_rule_of_addresses};

    ghost may_match = { net_rule_of_addresses };

    fn may_match_addresses(&self) -> bool {
        let peers = self.peers.items();
        peers.is_empty() || are_of_addresses(peers)
    }
}

/// Those of the rules that may match an address, in order.
pub(crate) fn rules_of_addresses<'a, R: AddressRule>(
    alloc: Global,
    rules: &[&'a R],
) -> Result<Vec<&'a R>, NoMemory>
    ensures { IfOk result (λ made. map (λ rule. rule.now) made.items
        ≡ filter R.may_match (map (λ rule. rule.now) rules.now)) }
{
    let mut made = Vec::new(alloc);
    for rule in rules {
        if rule.may_match_addresses() {
            made.push(*rule)?;
        }
    }
    Ok(made)
}
