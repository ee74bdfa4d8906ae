//! The addresses that peers stand for, as sets.
ghost use Rattle.std.specs.Prelude.{◌≡◌, Bool, true, false, not, ◌&&◌, ◌||◌, IfOk};
ghost use Rattle.std.specs.List.{list_any};
ghost use Rattle.np_addr.specs.Prelude.{IsAddress, block_has, set_has};
ghost use Rattle.np_addr.specs.declared.address.Address.{Address};
ghost use Rattle.np_rules.specs.EveryAddress.{net_peer_has, admin_peer_has};
ghost use Rattle.np_rules.specs.model.Rules.{none_or_any};

use np_addr::{AddrSet, Cidr, cidr_set};
use np_base::{Cells, NoMemory};
use np_model::{AdminPeer, NetPeer};
use std::alloc::Global;

/// What stands for addresses.
pub(crate) trait StandsForAddresses {
    /// Whether an address is one of them.
    ghost stands_for: { Self → Address → Bool };

    /// Whether it is of a kind that stands for addresses.
    ghost is_of: { Self → Bool };

    /// What is not stands for none.
    ghost none_of_others: { (item : Self) (a : Address) → is_of item ≡ false → stands_for item a ≡ false };

    /// Whether it is of a kind that stands for addresses.
    fn is_of_addresses(&self) -> bool
        ensures { result ≡ is_of self.now };

    /// The addresses.
    fn addresses(&self, alloc: Global) -> Result<AddrSet, NoMemory>
        ensures { IfOk result (λ set. (a : Address) → IsAddress a → set_has set a ≡ stands_for self.now a) };
}

impl StandsForAddresses for Cidr {
    ghost use Rattle.np_addr.specs.Addresses.{cidr_has};
    ghost use Rattle.np_rules.specs.AddressRules.{is_cidr, none_of_other_cidrs};

    ghost stands_for = { cidr_has };

    ghost is_of = { is_cidr };

    ghost none_of_others = { none_of_other_cidrs };

    fn is_of_addresses(&self) -> bool {
        true
    }

    fn addresses(&self, alloc: Global) -> Result<AddrSet, NoMemory> {
        cidr_set(alloc, self)
    }
}

impl StandsForAddresses for NetPeer {
    ghost use Rattle.np_rules.specs.AddressRules.{is_block, none_of_pods};
    ghost use Rattle.np_rules.specs.EveryAddress.{net_peer_has};

    ghost stands_for = { net_peer_has };

    ghost is_of = { is_block };

    ghost none_of_others = { none_of_pods };

    fn is_of_addresses(&self) -> bool {
        match self {
            NetPeer::Pods { .. } => false,
            NetPeer::Block { .. } => true,
        }
    }

    fn addresses(&self, alloc: Global) -> Result<AddrSet, NoMemory> {
        match self {
            NetPeer::Pods { .. } => no_address(alloc),
            NetPeer::Block { cidr, excepts } => block_set(alloc, cidr, excepts.items()),
        }
    }
}

impl StandsForAddresses for AdminPeer {
    ghost use Rattle.np_rules.specs.AddressRules.{is_networks, none_of_admin_pods};
    ghost use Rattle.np_rules.specs.EveryAddress.{admin_peer_has};

    ghost stands_for = { admin_peer_has };

    ghost is_of = { is_networks };

    ghost none_of_others = { none_of_admin_pods };

    fn is_of_addresses(&self) -> bool {
        match self {
            AdminPeer::Pods { .. } => false,
            AdminPeer::Networks { .. } => true,
        }
    }

    fn addresses(&self, alloc: Global) -> Result<AddrSet, NoMemory> {
        match self {
            AdminPeer::Pods { .. } => no_address(alloc),
            AdminPeer::Networks { cidrs } => joined_set(alloc, cidrs.items()),
        }
    }
}

/// The addresses of the peers of a rule of a NetworkPolicy. No peers at all stand for every address.
pub(crate) fn net_addresses(alloc: Global, peers: &[NetPeer]) -> Result<AddrSet, NoMemory>
    ensures { IfOk result (λ set. (a : Address) → IsAddress a →
        set_has set a ≡ none_or_any (λ peer. net_peer_has peer a) peers.now) }
{
    if peers.is_empty() {
        all_addresses(alloc)
    } else {
        joined_set(alloc, peers)
    }
}

/// The addresses that some item stands for. Where all are of a kind that stands for none, no set is made.
pub(crate) fn joined_set<A: StandsForAddresses>(
    alloc: Global,
    items: &[A],
) -> Result<AddrSet, NoMemory>
    ensures { IfOk result (λ set. (a : Address) → IsAddress a →
        set_has set a ≡ list_any (λ item. A.stands_for item a) items.now) }
{
    if are_of_addresses(items) {
        joined_by_halves(alloc, items)
    } else {
        no_address(alloc)
    }
}

/// Whether some item is of a kind that stands for addresses.
pub(crate) fn are_of_addresses<A: StandsForAddresses>(items: &[A]) -> bool
    ensures { result ≡ list_any A.is_of items.now }
{
    items.iter().any(|item| item.is_of_addresses())
}

// The same. The sets of both halves of the items are joined, so that n items take time n log n; one item alone, as most rules
// have, is not joined.
fn joined_by_halves<A: StandsForAddresses>(alloc: Global, items: &[A]) -> Result<AddrSet, NoMemory>
    ensures { IfOk result (λ set. (a : Address) → IsAddress a →
        set_has set a ≡ list_any (λ item. A.stands_for item a) items.now) }
{
    match items {
        [] => no_address(alloc),
        [item] => item.addresses(alloc),
        _ => {
            let (front, back) = items.split_at(items.len() / 2);
            let first = joined_by_halves(alloc, front)?;
            let second = joined_by_halves(alloc, back)?;
            join(&first, &second)
        }
    }
}

fn no_address(alloc: Global) -> Result<AddrSet, NoMemory>
    ensures { IfOk result (λ set. (a : Address) → set_has set a ≡ false) }
{
    AddrSet::nothing(alloc)
}

fn all_addresses(alloc: Global) -> Result<AddrSet, NoMemory>
    ensures { IfOk result (λ set. (a : Address) → IsAddress a → set_has set a ≡ true) }
{
    AddrSet::everything(alloc)
}

fn join(one: &AddrSet, other: &AddrSet) -> Result<AddrSet, NoMemory>
    ensures { IfOk result (λ set. (a : Address) → set_has set a ≡ (set_has one.now a || set_has other.now a)) }
{
    one.join(other)
}

fn minus(whole: &AddrSet, part: &AddrSet) -> Result<AddrSet, NoMemory>
    ensures { IfOk result (λ set. (a : Address) → set_has set a ≡ (set_has whole.now a && not (set_has part.now a))) }
{
    whole.minus(part)
}

// The addresses of a block that are in none of the exceptions.
fn block_set(alloc: Global, cidr: &Cidr, excepts: &[Cidr]) -> Result<AddrSet, NoMemory>
    ensures { IfOk result (λ set. (a : Address) → IsAddress a → set_has set a ≡ block_has cidr.now excepts.now a) }
{
    let whole = cidr_set(alloc, cidr)?;
    let holes = joined_set(alloc, excepts)?;
    minus(&whole, &holes)
}
