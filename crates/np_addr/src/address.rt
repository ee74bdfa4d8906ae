//! IP addresses of either family.
ghost use Rattle.std.specs.Prelude.{◌≡◌};
ghost use Rattle.np_addr.specs.Addresses.{family_of, width_of};

use np_base::{V4, V6};

/// An IP address. An IPv4-mapped IPv6 address is an IPv6 address.
#[derive(Clone, Copy, Debug, PartialEq, Eq, PartialOrd, Ord)]
pub enum Address {
    Four(V4),
    Six(V6),
}

/// A family of addresses: IPv4 or IPv6.
#[derive(Clone, Copy, Debug, PartialEq, Eq, PartialOrd, Ord)]
pub enum Family {
    Four,
    Six,
}

/// The family of an address.
pub fn family_of(address: Address) -> Family
    ensures { result ≡ family_of address }
{
    match address {
        Address::Four(_) => Family::Four,
        Address::Six(_) => Family::Six,
    }
}

// How many bits an address of the family has.
pub(crate) fn width_of(family: Family) -> u8
    ensures { result ≡ width_of family }
{
    match family {
        Family::Four => 32,
        Family::Six => 128,
    }
}
