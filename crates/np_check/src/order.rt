//! The order of ends.
ghost use Rattle.std.specs.Prelude.{◌≡◌};
ghost use Rattle.np_check.specs.Order as spec;

use crate::counterexample::PlaceEnd;
use np_addr::Address;
use np_base::Point;

/// Whether an end stands before another: workloads by number before addresses, IPv4 before IPv6, addresses by number.
pub(crate) fn comes_before(one: &PlaceEnd, other: &PlaceEnd) -> bool
    ensures { result ≡ spec.comes_before one.now other.now }
{
    match one {
        PlaceEnd::Work(a) => match other {
            PlaceEnd::Work(b) => a < b,
            PlaceEnd::At(_) => true,
        },
        PlaceEnd::At(a) => match other {
            PlaceEnd::Work(_) => false,
            PlaceEnd::At(b) => address_before(a, b),
        },
    }
}

// Whether an address stands before another.
fn address_before(one: &Address, other: &Address) -> bool
    ensures { result ≡ spec.address_before one.now other.now }
{
    match one {
        Address::Four(a) => match other {
            Address::Four(b) => a.number() < b.number(),
            Address::Six(_) => true,
        },
        Address::Six(a) => match other {
            Address::Four(_) => false,
            Address::Six(b) => a.number() < b.number(),
        },
    }
}
