//! A list of addresses in which blocks are looked up.
ghost use Rattle.std.specs.Prelude.{◌≡◌, ◌+◌, ◌^◌, ◌≤◌, [], IfOk};
ghost use Rattle.std.specs.List.Sorted.{IsNonDecreasing};
ghost use Rattle.std.specs.List.{list_any};
ghost use Rattle.np_addr.specs.Addresses.{cidr_has};
ghost use Rattle.np_addr.specs.Numbers as spec;

use crate::address::{Address, Family};
use crate::cidr::{Cidr, covers, free_bits};
use np_base::{NoMemory, Point, Seq};
use std::alloc::Global;
use std::marker::Model;

/// Addresses in the order in which they were listed, as those of a pod. Contracts see that list. Beside it are the numbers
/// of each family, sorted, so that a block is looked up by halves.
#[derive(Debug, Drop)]
pub struct Addresses {
    listed: Seq<Address>,
    four: Vec<u128>,
    six: Vec<u128>,
}

impl Model for Addresses {
    ghost use Rattle.std.specs.Prelude.{List};
    ghost use Rattle.np_addr.specs.Numbers.{AreNumbersOf};
    ghost use Rattle.np_addr.specs.declared.address.Address.{Address};
    ghost use Rattle.np_addr.specs.declared.address.Family.TheVariants as family;

    ghost Value = { List Address };

    ghost view = { λ a. a.listed };

    ghost invariant = { λ a. AreNumbersOf family.Four a.listed a.four.items × AreNumbersOf family.Six a.listed a.six.items };
}

impl Addresses {
    /// These addresses, in this order.
    pub fn of(alloc: Global, listed: Seq<Address>) -> Result<Addresses, NoMemory>
        ensures { IfOk result (λ made. made ≡ listed) }
    {
        let four = numbers_of(alloc, Family::Four, listed.items())?;
        let six = numbers_of(alloc, Family::Six, listed.items())?;
        Ok(Addresses { listed, four, six })
    }

    /// No addresses. It takes no memory.
    pub fn nothing(alloc: Global) -> Addresses
        ensures { result ≡ [] }
    {
        Addresses {
            listed: Seq::new(alloc),
            four: Vec::new(alloc),
            six: Vec::new(alloc),
        }
    }

    /// The addresses, lent.
    pub fn items(&self) -> &[Address]
        ensures { result.now ≡ self.now }
    {
        self.listed.items()
    }

    /// Whether some address is in a block. It takes time log n.
    pub fn some_in(&self, cidr: &Cidr) -> bool
        ensures { result ≡ list_any (cidr_has cidr.now) self.now }
    {
        match cidr {
            Cidr::Four { base, length } => {
                some_covered(&self.four, base.number(), free_bits(32, *length))
            }
            Cidr::Six { base, length } => {
                some_covered(&self.six, base.number(), free_bits(128, *length))
            }
        }
    }
}

// The numbers of the addresses of a family, in ascending order.
fn numbers_of(alloc: Global, family: Family, listed: &[Address]) -> Result<Vec<u128>, NoMemory>
    ensures { IfOk result (λ made. spec.AreNumbersOf family listed.now made.items) }
{
    let mut numbers = Vec::new(alloc);
    for address in listed {
        match (family, *address) {
            (Family::Four, Address::Four(point)) => numbers.push(point.number())?,
            (Family::Six, Address::Six(point)) => numbers.push(point.number())?,
            _ => {}
        }
    }
    numbers.sort_unstable();
    Ok(numbers)
}

// Whether some of the numbers, which ascend, is one of those of a block that begins at `base`, in which `free` bits are free.
// The first of them that is not below the base tells it.
fn some_covered(numbers: &[u128], base: u128, free: u8) -> bool
    requires ascending { IsNonDecreasing numbers.now }
    requires free { free ≤ 128 }
    ensures { result ≡ list_any (spec.is_covered base free) numbers.now }
{
    let place = numbers.partition_point(|number| *number < base);
    match numbers.get(place) {
        Some(number) => covers(base, free, *number),
        None => false,
    }
}
