//! Blocks of addresses.
ghost use Rattle.std.specs.Prelude.{◌≡◌, ◌+◌, ◌-◌, ◌%◌, ◌^◌, ◌≤◌, ◌&&◌, nat_le, nat_lt};
ghost use Rattle.np_addr.specs.Addresses.{family_of, width_of, IsCidr, cidr_has};
ghost use Rattle.np_addr.specs.AddressGrammar.{block_of, cleared};
ghost use Rattle.np_addr.specs.Blocks.{bits_of, base_of};

use crate::address::Address;
use np_base::{Point, V4, V6};

/// A block of addresses: those whose first `length` bits are the first bits of `base`. It is well formed where the
/// length is at most 32 or 128 by its family, and the other bits of the base, the host bits, are zero. A length of
/// 0 is the whole family, and the greatest length is one address.
#[derive(Clone, Copy, Debug, PartialEq, Eq)]
pub enum Cidr {
    Four { base: V4, length: u8 },
    Six { base: V6, length: u8 },
}

/// Whether the address is in the block. An address of the other family is not.
pub fn cidr_has(cidr: &Cidr, address: Address) -> bool
    ensures { result ≡ cidr_has cidr.now address }
{
    match (cidr, address) {
        (Cidr::Four { base, length }, Address::Four(point)) => {
            covers(base.number(), free_bits(32, *length), point.number())
        }
        (Cidr::Six { base, length }, Address::Six(point)) => {
            covers(base.number(), free_bits(128, *length), point.number())
        }
        _ => false,
    }
}

// How many first bits the addresses of the block have in common.
pub(crate) fn bits_of(block: &Cidr) -> u8
    ensures { result ≡ bits_of block.now }
{
    match block {
        Cidr::Four { length, .. } | Cidr::Six { length, .. } => *length,
    }
}

// The first address of the block.
pub(crate) fn base_of(block: &Cidr) -> Address
    ensures { result ≡ base_of block.now }
{
    match block {
        Cidr::Four { base, .. } => Address::Four(*base),
        Cidr::Six { base, .. } => Address::Six(*base),
    }
}

// How many bits of so many are free behind the first `length`.
pub(crate) fn free_bits(width: u8, length: u8) -> u8
    ensures { result ≡ width - length }
{
    if length < width { width - length } else { 0 }
}

// Whether the number is one of those of the block that begins at `base`, in which `free` bits are free.
pub(crate) fn covers(base: u128, free: u8, number: u128) -> bool
    requires { free ≤ 128 }
    ensures { result ≡ (nat_le base number && nat_lt number (base + 2 ^ free)) }
{
    base <= number && number - base <= low_bits(free)
}

// The greatest number of so many bits.
pub(crate) fn low_bits(bits: u8) -> u128
    requires { bits ≤ 128 }
    ensures { result + 1 ≡ 2 ^ bits }
{
    if bits == 0 {
        0
    } else {
        u128::MAX >> (128 - bits)
    }
}

// The block of the addresses that have the same first bits as this one, `length` of them.
pub(crate) fn block_of(address: Address, length: u8) -> Cidr
    requires { length ≤ width_of (family_of address) }
    ensures block { result ≡ block_of address length }
    ensures well { IsCidr result }
{
    match address {
        Address::Four(point) => {
            let base = cleared(point.number(), 32 - length);
            Cidr::Four {
                base: V4::at(base).unwrap(),
                length,
            }
        }
        Address::Six(point) => {
            let base = cleared(point.number(), 128 - length);
            Cidr::Six {
                base: V6::at(base).unwrap(),
                length,
            }
        }
    }
}

// The number with its low bits cleared, so many of them.
fn cleared(number: u128, bits: u8) -> u128
    requires { bits ≤ 128 }
    ensures value { result ≡ cleared bits number }
    ensures rest { result % 2 ^ bits ≡ 0 }
    ensures lower { result ≤ number }
{
    number & !low_bits(bits)
}
