//! Reading addresses and blocks of addresses.
ghost use Rattle.std.specs.Prelude.{◌≡◌, ◌≤◌, Some, None, IfSome, IfOk, OnErr};
ghost use Rattle.np_addr.specs.Addresses.{family_of, width_of, IsCidr};
ghost use Rattle.np_addr.specs.AddressGrammar.{address_of, length_of, block_of, block_between, cidr_of};

use crate::address::Address;
use crate::cidr::{Cidr, block_of};
use crate::ipv4::read_ipv4;
use crate::ipv6::read_ipv6;
use crate::numeral::read_numeral;
use crate::pieces::split_first;
use np_base::{Point, V4, V6};
use std::fmt;

/// The text is not that of an address.
#[derive(Clone, Copy, Debug, PartialEq, Eq)]
pub struct BadAddress;

impl fmt::Display for BadAddress {
    ghost use Rattle.std.specs.Prelude.{Some, codes};

    ghost output = { λ _. Some (codes "not an IP address") };

    fn fmt<W: fmt::Write>(&self, f: &mut fmt::Formatter<W>) -> fmt::Result {
        write!(f, "not an IP address")
    }
}

impl std::error::Error for BadAddress {}

/// The text is not that of a block of addresses.
#[derive(Clone, Copy, Debug, PartialEq, Eq)]
pub struct BadCidr;

impl fmt::Display for BadCidr {
    ghost use Rattle.std.specs.Prelude.{Some, codes};

    ghost output = { λ _. Some (codes "not a block of IP addresses") };

    fn fmt<W: fmt::Write>(&self, f: &mut fmt::Formatter<W>) -> fmt::Result {
        write!(f, "not a block of IP addresses")
    }
}

impl std::error::Error for BadCidr {}

/// The address that the text writes (RFC 4291, section 2.2). It takes no memory.
///
/// An IPv4 address is four parts with a dot between each two, each of one to three decimal digits and at most 255;
/// leading zeros are allowed, and the digits are decimal all the same. An IPv6 address is eight groups with a colon
/// between each two, each of one to four hexadecimal digits of either case. `::` may stand once for one or more zero
/// groups, and the last two groups may be written as an IPv4 address. There is no zone. Any other text is refused.
pub fn read_address(text: &str) -> Result<Address, BadAddress>
    ensures read { IfOk result (λ address. address_of text.now ≡ Some address) }
    ensures refused { OnErr result (address_of text.now ≡ None) }
{
    find_address(text).ok_or(BadAddress)
}

/// The block that the text writes: an address, `/`, and a length of at most 32 or 128 by the address's family, in
/// decimal without a sign or a leading zero. Host bits of the address are cleared. Any other text is refused. It takes
/// no memory.
pub fn read_cidr(text: &str) -> Result<Cidr, BadCidr>
    ensures read { IfOk result (λ cidr. cidr_of text.now ≡ Some cidr) }
    ensures well { IfOk result IsCidr }
    ensures refused { OnErr result (cidr_of text.now ≡ None) }
{
    find_cidr(text).ok_or(BadCidr)
}

// The address that the text writes, if it writes one.
#[tactic(auto, unfolding(crate::specs::AddressGrammar::address_of))]
fn find_address(text: &str) -> Option<Address>
    ensures { result ≡ address_of text.now }
{
    if let Some(number) = read_ipv4(text) {
        return V4::at(u128::from(number)).map(Address::Four);
    }
    let number = read_ipv6(text)?;
    V6::at(number).map(Address::Six)
}

// The block that the text writes, if it writes one.
#[tactic(auto, unfolding(crate::specs::AddressGrammar::cidr_of))]
fn find_cidr(text: &str) -> Option<Cidr>
    ensures read { result ≡ cidr_of text.now }
    ensures well { IfSome result IsCidr }
{
    let (before, after) = split_first(text, '/')?;
    find_block(before, after)
}

// The block of an address and a length, from their texts.
fn find_block(before: &str, after: &str) -> Option<Cidr>
    ensures block { result ≡ block_between before.now after.now }
    ensures well { IfSome result IsCidr }
{
    let address = find_address(before)?;
    let length = read_length(after, width_of(&address))?;
    Some(block_of(address, length))
}

// How many bits an address of the same family has.
fn width_of(address: &Address) -> u8
    ensures { result ≡ width_of (family_of address.now) }
{
    match address {
        Address::Four(_) => 32,
        Address::Six(_) => 128,
    }
}

// A length of at most `most` bits.
#[tactic(auto, unfolding(crate::specs::AddressGrammar::length_of))]
fn read_length(text: &str, most: u8) -> Option<u8>
    ensures length { result ≡ length_of most text.now }
    ensures within { IfSome result (λ length. length ≤ most) }
{
    let length = read_numeral(text, 10, 3)?;
    if text.len() > 1 && text.as_bytes()[0] == b'0' {
        return None;
    }
    if length > u16::from(most) {
        return None;
    }
    Some(length as u8)
}
