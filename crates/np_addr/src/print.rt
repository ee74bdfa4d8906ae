//! The one canonical text of each address and of each block.
ghost use Rattle.std.specs.Prelude.{◌≡◌, ℕ, ◌+◌, ◌*◌, ◌/◌, ◌%◌, ◌^◌, ◌<◌, ◌≤◌, ◌++◌, length, codes, decimal, Some, IfOk, OnOk, string_bytes};
ghost use Rattle.np_addr.specs.Prelude.{IsAddress, IsCidr, address_of, address_text, cidr_of, cidr_text, group_at, groups_text, ipv4_text, ipv6_text, shortened_text};
ghost use Rattle.std.specs.List.{join_by};
ghost use Rattle.std.specs.Net.Text.{longest_zero_run};
ghost use Rattle.np_addr.specs.AddressText.{groups_of};

use crate::address::Address;
use crate::cidr::{Cidr, base_of, bits_of};
use itoa::Buffer;
use np_base::{NoMemory, Point, Text};
use std::alloc::Global;

/// The canonical text of an address (RFC 5952, section 4). An IPv4 address is four decimal parts without leading
/// zeros. An IPv6 address is hexadecimal groups in lower case without leading zeros, with `::` for the longest run of
/// two or more zero groups, the first of two as long, and never with a dotted tail.
pub fn print_address(alloc: Global, address: Address) -> Result<Text, NoMemory>
    ensures canonical { IfOk result (λ text. text ≡ address_text address) }
    ensures reads_again { IfOk result (λ text. address_of text ≡ Some address) }
{
    let text = address_string(alloc, address)?;
    Ok(Text::from_string(text))
}

/// The text of a block: its first address as `print_address` prints it, `/`, and its length in decimal.
pub fn print_cidr(alloc: Global, cidr: Cidr) -> Result<Text, NoMemory>
    ensures canonical { IfOk result (λ text. text ≡ cidr_text cidr) }
    ensures reads_again { IsCidr cidr → IfOk result (λ text. cidr_of text ≡ Some cidr) }
{
    let mut text = address_string(alloc, base_of(&cidr))?;
    text.push('/')?;
    push_decimal(&mut text, bits_of(&cidr))?;
    Ok(Text::from_string(text))
}

// The canonical text of an address.
fn address_string(alloc: Global, address: Address) -> Result<String, NoMemory>
    ensures canonical { IfOk result (λ text. string_bytes text ≡ address_text address) }
    ensures fits { IsAddress address }
{
    match address {
        Address::Four(point) => print_ipv4(alloc, point.number() as u32),
        Address::Six(point) => print_ipv6(alloc, point.number()),
    }
}

// The four parts of an IPv4 address.
fn print_ipv4(alloc: Global, number: u32) -> Result<String, NoMemory>
    ensures { IfOk result (λ text. string_bytes text ≡ ipv4_text number) }
{
    let [first, second, third, fourth] = number.to_be_bytes();
    let mut text = String::new(alloc);
    push_decimal(&mut text, first)?;
    push_dot_and_part(&mut text, second)?;
    push_dot_and_part(&mut text, third)?;
    push_dot_and_part(&mut text, fourth)?;
    Ok(text)
}

// Appends a part behind a dot.
fn push_dot_and_part(text: &mut String, part: u8) -> Result<(), NoMemory>
    ensures { OnOk result (string_bytes text.new ≡ string_bytes text.old ++ codes "." ++ decimal part) }
{
    text.push('.')?;
    push_decimal(text, part)
}

// Appends a number in decimal.
fn push_decimal(text: &mut String, number: u8) -> Result<(), NoMemory>
    ensures { OnOk result (string_bytes text.new ≡ string_bytes text.old ++ decimal number) }
{
    let mut buffer = Buffer::new();
    text.push_str(buffer.format(number))?;
    Ok(())
}

// The groups of an IPv6 address, with the longest run of zero groups as `::` where it has two or more.
#[tactic(auto, unfolding(crate::specs::AddressText::shortened_text))]
fn print_ipv6(alloc: Global, number: u128) -> Result<String, NoMemory>
    ensures { IfOk result (λ text. string_bytes text ≡ ipv6_text number) }
{
    let groups = groups_of(number);
    let (start, count) = longest_zero_run(&groups);
    let mut text = String::new(alloc);
    if count < 2 {
        push_groups(&mut text, &groups)?;
        return Ok(text);
    }
    push_groups(&mut text, &groups[..start])?;
    text.push_str("::")?;
    push_groups(&mut text, &groups[start + count..])?;
    Ok(text)
}

// The eight groups of an IPv6 address, the highest first.
fn groups_of(number: u128) -> [u16; 8]
    ensures { result ≡ groups_of number }
{
    [
        group_at(number, 7),
        group_at(number, 6),
        group_at(number, 5),
        group_at(number, 4),
        group_at(number, 3),
        group_at(number, 2),
        group_at(number, 1),
        group_at(number, 0),
    ]
}

// The group with so many groups below it.
fn group_at(number: u128, below: u32) -> u16
    requires { below < 8 }
    ensures { result ≡ group_at number below }
{
    ((number >> (16 * below)) % 65536) as u16
}

// The place and the length of the longest run of zero groups, the first of those that are as long.
fn longest_zero_run(groups: &[u16]) -> (usize, usize)
    ensures run { result ≡ longest_zero_run groups.now }
    ensures within { result.0 + result.1 ≤ length groups.now }
{
    let mut start = groups.len();
    let mut longest = 0;
    let mut count = 0;
    for place in (0..groups.len()).rev() {
        count = if groups[place] == 0 { count + 1 } else { 0 };
        if count >= longest {
            start = place;
            longest = count;
        }
    }
    (start, longest)
}

// Appends groups, with a colon between each two.
fn push_groups(text: &mut String, groups: &[u16]) -> Result<(), NoMemory>
    ensures { OnOk result (string_bytes text.new ≡ string_bytes text.old ++ groups_text groups.now) }
{
    let Some((first, others)) = groups.split_first() else {
        return Ok(());
    };
    let first = *first;
    write!(text, "{first:x}")?;
    for group in others {
        let group = *group;
        write!(text, ":{group:x}")?;
    }
    Ok(())
}
