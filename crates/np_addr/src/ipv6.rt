//! The text of IPv6 addresses.
ghost use Rattle.std.specs.Prelude.{◌≡◌, ◌++◌, Some, None, MatchOption, option_map};
ghost use Rattle.np_addr.specs.Prelude.{around_gap, at_most_eight, hex_group, ipv6_of, last_groups, pieces, side_groups};
ghost use Rattle.np_addr.specs.Ipv6Grammar.{groups_between};

use crate::groups::Groups;
use crate::ipv4::read_ipv4;
use crate::numeral::read_numeral;
use crate::pieces::split_first;

// The number of an IPv6 address, from its text.
#[tactic(auto, unfolding(crate::specs::Ipv6Grammar::ipv6_of))]
pub(crate) fn read_ipv6(text: &str) -> Option<u128>
    ensures { result ≡ ipv6_of text.now }
{
    let Some((before, after)) = split_gap(text) else {
        return read_groups(text, true)?.whole();
    };
    let head = read_side(before, false)?;
    let tail = read_side(after, true)?;
    head.filled(tail)
}

// The text before the first `::` and the text after it.
fn split_gap(text: &str) -> Option<(&str, &str)>
    ensures { MatchOption result (around_gap text.now ≡ None)
        (λ sides. around_gap text.now ≡ Some (sides.0.now, sides.1.now)) }
{
    text.split_once("::")
}

// The groups on one side of `::`, where there may be none.
fn read_side(text: &str, dotted: bool) -> Option<Groups>
    ensures { result ≡ at_most_eight (side_groups dotted text.now) }
{
    if text.is_empty() {
        return Some(Groups::new());
    }
    read_groups(text, dotted)
}

// The groups between colons. Where `dotted`, the last two may be written as an IPv4 address.
fn read_groups(text: &str, dotted: bool) -> Option<Groups>
    ensures { result ≡ at_most_eight (groups_between dotted (pieces 58 text.now)) }
{
    let mut groups = Groups::new();
    let mut rest = text;
    while let Some((piece, after)) = split_first(rest, ':') {
        groups = groups.push(read_group(piece)?)?;
        rest = after;
    }
    push_last(groups, rest, dotted)
}

// Adds the last piece: a group, or, where `dotted`, an IPv4 address as two groups.
#[tactic(auto, unfolding(crate::specs::Ipv6Grammar::last_groups))]
fn push_last(groups: Groups, text: &str, dotted: bool) -> Option<Groups>
    ensures { result ≡ at_most_eight (option_map (λ last. groups ++ last) (last_groups dotted text.now)) }
{
    if let Some(group) = read_group(text) {
        return groups.push(group);
    }
    if !dotted {
        return None;
    }
    let number = read_ipv4(text)?;
    groups
        .push((number / 65536) as u16)?
        .push((number % 65536) as u16)
}

// One group.
fn read_group(text: &str) -> Option<u16>
    ensures { result ≡ hex_group text.now }
{
    read_numeral(text, 16, 4)
}
