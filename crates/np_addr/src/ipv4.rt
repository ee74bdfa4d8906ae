//! The text of IPv4 addresses.
ghost use Rattle.std.specs.Prelude.{◌≡◌};
ghost use Rattle.np_addr.specs.Prelude.{ipv4_of, octet_of, octets_of};

use crate::numeral::read_numeral;
use crate::pieces::split_first;

// The number of an IPv4 address, from its text.
#[tactic(auto, unfolding(crate::specs::Ipv4Grammar::ipv4_of))]
pub(crate) fn read_ipv4(text: &str) -> Option<u32>
    ensures { result ≡ ipv4_of text.now }
{
    let (first, rest) = split_first(text, '.')?;
    let (second, rest) = split_first(rest, '.')?;
    let (third, fourth) = split_first(rest, '.')?;
    read_parts(first, second, third, fourth)
}

// The number of the four parts, the first the highest.
#[tactic(auto, unfolding(crate::specs::Ipv4Grammar::octets_of))]
fn read_parts(first: &str, second: &str, third: &str, fourth: &str) -> Option<u32>
    ensures { result ≡ octets_of first.now second.now third.now fourth.now }
{
    Some(u32::from_be_bytes([
        read_part(first)?,
        read_part(second)?,
        read_part(third)?,
        read_part(fourth)?,
    ]))
}

// One part.
fn read_part(text: &str) -> Option<u8>
    ensures { result ≡ octet_of text.now }
{
    u8::try_from(read_numeral(text, 10, 3)?).ok()
}
