//! Numbers in a text.
ghost use Rattle.std.specs.Prelude.{◌≡◌, ◌≤◌, ◌^◌};
ghost use Rattle.np_addr.specs.Prelude.{numeral_of};

// One to `most` digits of the radix, without a sign, as their number.
pub(crate) fn read_numeral(text: &str, radix: u32, most: usize) -> Option<u16>
    requires low { 2 ≤ radix }
    requires high { radix ≤ 36 }
    requires fits { radix ^ most ≤ 2 ^ 16 }
    ensures { result ≡ numeral_of radix most text.now }
{
    // `from_str_radix` takes a plus in front.
    if text.len() > most || text.starts_with('+') {
        return None;
    }
    u16::from_str_radix(text, radix).ok()
}
