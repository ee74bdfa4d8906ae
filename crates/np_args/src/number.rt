//! The numbers that words write.
ghost use Rattle.std.specs.Prelude.{◌≡◌, ◌≤◌, IfSome};
ghost use Rattle.np_args.specs.Prelude.{number_to};

use np_base::{Point, PortNum};

/// The port that the word writes: a number from 1 to 65535 in decimal, without a sign or a leading zero. `None` for any
/// other word.
pub(crate) fn read_port(word: &str) -> Option<PortNum>
    ensures { result ≡ number_to 65535 word.now }
{
    let number = read_number(word, 65535)?;
    PortNum::at(u128::from(number))
}

/// The number that the word writes: one from 1 to `most` in decimal, without a sign or a leading zero. `None` for any
/// other word.
pub(crate) fn read_number(word: &str, most: u32) -> Option<u32>
    ensures value { result ≡ number_to most word.now }
    ensures within { IfSome result (λ number. (1 ≤ number) × (number ≤ most)) }
{
    // `parse` takes a plus and zeros in front.
    if word.starts_with('+') || word.starts_with('0') {
        return None;
    }
    let number = word.parse::<u32>().ok()?;
    (1 <= number && number <= most).then_some(number)
}
