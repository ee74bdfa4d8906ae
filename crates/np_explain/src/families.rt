//! The families of the packets between two ends.
ghost use Rattle.std.specs.Prelude.{◌≡◌};
ghost use Rattle.np_explain.specs.Sides as spec;

use np_addr::{Family, family_of};
use np_model::Estate;
use np_rules::End;

/// The one family in which packets between two ends are asked about: that of their address, the source's where both ends are
/// addresses, and else that of the list. `None` where the list has both.
pub fn family_asked(estate: &Estate, source: End, destination: End) -> Option<Family>
    ensures { result ≡ spec.family_asked estate.now source destination }
{
    match (source, destination) {
        (End::At(address), _) | (End::Pod(_), End::At(address)) => Some(family_of(address)),
        (End::Pod(_), End::Pod(_)) => match estate.families() {
            [one] => Some(*one),
            _ => None,
        },
    }
}
