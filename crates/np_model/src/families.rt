//! The families of the addresses of pods.
ghost use Rattle.std.specs.Prelude.{◌≡◌};
ghost use Rattle.std.specs.List.{list_any};
ghost use Rattle.np_model.specs.Families as spec;

use crate::pod::Pod;
use np_addr::{Address, Family, family_of};

static FOUR: [Family; 1] = [Family::Four];

static SIX: [Family; 1] = [Family::Six];

static BOTH: [Family; 2] = [Family::Four, Family::Six];

/// The families of which some pod has an address, IPv4 first, and IPv4 alone where no pod has one.
pub fn families_of(pods: &[Pod]) -> &'static [Family]
    ensures { result.now ≡ spec.families_of pods.now }
{
    let four = has_family(pods, Family::Four);
    let six = has_family(pods, Family::Six);
    match (four, six) {
        (true, true) => &BOTH,
        (false, true) => &SIX,
        _ => &FOUR,
    }
}

// Whether some pod has an address of the family.
fn has_family(pods: &[Pod], family: Family) -> bool
    ensures { result ≡ spec.has_family pods.now family }
{
    pods.iter()
        .any(|pod| is_in_family(pod.addresses.items(), family))
}

// Whether some address is of the family.
fn is_in_family(addresses: &[Address], family: Family) -> bool
    ensures { result ≡ list_any (spec.is_of family) addresses.now }
{
    addresses.iter().any(|address| is_of(family, *address))
}

// Whether an address is of the family.
fn is_of(family: Family, address: Address) -> bool
    ensures { result ≡ spec.is_of family address }
{
    family_of(address) == family
}
