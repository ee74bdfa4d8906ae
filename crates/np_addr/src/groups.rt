//! The groups of an IPv6 address while they are read.
ghost use Rattle.std.specs.Prelude.{◌≡◌, [], ◌∷◌, ◌++◌, Some};
ghost use Rattle.np_addr.specs.Groups.{at_most_eight};
ghost use Rattle.np_addr.specs.Ipv6Grammar.{number_of_groups, filled_of};

use std::marker::Model;

// At most eight groups of 16 bits, the highest first, kept as one number. Contracts see them as a list.
#[derive(Drop)]
pub(crate) struct Groups {
    count: u8,
    number: u128,
}

impl Model for Groups {
    ghost use Rattle.std.specs.Prelude.{ℕ, ◌*◌, ◌^◌, ◌<◌, ◌≤◌, List};
    ghost use Rattle.np_addr.specs.AddressText.{low_groups};

    ghost Value = { List ℕ };

    ghost view = { λ g. low_groups g.count g.number };

    ghost invariant = { λ g. (g.count ≤ 8) × (g.number < 2 ^ (16 * g.count)) };
}

impl Groups {
    // No groups.
    pub(crate) fn new() -> Groups
        ensures { result ≡ [] }
    {
        Groups {
            count: 0,
            number: 0,
        }
    }

    // One group more, where there is room.
    pub(crate) fn push(self, group: u16) -> Option<Groups>
        ensures { result ≡ at_most_eight (Some (self ++ group ∷ [])) }
    {
        if self.count == 8 {
            return None;
        }
        Some(Groups {
            count: self.count + 1,
            number: self.number * 65536 + u128::from(group),
        })
    }

    // The number of an address of these groups, which are all eight.
    pub(crate) fn whole(self) -> Option<u128>
        ensures { result ≡ number_of_groups self }
    {
        if self.count == 8 {
            Some(self.number)
        } else {
            None
        }
    }

    // The number of an address of these groups, one zero group or more, and the groups of the tail.
    pub(crate) fn filled(self, tail: Groups) -> Option<u128>
        ensures { result ≡ filled_of self tail }
    {
        if self.count + tail.count >= 8 {
            return None;
        }
        // With no groups in front there is nothing to shift, and a shift by all bits is none.
        if self.count == 0 {
            return Some(tail.number);
        }
        Some((self.number << (16 * (8 - self.count))) + tail.number)
    }
}
