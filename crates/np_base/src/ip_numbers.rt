//! The numbers of IPv4 and IPv6 addresses.

use crate::point::Point;
use std::marker::Model;

/// An IPv4 address as its number, from 0 to 2^32 - 1. Contracts see it as that number.
#[derive(Clone, Copy, Debug, PartialEq, Eq, PartialOrd, Ord)]
pub struct V4 {
    number: u32,
}

impl Model for V4 {
    ghost use Rattle.std.specs.Prelude.{ℕ, ◌<◌, ◌^◌};

    ghost Value = { ℕ };

    ghost view = { λ a. a.number };

    ghost invariant = { λ a. a.number < 2 ^ 32 };

    ghost inverse = { λ n. record { number = n } };
}

/// An IPv6 address as its number, from 0 to 2^128 - 1. Contracts see it as that number.
#[derive(Clone, Copy, Debug, PartialEq, Eq, PartialOrd, Ord)]
pub struct V6 {
    number: u128,
}

impl Model for V6 {
    ghost use Rattle.std.specs.Prelude.{ℕ, ◌<◌, ◌^◌};

    ghost Value = { ℕ };

    ghost view = { λ a. a.number };

    ghost invariant = { λ a. a.number < 2 ^ 128 };

    ghost inverse = { λ n. record { number = n } };
}

impl Point for V4 {
    ghost use Rattle.std.specs.Prelude.{◌-◌, ◌^◌};
    ghost use Rattle.std.proofs.Common.{refl, lit≤, lit<};

    const LOW: u128 = 0;

    const HIGH: u128 = u32::MAX as u128;

    ghost LOW = { 0 };

    ghost HIGH = { 2 ^ 32 - 1 };

    ghost number_of = { λ a. a };

    ghost point_of = { λ n. n };

    ghost ordered = { lit≤ tt };

    ghost bounded = { lit< tt };

    ghost number_of_point = { λ n low high. refl };

    ghost point_of_number = { λ a low high. refl };

    fn number(self) -> u128 {
        self.number as u128
    }

    fn at(n: u128) -> Option<V4> {
        if n <= V4::HIGH {
            Some(V4 { number: n as u32 })
        } else {
            None
        }
    }
}

impl Point for V6 {
    ghost use Rattle.std.specs.Prelude.{◌-◌, ◌^◌};
    ghost use Rattle.std.proofs.Common.{refl, lit≤, lit<};

    const LOW: u128 = 0;

    const HIGH: u128 = u128::MAX;

    ghost LOW = { 0 };

    ghost HIGH = { 2 ^ 128 - 1 };

    ghost number_of = { λ a. a };

    ghost point_of = { λ n. n };

    ghost ordered = { lit≤ tt };

    ghost bounded = { lit< tt };

    ghost number_of_point = { λ n low high. refl };

    ghost point_of_number = { λ a low high. refl };

    fn number(self) -> u128 {
        self.number
    }

    fn at(n: u128) -> Option<V6> {
        Some(V6 { number: n })
    }
}
