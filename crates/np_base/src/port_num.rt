//! Port numbers.
ghost use Rattle.std.specs.Prelude.{◌≡◌, ◌≤◌, ◌<◌};

use crate::point::Point;
use std::marker::Model;

/// A port, from 1 to 65535. Contracts see it as its number.
#[derive(Clone, Copy, Debug, PartialEq, Eq, PartialOrd, Ord)]
pub struct PortNum {
    number: u16,
}

impl Model for PortNum {
    ghost use Rattle.std.specs.Prelude.{ℕ, ◌≤◌};

    ghost Value = { ℕ };

    ghost view = { λ p. p.number };

    ghost invariant = { λ p. (1 ≤ p.number) × (p.number ≤ 65535) };

    ghost inverse = { λ n. record { number = n } };
}

impl PortNum {
    /// The port of a number from 1 to 65535.
    pub fn new(number: u16) -> PortNum
        requires { 1 ≤ number }
        ensures { result ≡ number }
    {
        PortNum { number }
    }

    /// Its number.
    pub fn get(self) -> u16
        ensures value { result ≡ self }
        ensures low { 1 ≤ self }
        ensures high { self ≤ 65535 }
    {
        self.number
    }
}

impl Point for PortNum {
    ghost use Rattle.std.proofs.Common.{refl, lit≤, lit<};

    const LOW: u128 = 1;

    const HIGH: u128 = 65535;

    ghost LOW = { 1 };

    ghost HIGH = { 65535 };

    ghost number_of = { λ p. p };

    ghost point_of = { λ n. n };

    ghost ordered = { lit≤ tt };

    ghost bounded = { lit< tt };

    ghost number_of_point = { λ n low high. refl };

    ghost point_of_number = { λ p low high. refl };

    fn number(self) -> u128 {
        self.number as u128
    }

    fn at(n: u128) -> Option<PortNum> {
        if 1 <= n && n <= 65535 {
            Some(PortNum { number: n as u16 })
        } else {
            None
        }
    }
}
