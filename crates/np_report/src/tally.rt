//! Counts of rows.
ghost use Rattle.std.specs.Prelude.{◌≡◌, ◌+◌, ◌-◌, ◌<◌, ◌^◌};
ghost use Rattle.np_report.specs.Tallied.{no_rows, row_count, with_row};

use np_table::{RowEnd, RowKey};
use std::marker::Model;

/// How many rows there are of pairs of workloads, of addresses, and of the controller of Ingresses. Counting takes no
/// memory.
#[derive(Drop)]
pub struct Tally {
    pairs: u128,
    addresses: u128,
    controllers: u128,
}

impl Model for Tally {
    ghost use Rattle.np_report.specs.Tallied.{Counts};

    ghost Value = { Counts };

    ghost view = { λ tally. record { pairs = tally.pairs; addresses = tally.addresses; controllers = tally.controllers } };
}

impl Tally {
    /// No rows yet.
    pub fn new() -> Tally
        ensures { result ≡ no_rows }
    {
        Tally {
            pairs: 0,
            addresses: 0,
            controllers: 0,
        }
    }

    /// Counts a row by its key: one that has a range of addresses is of addresses, another that has the controller is of
    /// that, and one of two workloads is of a pair.
    pub fn count(&mut self, key: &RowKey)
        requires { row_count self.old < 2 ^ 128 - 1 }
        ensures { self.new ≡ with_row self.old key.now }
    {
        match (key.source, key.destination) {
            (RowEnd::Span(_), _) | (_, RowEnd::Span(_)) => self.addresses += 1,
            (RowEnd::Controller, _) | (_, RowEnd::Controller) => self.controllers += 1,
            (RowEnd::Work(_), RowEnd::Work(_)) => self.pairs += 1,
        }
    }

    /// How many rows of pairs of workloads were counted.
    pub fn pairs(&self) -> u128
        ensures { result ≡ self.now.pairs }
    {
        self.pairs
    }

    /// How many rows of addresses were counted.
    pub fn addresses(&self) -> u128
        ensures { result ≡ self.now.addresses }
    {
        self.addresses
    }

    /// How many rows of the controller of Ingresses were counted.
    pub fn controllers(&self) -> u128
        ensures { result ≡ self.now.controllers }
    {
        self.controllers
    }
}
