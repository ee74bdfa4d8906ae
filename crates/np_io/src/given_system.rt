//! A system of given bytes.
ghost use Rattle.std.specs.Prelude.{◌≡◌};
ghost use Rattle.np_io.specs.Memory.{bytes_of};

use crate::held::{Held, place_of};
use crate::system::System;
use std::io;
use std::io::Read;

/// A system in memory: names with their bytes. A name that it does not hold has none. No call of it fails.
#[derive(Clone, Copy)]
pub struct GivenSystem<'a> {
    /// The names; of two that are equal the first counts.
    pub held: &'a [Held],
}

// The bytes of a name.
fn bytes_of<'a>(held: &'a [Held], name: &str) -> &'a [u8]
    ensures { result.now ≡ bytes_of held.now name.now }
{
    match place_of(held, name) {
        Some(place) => held[place].bytes.items(),
        None => &[],
    }
}

impl<'a> System for GivenSystem<'a> {
    ghost use Rattle.std.specs.Prelude.{Some, None, false};
    ghost use Rattle.np_io.specs.Memory.{bytes_of};

    type Stream = &'a [u8];

    ghost names = { λ s. Some (bytes_of s.held.now) };

    ghost opened = { λ s. None };

    ghost may_fail = { λ s. false };

    ghost left = { λ stream. Some stream.now };

    fn standard_input(&mut self) -> &'a [u8] {
        bytes_of(self.held, "-")
    }

    fn file(&mut self, name: &str) -> io::Result<&'a [u8]> {
        Ok(bytes_of(self.held, name))
    }

    fn read(&self, stream: &mut &'a [u8], into: &mut [u8]) -> io::Result<usize> {
        stream.read(into)
    }
}
