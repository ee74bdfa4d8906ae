//! A source over the system.
ghost use Rattle.std.specs.Prelude.{◌≡◌, ◌<◌, ℕ, List, [], is_some, true};
ghost use Rattle.std.specs.Option.{option_map};
ghost use Rattle.np_io.specs.Told.{held, left_begun};

use crate::counts::count;
use crate::inputs::{InputFailed, Inputs};
use crate::system::System;

/// A source over a system, whose name `-` is standard input; any other name is that of a file. A file is read from its front; where `-` is
/// begun again, the real system goes on where it stopped. The source tells what names hold, and what is left, where the system tells what
/// names hold; it tells which names were begun where the system tells which it opened, and never which one is. It counts the failures of
/// the system, and that number is its count for every name.
pub struct RealInputs<S: System + Drop> {
    system: S,
    begun: Option<S::Stream>,
    faults: u64,
    handed: u64,
    // What is left is told at all times or never.
    ghost told: { is_some (left_begun (S.names system) S.left begun) ≡ is_some (S.names system) },
    // Only a call of the system fails.
    pub ghost failed: { 0 < faults → S.may_fail system ≡ true },
}

// Written out, so that letting one go is one call.
impl<S: System + Drop> Drop for RealInputs<S> {
    fn drop(self) {
        let RealInputs {
            system: _system,
            begun: _begun,
            faults: _faults,
            handed: _handed,
        } = self;
    }
}

impl<S: System + Drop> RealInputs<S> {
    /// A source over this system. No name is begun, and no call failed yet.
    pub fn new(system: S) -> RealInputs<S>
        ensures holds { ⟦<RealInputs<S> as Inputs>⟧.holds result ≡ held (S.names system) }
        ensures left { ⟦<RealInputs<S> as Inputs>⟧.left result ≡ option_map (λ names. []) (S.names system) }
        ensures began { ⟦<RealInputs<S> as Inputs>⟧.began result ≡ S.opened system }
        ensures faults { (name : List ℕ) → ⟦<RealInputs<S> as Inputs>⟧.faults result name ≡ 0 }
        ensures handed { ⟦<RealInputs<S> as Inputs>⟧.handed result ≡ 0 }
    {
        RealInputs {
            system,
            begun: None,
            faults: 0,
            handed: 0,
        }
    }
}

impl<S: System + Drop> Inputs for RealInputs<S> {
    ghost use Rattle.std.specs.Prelude.{None};
    ghost use Rattle.np_io.specs.Told.{held, left_begun, none_told, untold};

    ghost holds = { λ s. held (S.names s.system) };

    ghost begun = { λ s. untold };

    ghost began = { λ s. S.opened s.system };

    ghost left = { λ s. left_begun (S.names s.system) S.left s.begun };

    ghost faults = { λ s name. s.faults };

    ghost handed = { λ s. s.handed };

    ghost none_left = { λ s none. none_told _ none };

    fn begin(&mut self, name: &str) -> Result<(), InputFailed> {
        self.begun = None;
        if name == "-" {
            self.begun = Some(self.system.standard_input());
            return Ok(());
        }
        let Ok(file) = self.system.file(name) else {
            count(&mut self.faults);
            return Err(InputFailed);
        };
        self.begun = Some(file);
        Ok(())
    }

    fn read(&mut self, into: &mut [u8]) -> Result<usize, InputFailed> {
        let handed = self.handed;
        let Some(begun) = &mut self.begun else {
            return Ok(0);
        };
        if into.is_empty() {
            return Ok(0);
        }
        match self.system.read(begun, into) {
            Ok(n) => {
                self.handed = handed.saturating_add(n as u64);
                Ok(n)
            }
            Err(_) => {
                count(&mut self.faults);
                Err(InputFailed)
            }
        }
    }
}
