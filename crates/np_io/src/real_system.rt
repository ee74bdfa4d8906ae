//! The system that runs the program.
use crate::system::System;
use std::fs::File;
use std::io;
use std::io::Read;
use std::rt::Files;

/// What was opened of a runtime.
#[derive(Drop)]
pub enum Opened<R: Input + Files> {
    /// Standard input.
    Standard(R::Reader),
    /// A file.
    File(R::File),
}

/// The system that a runtime stands for.
#[derive(Drop)]
pub struct RealSystem<R>(pub R);

// The kit does not say what a runtime opens, what is in it, or when a call fails. Where a reader tells what is left of it, `read` is proved
// to hand out just that.
impl<R: Input + Files> System for RealSystem<R> {
    ghost use Rattle.std.specs.Prelude.{None, true};
    ghost use Rattle.np_io.specs.declared.real_system.Opened.TheVariants.{Standard, File};

    type Stream = Opened<R>;

    ghost names = { λ s. None };

    ghost opened = { λ s. None };

    ghost may_fail = { λ s. true };

    ghost left = { elim [ Standard reader ↦ R.Reader.remaining reader | File file ↦ R.File.remaining file ] };

    fn standard_input(&mut self) -> Opened<R> {
        Opened::Standard(self.0.reader())
    }

    fn file(&mut self, name: &str) -> io::Result<Opened<R>> {
        Ok(Opened::File(File::open(&self.0, name)?))
    }

    fn read(&self, stream: &mut Opened<R>, into: &mut [u8]) -> io::Result<usize> {
        match stream {
            Opened::Standard(reader) => reader.read(into),
            Opened::File(file) => file.read(into),
        }
    }
}
