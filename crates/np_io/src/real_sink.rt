//! A sink over a writer of the system.
ghost use Rattle.std.specs.Prelude.{◌≡◌, is_some};
ghost use Rattle.std.specs.Io.KnownBytes.{Keeps};
ghost use Rattle.np_io.specs.Told.{told_since};

use crate::counts::count;
use crate::sink::{Sink, SinkFailed};
use std::io::Write;
use std::snapshot::Snapshot;

/// A sink that hands its bytes to a writer. What it took is what the writer holds: it tells this where the writer told from the first what
/// it holds, and else it tells nothing. It counts its failures; a write that takes nothing of a piece that has bytes is one.
#[derive(Drop)]
pub struct RealSink<W: Write + Drop> {
    writer: W,
    // The writer as it was at first.
    first: Snapshot<W>,
    faults: u64,
    ghost told: { is_some (told_since (W.contents first.value) (W.contents writer)) ≡ is_some (W.contents first.value) },
}

impl<W: Write + Drop> RealSink<W> {
    /// A sink over a writer. No call failed yet.
    pub fn new(writer: W) -> RealSink<W>
        ensures taken { ⟦<RealSink<W> as Sink>⟧.taken result ≡ W.contents writer }
        ensures faults { ⟦<RealSink<W> as Sink>⟧.faults result ≡ 0 }
    {
        let first = Snapshot::of(&writer);
        RealSink {
            writer,
            first,
            faults: 0,
        }
    }

    /// The writer. It holds what the sink tells that it took.
    pub fn into_writer(self) -> W
        ensures { Keeps (⟦<RealSink<W> as Sink>⟧.taken self) (W.contents result) }
    {
        self.writer
    }
}

impl<W: Write + Drop> Sink for RealSink<W> {
    ghost taken = { λ s. told_since (W.contents s.first.value) (W.contents s.writer) };

    ghost faults = { λ s. s.faults };

    fn write(&mut self, piece: &[u8]) -> Result<usize, SinkFailed> {
        if piece.is_empty() {
            return Ok(0);
        }
        match self.writer.write(piece) {
            Ok(n) if n > 0 => Ok(n),
            _ => {
                count(&mut self.faults);
                Err(SinkFailed)
            }
        }
    }
}
