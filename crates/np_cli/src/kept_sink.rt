//! A sink that keeps what it takes.
ghost use Rattle.std.specs.Prelude.{◌≡◌, [], IfOk, OnOk, Some};

use np_base::{NoMemory, Seq};
use np_io::{Sink, SinkFailed};
use std::alloc::Global;

/// A sink that keeps what it takes. A call of it fails only where memory is short.
#[derive(Drop)]
pub(crate) struct KeptSink {
    bytes: Vec<u8>,
    faults: u64,
}

impl KeptSink {
    /// It took nothing yet.
    pub(crate) fn new(alloc: Global) -> KeptSink
        ensures taken { ⟦<KeptSink as Sink>⟧.taken result ≡ Some [] }
        ensures faults { ⟦<KeptSink as Sink>⟧.faults result ≡ 0 }
    {
        KeptSink {
            bytes: Vec::new(alloc),
            faults: 0,
        }
    }

    /// What it took; `NoMemory` where a call failed.
    pub(crate) fn into_bytes(self) -> Result<Seq<u8>, NoMemory>
        ensures taken { IfOk result (λ bytes. ⟦<KeptSink as Sink>⟧.taken self ≡ Some bytes) }
        ensures unfailed { OnOk result (⟦<KeptSink as Sink>⟧.faults self ≡ 0) }
    {
        let KeptSink { bytes, faults } = self;
        if faults == 0 {
            Ok(Seq::from_vec(bytes))
        } else {
            Err(NoMemory)
        }
    }
}

impl Sink for KeptSink {
    ghost taken = { λ s. Some s.bytes.items };

    ghost faults = { λ s. s.faults };

    fn write(&mut self, piece: &[u8]) -> Result<usize, SinkFailed> {
        if piece.is_empty() {
            return Ok(0);
        }
        match self.bytes.extend_from_slice(piece) {
            Ok(()) => Ok(piece.len()),
            Err(_) => {
                self.faults = self.faults.saturating_add(1);
                Err(SinkFailed)
            }
        }
    }
}
