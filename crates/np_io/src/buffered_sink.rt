//! Bytes that are gathered before a sink takes them.
ghost use Rattle.std.specs.Prelude.{◌≡◌, ◌+◌, ◌≤◌, [], ◌++◌, length, IfOk, OnOk, OnErr, IsOk};
ghost use Rattle.std.specs.Io.KnownBytes.{append_known};
ghost use Rattle.np_io.specs.Counts.{Rose, NeverFalls};
ghost use Rattle.np_io.specs.Taken.{TookAllBut, TookFront};

use crate::sink::{Sink, SinkFailed};
use crate::whole::write_whole;
use np_base::NoMemory;
use std::alloc::Global;
use std::marker::Model;

/// Bytes on their way to a sink, held so that many short texts become few calls of it. Contracts see of them the
/// list of the bytes that are held. All bytes of one report go to the same sink: what it took and what is held are
/// together what was put.
///
/// What is held when the value is dropped is lost, so a report ends with `finish`.
#[derive(Debug, Drop)]
pub struct BufferedSink {
    bytes: Vec<u8>,
}

impl Model for BufferedSink {
    ghost use Rattle.std.specs.Prelude.{ℕ, List, ◌≤◌, vec_len, vec_capacity};
    ghost use Rattle.np_io.specs.declared.buffered_sink.TheConstants.BufferedSink.{ROOM};

    ghost Value = { List ℕ };

    ghost view = { λ s. s.bytes.items };

    ghost invariant = { λ s. (vec_len s.bytes ≤ ROOM) × (ROOM ≤ vec_capacity s.bytes) };
}

impl BufferedSink {
    /// How many bytes may be held: 64 KiB.
    pub const ROOM: usize = 65536;

    /// Holds nothing yet. The room for all that may be held is made here, so that no later call takes memory.
    pub fn new(alloc: Global) -> Result<BufferedSink, NoMemory>
        ensures { IfOk result (λ made. made ≡ []) }
    {
        Ok(BufferedSink {
            bytes: Vec::with_capacity(alloc, Self::ROOM)?,
        })
    }

    /// Puts these bytes behind those that are held. Where they do not fit there, the sink takes what is held, and
    /// then the bytes are held alone, or the last `ROOM` of them, once the sink took those before.
    ///
    /// So the sink never has all that was put before `finish`, unless nothing was.
    ///
    /// `SinkFailed` comes only where the sink's count of faults rose. It then took a front of what was held and of
    /// these bytes, and the rest is lost: nothing is held.
    pub fn put<O: Sink>(&mut self, out: &mut O, bytes: &[u8]) -> Result<(), SinkFailed>
        ensures put { OnOk result
            (TookAllBut (O.taken out.old) (O.taken out.new) (self.old ++ bytes.now) self.new) }
        ensures ok_faults { OnOk result (O.faults out.new ≡ O.faults out.old) }
        ensures room { length self.new ≤ BufferedSink.ROOM }

        // While the bytes fit, no call of the sink is made.
        ensures fits { length self.old + length bytes.now ≤ BufferedSink.ROOM → IsOk result }
        ensures gathered { length self.old + length bytes.now ≤ BufferedSink.ROOM → self.new ≡ self.old ++ bytes.now }
        ensures uncalled { length self.old + length bytes.now ≤ BufferedSink.ROOM → out.new ≡ out.old }

        ensures front { OnErr result (TookFront (O.taken out.old) (O.taken out.new) (self.old ++ bytes.now)) }
        ensures failed { OnErr result (Rose (O.faults out.old) (O.faults out.new)) }
        ensures lost { OnErr result (self.new ≡ []) }

        ensures counts { NeverFalls (O.faults out.old) (O.faults out.new) }
    {
        if bytes.len() <= Self::ROOM - self.bytes.len() {
            self.bytes.extend_from_slice(bytes).unwrap();
            return Ok(());
        }
        self.hand_on(out)?;
        let (first, last) = bytes.split_at(bytes.len().saturating_sub(Self::ROOM));
        write_whole(out, first)?;
        self.bytes.extend_from_slice(last).unwrap();
        Ok(())
    }

    /// Hands on what is held. `SinkFailed` comes only where the sink's count of faults rose; it then took a front
    /// of what was held. Where nothing is held, the sink is not called.
    pub fn finish<O: Sink>(self, out: &mut O) -> Result<(), SinkFailed>
        ensures finished { OnOk result (O.taken out.new ≡ append_known (O.taken out.old) self) }
        ensures ok_faults { OnOk result (O.faults out.new ≡ O.faults out.old) }
        ensures empty { self ≡ [] → IsOk result }

        ensures front { OnErr result (TookFront (O.taken out.old) (O.taken out.new) self) }
        ensures failed { OnErr result (Rose (O.faults out.old) (O.faults out.new)) }

        ensures counts { NeverFalls (O.faults out.old) (O.faults out.new) }
    {
        write_whole(out, &self.bytes)
    }

    // Hands on what is held, and holds nothing from then on, whatever the answer.
    fn hand_on<O: Sink>(&mut self, out: &mut O) -> Result<(), SinkFailed>
        ensures taken { OnOk result (O.taken out.new ≡ append_known (O.taken out.old) self.old) }
        ensures ok_faults { OnOk result (O.faults out.new ≡ O.faults out.old) }
        ensures empty { self.new ≡ [] }

        ensures front { OnErr result (TookFront (O.taken out.old) (O.taken out.new) self.old) }
        ensures failed { OnErr result (Rose (O.faults out.old) (O.faults out.new)) }

        ensures counts { NeverFalls (O.faults out.old) (O.faults out.new) }
    {
        let handed = write_whole(out, &self.bytes);
        self.bytes.clear();
        handed
    }
}
