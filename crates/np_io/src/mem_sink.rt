//! A sink in memory, whose failures are chosen beforehand.
ghost use Rattle.std.specs.Prelude.{◌≡◌, ◌+◌, ◌<◌, ◌⊎◌, ◌↔◌, [], ◌∷◌, ◌++◌, length, Some, IsTrue, Contains, OnOk, OnErr, IfOk};
ghost use Rattle.np_io.specs.Counts.{raised};
ghost use Rattle.np_io.specs.Memory.{empty_sink};

use crate::counts::{count, is_due};
use crate::sink::{Sink, SinkFailed};
use np_base::NoMemory;
use std::alloc::Global;
use std::marker::Model;

/// A sink that keeps what it takes, in room that is made beforehand. A call takes at most a greatest piece, and
/// fails where what it would take does not fit, or where its number is one of those that are to fail. Calls are
/// numbered from 1; a write of no bytes never fails and has no number.
#[derive(Debug, Drop)]
pub struct MemSink {
    taken: Vec<u8>,
    room: usize,
    piece: usize,
    failing: Vec<u64>,
    calls: u64,
    faults: u64,
}

impl Model for MemSink {
    ghost use Rattle.std.specs.Prelude.{◌≤◌, vec_len, vec_capacity};
    ghost use Rattle.np_io.specs.Memory.{SinkState};

    ghost Value = { SinkState };

    ghost view = { λ s. record {
      taken = s.taken.items;
      room = s.room;
      piece = s.piece;
      failing = s.failing.items;
      calls = s.calls;
      faults = s.faults;
    } };

    ghost invariant = { λ s. (vec_len s.taken ≤ s.room) × (s.room ≤ vec_capacity s.taken) × (1 ≤ s.piece) };
}

impl MemSink {
    /// A sink with room for `room` bytes, of which a call takes at most `piece`, or 1 where `piece` is 0.
    pub fn new(alloc: Global, room: usize, piece: usize) -> Result<MemSink, NoMemory>
        ensures state { IfOk result (λ made. made ≡ empty_sink room piece) }
        ensures taken { IfOk result (λ made. ⟦<MemSink as Sink>⟧.taken made ≡ Some []) }
        ensures faults { IfOk result (λ made. ⟦<MemSink as Sink>⟧.faults made ≡ 0) }
    {
        Ok(MemSink {
            taken: Vec::with_capacity(alloc, room)?,
            room,
            piece: piece.max(1),
            failing: Vec::new(alloc),
            calls: 0,
            faults: 0,
        })
    }

    /// From now on the call of this number fails, counted from 1. On `NoMemory` the sink is as before.
    pub fn fail_write(&mut self, call: u64) -> Result<(), NoMemory>
        ensures ok { OnOk result (self.new ≡ record self.old { failing = self.old.failing ++ call ∷ [] }) }
        ensures err { OnErr result (self.new ≡ self.old) }
    {
        self.failing.push(call)?;
        Ok(())
    }

    /// The bytes that it took, in order.
    pub fn taken(&self) -> &[u8]
        ensures { ⟦<MemSink as Sink>⟧.taken self.now ≡ Some result.now }
    {
        &self.taken
    }

    // Counts a call that is to take `n` bytes, and answers whether it fails: where its number is one of those that
    // are to, or where the bytes do not fit.
    fn refuses(&mut self, n: usize) -> bool
        ensures answer { IsTrue result ↔ (Contains self.old.failing (raised self.old.calls)
            ⊎ (self.old.room < length self.old.taken + n)) }
        ensures counted { self.new ≡ record self.old { calls = raised self.old.calls } }
    {
        let due = is_due(&self.failing, &mut self.calls);
        due || n > self.room - self.taken.len()
    }
}

impl Sink for MemSink {
    ghost taken = { λ s. Some s.taken };

    ghost faults = { λ s. s.faults };

    fn write(&mut self, piece: &[u8]) -> Result<usize, SinkFailed> {
        if piece.is_empty() {
            return Ok(0);
        }
        let n = piece.len().min(self.piece);
        if self.refuses(n) {
            count(&mut self.faults);
            return Err(SinkFailed);
        }
        self.taken.extend_from_slice(&piece[..n]).unwrap();
        Ok(n)
    }
}
