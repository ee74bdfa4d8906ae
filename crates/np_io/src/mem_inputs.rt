//! A source in memory, whose failures are chosen beforehand.
ghost use Rattle.std.specs.Prelude.{◌≡◌, ◌≢◌, ℕ, ◌∷◌, ◌++◌, List, [], min, ◌+◌, ◌^◌, ◌<◌, Some, None, length, take, drop, IfSome, OnOk, OnErr};
ghost use Rattle.np_io.specs.Memory.{empty_source, place_of, bytes_at, IsBegunAt};
ghost use Rattle.np_io.specs.Source.{BeganNext};

use crate::counts::{count, is_due};
use crate::held::{Held, place_of};
use crate::inputs::{InputFailed, Inputs};
use np_base::{NoMemory, Seq, Text};
use std::alloc::Global;
use std::marker::Model;

// The place of the begun name among those that are held, and how many of its bytes were handed out.
#[derive(Clone, Copy, Debug)]
struct Begun {
    place: usize,
    at: usize,
}

/// A source that holds its names with their bytes. A read hands out at most a greatest piece. A `begin` of a name
/// that it does not hold fails, and so do the calls of `begin` and of `read` whose numbers are chosen. Both are
/// numbered from 1, each by itself; a read while no name is begun and a read into an empty buffer never fail and
/// have no number. Each name that it holds has a count of faults of its own, and all other names share one. It
/// tells that a name which it does not hold holds no bytes. It tells which names were begun, until the memory to note one
/// of them is refused.
#[derive(Debug, Drop)]
pub struct MemInputs {
    held: Vec<Held>,
    faults: Vec<u64>,
    other_faults: u64,
    piece: usize,
    failing_begins: Vec<u64>,
    failing_reads: Vec<u64>,
    begins: u64,
    reads: u64,
    began: Option<Seq<Text>>,
    begun: Option<Begun>,
    handed: u64,
}

impl Model for MemInputs {
    ghost use Rattle.np_io.specs.Memory.{SourceState, IsSound};

    ghost Value = { SourceState };

    ghost view = { λ s. record {
      held = s.held.items;
      faults = s.faults.items;
      other_faults = s.other_faults;
      piece = s.piece;
      failing_begins = s.failing_begins.items;
      failing_reads = s.failing_reads.items;
      begins = s.begins;
      reads = s.reads;
      began = s.began;
      begun = s.begun;
      handed = s.handed;
    } };

    ghost invariant = { λ s. IsSound s.held.items s.faults.items s.piece s.begun };
}

impl MemInputs {
    /// A source that holds no name. A read hands out at most `piece` bytes, or 1 where `piece` is 0.
    pub fn new(alloc: Global, piece: usize) -> MemInputs
        ensures state { result ≡ empty_source piece }
        ensures holds { (name : List ℕ) → ⟦<MemInputs as Inputs>⟧.holds result name ≡ Some [] }
        ensures begun { ⟦<MemInputs as Inputs>⟧.begun result ≡ Some None }
        ensures began { ⟦<MemInputs as Inputs>⟧.began result ≡ Some [] }
        ensures left { ⟦<MemInputs as Inputs>⟧.left result ≡ Some [] }
        ensures faults { (name : List ℕ) → ⟦<MemInputs as Inputs>⟧.faults result name ≡ 0 }
        ensures handed { ⟦<MemInputs as Inputs>⟧.handed result ≡ 0 }
    {
        MemInputs {
            held: Vec::new(alloc),
            faults: Vec::new(alloc),
            other_faults: 0,
            piece: piece.max(1),
            failing_begins: Vec::new(alloc),
            failing_reads: Vec::new(alloc),
            begins: 0,
            reads: 0,
            began: Some(Seq::new(alloc)),
            begun: None,
            handed: 0,
        }
    }

    /// From now on it holds these bytes under the name, in place of those that it held under it before. No name is
    /// then begun. No count of faults changes: that of a new name starts where the shared one stands. On
    /// `NoMemory` the source is as before.
    pub fn add(&mut self, name: &str, bytes: &[u8]) -> Result<(), NoMemory>
        ensures held { OnOk result (⟦<MemInputs as Inputs>⟧.holds self.new name.now ≡ Some bytes.now) }
        ensures others { OnOk result ((other : List ℕ) → other ≢ name.now →
            ⟦<MemInputs as Inputs>⟧.holds self.new other ≡ ⟦<MemInputs as Inputs>⟧.holds self.old other) }
        ensures faults { OnOk result ((other : List ℕ) →
            ⟦<MemInputs as Inputs>⟧.faults self.new other ≡ ⟦<MemInputs as Inputs>⟧.faults self.old other) }

        // All else is as before, but that no name is begun.
        ensures rest { OnOk result
            (self.new ≡ record self.old { held = self.new.held; faults = self.new.faults; begun = None }) }
        ensures err { OnErr result (self.new ≡ self.old) }
    {
        let copied = Vec::from_slice(*self.held.allocator(), bytes)?;
        if let Some(place) = place_of(&self.held, name) {
            self.held[place].bytes = Seq::from_vec(copied);
            self.begun = None;
            return Ok(());
        }
        let name = Text::of(*self.held.allocator(), name)?;
        let bytes = Seq::from_vec(copied);
        self.faults.reserve(1)?;
        self.held.push(Held { name, bytes })?;
        self.faults.push(self.other_faults).unwrap();
        self.begun = None;
        Ok(())
    }

    /// From now on the call of `begin` of this number fails, counted from 1. On `NoMemory` the source is as before.
    pub fn fail_begin(&mut self, call: u64) -> Result<(), NoMemory>
        ensures ok { OnOk result (self.new ≡ record self.old { failing_begins = self.old.failing_begins ++ call ∷ [] }) }
        ensures err { OnErr result (self.new ≡ self.old) }
    {
        self.failing_begins.push(call)?;
        Ok(())
    }

    /// From now on the call of `read` of this number fails, counted from 1. On `NoMemory` the source is as before.
    pub fn fail_read(&mut self, call: u64) -> Result<(), NoMemory>
        ensures ok { OnOk result (self.new ≡ record self.old { failing_reads = self.old.failing_reads ++ call ∷ [] }) }
        ensures err { OnErr result (self.new ≡ self.old) }
    {
        self.failing_reads.push(call)?;
        Ok(())
    }
}

// Notes that a name was begun. Where the memory for that is refused, it is untold from then on which names were.
fn note_begun(began: &mut Option<Seq<Text>>, name: &str)
    ensures { BeganNext began.old began.new (name.now ∷ []) }
{
    if let Some(names) = began {
        if push_name(names, name).is_err() {
            *began = None;
        }
    }
}

// Puts a name last.
fn push_name(names: &mut Seq<Text>, name: &str) -> Result<(), NoMemory>
    ensures { OnOk result (names.new ≡ names.old ++ name.now ∷ []) }
{
    let name = Text::of(names.allocator(), name)?;
    names.push(name)
}

// The bytes that are left of the begun name.
fn left_of(held: &[Held], begun: Begun) -> &[u8]
    requires { IsBegunAt held.now begun.place begun.at }
    ensures bytes { result.now ≡ drop begun.at (bytes_at held.now begun.place) }
    ensures bound { begun.at + length result.now < 2 ^ 64 }
{
    &held[begun.place].bytes.items()[begun.at..]
}

// Copies the first bytes that are left into the buffer, at most `most`, and answers how many.
fn hand_out(rest: &[u8], into: &mut [u8], most: usize) -> usize
    ensures count { result ≡ min (min (length rest.now) (length into.old)) most }
    ensures bytes { take result into.new ≡ take result rest.now }
{
    let n = rest.len().min(into.len()).min(most);
    into[..n].copy_from_slice(&rest[..n]);
    n
}

impl Inputs for MemInputs {
    ghost use Rattle.std.specs.Prelude.{Some};
    ghost use Rattle.np_io.specs.Memory.{bytes_of, faults_of, begun_name, bytes_left, none_left};

    ghost holds = { λ s name. Some (bytes_of s.held name) };

    ghost begun = { λ s. Some (begun_name s) };

    ghost began = { λ s. s.began };

    ghost left = { λ s. Some (bytes_left s) };

    ghost faults = { faults_of };

    ghost handed = { λ s. s.handed };

    ghost none_left = { none_left };

    fn begin(&mut self, name: &str) -> Result<(), InputFailed> {
        let fails = is_due(&self.failing_begins, &mut self.begins);
        note_begun(&mut self.began, name);
        self.begun = None;
        match place_of(&self.held, name) {
            Some(place) if !fails => {
                self.begun = Some(Begun { place, at: 0 });
                Ok(())
            }
            Some(place) => {
                count(&mut self.faults[place]);
                Err(InputFailed)
            }
            None => {
                count(&mut self.other_faults);
                Err(InputFailed)
            }
        }
    }

    fn read(&mut self, into: &mut [u8]) -> Result<usize, InputFailed> {
        let handed = self.handed;
        let Some(begun) = self.begun else {
            return Ok(0);
        };
        if into.is_empty() {
            return Ok(0);
        }
        if is_due(&self.failing_reads, &mut self.reads) {
            count(&mut self.faults[begun.place]);
            return Err(InputFailed);
        }
        let n = hand_out(left_of(&self.held, begun), into, self.piece);
        self.begun = Some(Begun {
            place: begun.place,
            at: begun.at + n,
        });
        self.handed = handed.saturating_add(n as u64);
        Ok(n)
    }
}
