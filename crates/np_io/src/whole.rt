//! Whole inputs and whole bytes, over sources and sinks that work piece by piece.
ghost use Rattle.std.specs.Prelude.{◌≡◌, ◌+◌, ◌<◌, ◌≤◌, ℕ, List, [], ◌∷◌, length, is_some, IfOk, OnOk, OnErr, IsOk, IsErrOf};
ghost use Rattle.std.specs.Io.KnownBytes.{append_known};
ghost use Rattle.np_io.specs.Counts.{Rose, NeverFalls, handed_after};
ghost use Rattle.np_io.specs.Source.{BeganNext, IsTold};
ghost use Rattle.np_io.specs.Taken.{TookFront};

use crate::inputs::{InputFailed, Inputs};
use crate::sink::{Sink, SinkFailed};
use std::alloc::{AllocError, Global};
use std::fmt;

/// Why a whole input was not read.
#[derive(Clone, Copy, Debug, PartialEq, Eq)]
pub enum WholeFault {
    /// A call on the source failed.
    InputFailed,
    /// The input has more bytes than there was room for.
    TooLarge,
    /// The system refused memory.
    NoMemory,
}

impl fmt::Display for WholeFault {
    ghost use Rattle.std.specs.Prelude.{Some};
    ghost use Rattle.np_io.specs.Faults.{whole_fault_text};

    ghost output = { λ fault. Some (whole_fault_text fault) };

    fn fmt<W: fmt::Write>(&self, f: &mut fmt::Formatter<W>) -> fmt::Result {
        match self {
            WholeFault::InputFailed => write!(f, "cannot read"),
            WholeFault::TooLarge => write!(f, "too large"),
            WholeFault::NoMemory => write!(f, "out of memory"),
        }
    }
}

impl std::error::Error for WholeFault {}

impl From<InputFailed> for WholeFault {
    ghost use Rattle.np_io.specs.declared.whole.WholeFault.TheVariants.{InputFailed};

    ghost from_gives = { λ _ e. e ≡ InputFailed };

    fn from(_error: InputFailed) -> WholeFault {
        WholeFault::InputFailed
    }
}

impl From<AllocError> for WholeFault {
    ghost use Rattle.np_io.specs.declared.whole.WholeFault.TheVariants.{NoMemory};

    ghost from_gives = { λ _ e. e ≡ NoMemory };

    fn from(_error: AllocError) -> WholeFault {
        WholeFault::NoMemory
    }
}

// How many bytes a call of `read` may hand out.
const PIECE: usize = 8192;

/// All bytes of an input, of at most `room` bytes: what the source handed out for its name up to the end, which
/// is what the name holds where the source tells it. It begins the name once.
///
/// `InputFailed` comes only where the count of faults of the name rose, and `TooLarge` only where more than `room`
/// bytes were handed out; it comes as soon as that many were, so that they are at most 8,192 more. Where the bytes of
/// the name are told and no call failed, `TooLarge` comes exactly where they are more than `room`. After every answer
/// but `InputFailed` the counts of faults are as before, and after every answer the names hold what they held.
pub fn read_whole<I: Inputs>(
    alloc: Global,
    inputs: &mut I,
    name: &str,
    room: u64,
) -> Result<Vec<u8>, WholeFault>
    ensures whole { IfOk result (λ made. (bytes : List ℕ) →
        IsTold (I.holds inputs.old) (I.left inputs.old) name.now bytes → made.items ≡ bytes) }
    ensures fits { IfOk result (λ made. length made.items ≤ room) }
    ensures handed { IfOk result (λ made.
        I.handed inputs.new ≡ handed_after (I.handed inputs.old) (length made.items)) }
    ensures ok_in_room { OnOk result (I.handed inputs.new ≤ I.handed inputs.old + room) }
    ensures ok_faults { OnOk result (I.faults inputs.new ≡ I.faults inputs.old) }

    ensures failed { IsErrOf result WholeFault.InputFailed →
        Rose (I.faults inputs.old name.now) (I.faults inputs.new name.now) }
    ensures failed_in_room { IsErrOf result WholeFault.InputFailed →
        I.handed inputs.new ≤ I.handed inputs.old + room }

    ensures too_large { IsErrOf result WholeFault.TooLarge →
        Rose (I.handed inputs.old + room) (I.handed inputs.new) }
    ensures too_large_most { IsErrOf result WholeFault.TooLarge →
        I.handed inputs.new ≤ I.handed inputs.old + room + 8192 }
    ensures too_large_told { IsErrOf result WholeFault.TooLarge → (bytes : List ℕ) →
        IsTold (I.holds inputs.old) (I.left inputs.old) name.now bytes → room < length bytes }
    ensures too_large_faults { IsErrOf result WholeFault.TooLarge → I.faults inputs.new ≡ I.faults inputs.old }

    ensures memory_faults { IsErrOf result WholeFault.NoMemory → I.faults inputs.new ≡ I.faults inputs.old }

    ensures began { BeganNext (I.began inputs.old) (I.began inputs.new) (name.now ∷ []) }
    ensures counts { (other : List ℕ) → NeverFalls (I.faults inputs.old other) (I.faults inputs.new other) }
    ensures names { I.holds inputs.new ≡ I.holds inputs.old }
    ensures begun_told { is_some (I.begun inputs.new) ≡ is_some (I.begun inputs.old) }
    ensures left_told { is_some (I.left inputs.new) ≡ is_some (I.left inputs.old) }
{
    let mut piece = [0u8; PIECE];
    let mut bytes = Vec::new(alloc);
    inputs.begin(name)?;
    loop {
        let n = inputs.read(&mut piece)?;
        if n == 0 {
            return Ok(bytes);
        }
        if n as u64 > room - bytes.len() as u64 {
            return Err(WholeFault::TooLarge);
        }
        bytes.extend_from_slice(&piece[..n])?;
    }
}

/// Writes all bytes, in as many calls as the sink takes. `SinkFailed` comes only where the count of faults rose;
/// a front of the bytes was then taken. No bytes are always written.
pub fn write_whole<O: Sink>(out: &mut O, bytes: &[u8]) -> Result<(), SinkFailed>
    ensures written { OnOk result (O.taken out.new ≡ append_known (O.taken out.old) bytes.now) }
    ensures ok_faults { OnOk result (O.faults out.new ≡ O.faults out.old) }
    ensures empty { length bytes.now ≡ 0 → IsOk result }

    ensures front { OnErr result (TookFront (O.taken out.old) (O.taken out.new) bytes.now) }
    ensures failed { OnErr result (Rose (O.faults out.old) (O.faults out.new)) }

    ensures counts { NeverFalls (O.faults out.old) (O.faults out.new) }
    ensures told { is_some (O.taken out.new) ≡ is_some (O.taken out.old) }
{
    let mut at = 0;
    while at < bytes.len() {
        at += out.write(&bytes[at..])?;
    }
    Ok(())
}
