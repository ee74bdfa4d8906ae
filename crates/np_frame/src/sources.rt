//! The bytes of all inputs of a job.
ghost use Rattle.std.specs.Prelude.{◌≡◌, ◌≤◌, ◌<◌, ℕ, List, [], ◌∷◌, length, map, is_some, IfOk, IfErr, OnOk, IsErrOf, sum_by};
ghost use Rattle.np_io.specs.Prelude.{BeganNext, IsTold, Rose, handed_after};
ghost use Rattle.np_frame.specs.Sources.{AreTold, NamesInput, NextUnread, ReadOnce, Unread, sourced};

use np_base::{NoMemory, Text};
use np_command::Failure;
use np_io::{Inputs, WholeFault, read_whole};
use std::alloc::{AllocFailed, Global};

/// How many bytes all inputs of a job may have together.
pub const SIZE_LIMIT: u64 = 33_554_432;

/// Why inputs are not read.
#[derive(Drop)]
pub enum SourceFault {
    /// A call for the input of this name failed.
    CannotRead(Text),
    /// They have more than 33,554,432 bytes together.
    TooLarge,
    /// The system refused memory.
    NoMemory,
}

impl<T: Drop> From<AllocFailed<T>> for SourceFault {
    ghost use Rattle.np_frame.specs.declared.sources.SourceFault.TheVariants.{NoMemory};

    ghost from_gives = { λ _ fault. fault ≡ NoMemory };

    fn from(_error: AllocFailed<T>) -> SourceFault {
        SourceFault::NoMemory
    }
}

impl From<SourceFault> for Failure {
    ghost use Rattle.std.specs.Prelude.{◌≡◌};
    ghost use Rattle.np_frame.specs.Failures.{source_failure};

    ghost from_gives = { λ fault failure. failure ≡ source_failure fault };

    fn from(fault: SourceFault) -> Failure {
        match fault {
            SourceFault::CannotRead(name) => Failure::CannotRead(name),
            SourceFault::TooLarge => Failure::TooLarge,
            SourceFault::NoMemory => Failure::NoMemory,
        }
    }
}

/// The bytes of the inputs of these names, in order, of at most 33,554,432 bytes together. Each is begun and read once.
/// `CannotRead` names the first for which a call failed, and no name behind it is begun; `TooLarge` comes only where more
/// bytes were handed out.
pub fn read_all<I: Inputs>(
    alloc: Global,
    inputs: &mut I,
    names: &[Text],
) -> Result<Vec<Vec<u8>>, SourceFault>
    ensures told { IfOk result (λ made. (texts : List (List ℕ)) →
        AreTold (I.holds inputs.old) (I.left inputs.old) names.now texts → map (λ text. text.items) made.items ≡ texts) }
    ensures fits { IfOk result (λ made. sum_by length (map (λ text. text.items) made.items) ≤ SIZE_LIMIT) }
    ensures once { OnOk result (ReadOnce (sourced I.holds I.left I.faults I.handed I.began inputs.old inputs.new) names.now) }
    ensures err { IfErr result (Unread (sourced I.holds I.left I.faults I.handed I.began inputs.old inputs.new) names.now) }
{
    let mut texts = Vec::new(alloc);
    let mut room = SIZE_LIMIT;
    for name in names {
        let text = read_next(alloc, inputs, name, room)?;
        room -= text.len() as u64;
        texts.push(text)?;
    }
    Ok(texts)
}

// The bytes of the input of this name, of at most `room` bytes.
fn read_next<I: Inputs>(
    alloc: Global,
    inputs: &mut I,
    name: &Text,
    room: u64,
) -> Result<Vec<u8>, SourceFault>
    ensures whole { IfOk result (λ made. (bytes : List ℕ) →
        IsTold (I.holds inputs.old) (I.left inputs.old) name.now bytes → made.items ≡ bytes) }
    ensures fits { IfOk result (λ made. length made.items ≤ room) }
    ensures handed { IfOk result (λ made.
        I.handed inputs.new ≡ handed_after (I.handed inputs.old) (length made.items)) }
    ensures ok_faults { OnOk result (I.faults inputs.new ≡ I.faults inputs.old) }
    ensures began { BeganNext (I.began inputs.old) (I.began inputs.new) (name.now ∷ []) }
    ensures names { I.holds inputs.new ≡ I.holds inputs.old }
    ensures left_told { is_some (I.left inputs.new) ≡ is_some (I.left inputs.old) }
    ensures err { IfErr result (NextUnread (sourced I.holds I.left I.faults I.handed I.began inputs.old inputs.new) name.now room) }
{
    match read_whole(alloc, inputs, name.as_str(), room) {
        Ok(text) => Ok(text),
        Err(WholeFault::InputFailed) => Err(cannot_read(name)),
        Err(WholeFault::TooLarge) => Err(SourceFault::TooLarge),
        Err(WholeFault::NoMemory) => Err(SourceFault::NoMemory),
    }
}

// The fault of an input of this name, which takes memory for the name.
fn cannot_read(name: &Text) -> SourceFault
    ensures { NamesInput name.now result }
{
    match name.copy() {
        Ok(name) => SourceFault::CannotRead(name),
        Err(NoMemory) => SourceFault::NoMemory,
    }
}
