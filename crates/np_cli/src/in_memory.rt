//! The top call on files in memory.
ghost use Rattle.std.specs.Prelude.{◌≡◌, ◌<◌, IfOk};
ghost use Rattle.np_args.specs.Prelude.{asked_by};
ghost use Rattle.np_cli.specs.InMemory.{SaysOfTexts, answer_to, texts_held};

use crate::kept_sink::KeptSink;
use crate::run::np_main;
use np_base::{NoMemory, Seq, Steps};
use np_command::Status;
use np_io::{GivenSystem, Held, RealInputs};
use std::alloc::Global;
use std::marker::Brand;
use std::sync::ledger::{Blank, Ledger};

/// What the program answers.
#[derive(Drop)]
pub struct Answered {
    /// What it writes to standard output: the report.
    pub report: Seq<u8>,
    /// What it writes to standard error.
    pub said: Seq<u8>,
    /// The status that it ends with.
    pub status: Status,
}

/// What the program answers to the words behind its name, on files in memory: a name has the bytes that it has in `files`, where it
/// stands there first, and none where it stands nowhere. The name `-` is that of standard input.
///
/// Nothing is supposed of any of them. `NoMemory` is the one answer that may come in place of any other.
pub fn answer(alloc: Global, words: &[String], files: &[Held]) -> Result<Answered, NoMemory>
    // What it says, in the words of the model.
    ensures says { IfOk result (SaysOfTexts (asked_by words.now) (texts_held files.now (asked_by words.now))) }

    // Which bytes these are, and which status.
    ensures bytes { IfOk result (λ answered. answered ≡ answer_to (asked_by words.now) (texts_held files.now (asked_by words.now))) }
{
    answer_counted::<Brand>(alloc, words, files, Blank::new(1))
}

// The rules are counted on the ledger of this blank, and the count is let go.
fn answer_counted<L: Ledger>(
    alloc: Global,
    words: &[String],
    files: &[Held],
    blank: Blank,
) -> Result<Answered, NoMemory>
    requires name { blank.name ≡ L.name }
    requires parts { blank.parts ≡ L.parts }
    requires some { 0 < blank.parts }
    ensures says { IfOk result (SaysOfTexts (asked_by words.now) (texts_held files.now (asked_by words.now))) }
    ensures bytes { IfOk result (λ answered. answered ≡ answer_to (asked_by words.now) (texts_held files.now (asked_by words.now))) }
{
    let mut inputs = RealInputs::new(GivenSystem { held: files });
    let mut report = KeptSink::new(alloc);
    let mut said = KeptSink::new(alloc);
    let mut steps: Steps<L> = Steps::new(blank);
    let status = np_main(
        alloc,
        words,
        &mut inputs,
        &mut report,
        &mut said,
        &mut steps,
    );
    if status == Status::NoMemory {
        return Err(NoMemory);
    }
    let report = report.into_bytes()?;
    let said = said.into_bytes()?;
    Ok(Answered {
        report,
        said,
        status,
    })
}
