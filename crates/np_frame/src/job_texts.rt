//! What a job reads, and which of its bytes hold the objects.
ghost use Rattle.std.specs.Prelude.{◌≡◌, ◌++◌, IfOk, OnOk, map};
ghost use Rattle.np_command.specs.Prelude.{Gives};
ghost use Rattle.np_frame.specs.Words as spec;
ghost use Rattle.np_args.specs.Prelude.{IsWell};

use crate::folded::read_folded;
use np_args::Job;
use np_base::{NoMemory, Seq, Text};
use np_command::Failure;
use np_fold::Folded;
use np_sample::sample;
use std::alloc::Global;

/// The names that a job reads, in order: its files, and before them the statement file of `check`. `sample` reads none.
pub fn names_of(alloc: Global, job: &Job) -> Result<Seq<Text>, NoMemory>
    ensures { IfOk result (λ names. names ≡ spec.input_names job.now) }
{
    let mut names = Seq::new(alloc);
    match job {
        Job::List { files, .. }
        | Job::Explain { files, .. }
        | Job::Exposure { files, .. }
        | Job::Evaluate { files, .. }
        | Job::Unused { files }
        | Job::Flatten { files } => add_copies(&mut names, files.items())?,
        Job::Check { statement, files } => {
            names.push(statement.copy()?)?;
            add_copies(&mut names, files.items())?;
        }
        Job::Sample { .. } => {}
    }
    Ok(names)
}

// Adds copies of some names.
fn add_copies(names: &mut Seq<Text>, more: &[Text]) -> Result<(), NoMemory>
    ensures { OnOk result (names.new ≡ names.old ++ more.now) }
{
    for name in more {
        names.push(name.copy()?)?;
    }
    Ok(())
}

/// What the bytes of a job say, or their first fault. They are those of its files, in order; of `check` the first ones are
/// those of its statement file, which hold no objects, and `sample` makes its own.
pub fn read_objects(alloc: Global, job: &Job, texts: &[Vec<u8>]) -> Result<Folded, Failure>
    requires { IsWell job.now }
    ensures { Gives result (spec.objects_of job.now (map (λ text. text.items) texts.now)) }
{
    match job {
        Job::Check { .. } => match texts.split_first() {
            Some((_, objects)) => read_folded(alloc, objects),
            None => read_folded(alloc, texts),
        },
        Job::Sample { n } => {
            let text = sample(alloc, *n)?;
            read_folded(alloc, &[text])
        }
        _ => read_folded(alloc, texts),
    }
}
