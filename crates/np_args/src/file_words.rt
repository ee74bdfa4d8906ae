//! The command lines of `unused` and of `flatten`, which take files alone.
ghost use Rattle.std.specs.Prelude.{◌≡◌, IfOk, codes, refl};
ghost use Rattle.clap.proofs.OnLiterals.{clap_on_literals};
ghost use Rattle.clap.specs.Simple.{app_of};
ghost use Rattle.np_args.specs.FileWords as spec;
ghost use Rattle.np_args.specs.declared.job.Job.TheVariants.{Flatten as FlattenJob, Unused as UnusedJob};

use crate::arguments::file;
use crate::command_words::CommandWords;
use crate::files::read_files;
use crate::job::Job;
use crate::words_fault::WordsFault;
use clap::{ArgMatches, Command};
use std::alloc::{AllocError, Global};

/// The words of `unused`.
pub(crate) struct UnusedWords;

impl CommandWords for UnusedWords {
    ghost line = { spec.files_command (codes "unused") };

    ghost made = { spec.files_of UnusedJob };

    fn line<'a>(alloc: Global) -> Result<Command<'a>, AllocError> {
        files_command(alloc, "unused")
    }

    fn job(alloc: Global, matches: &ArgMatches) -> Result<Job, WordsFault> {
        let files = read_files(alloc, matches)?;
        Ok(Job::Unused { files })
    }

    ghost exact = { unfold clap_on_literals in refl };
}

/// The words of `flatten`.
pub(crate) struct FlattenWords;

impl CommandWords for FlattenWords {
    ghost line = { spec.files_command (codes "flatten") };

    ghost made = { spec.files_of FlattenJob };

    fn line<'a>(alloc: Global) -> Result<Command<'a>, AllocError> {
        files_command(alloc, "flatten")
    }

    fn job(alloc: Global, matches: &ArgMatches) -> Result<Job, WordsFault> {
        let files = read_files(alloc, matches)?;
        Ok(Job::Flatten { files })
    }

    ghost exact = { unfold clap_on_literals in refl };
}

// `NAME [FILE]...`
fn files_command<'a>(alloc: Global, name: &'a str) -> Result<Command<'a>, AllocError>
    ensures { IfOk result (λ command. app_of command ≡ spec.files_command name.entry.now) }
{
    Command::new(alloc, name)
        .disable_help_flag(true)
        .arg(file(alloc))
}
