//! The command line of `check`.
ghost use Rattle.std.specs.Prelude.{◌≡◌, ◌∷◌, refl};
ghost use Rattle.clap.proofs.OnLiterals.{clap_on_literals};
ghost use Rattle.np_args.specs.Arguments.{are_files};
ghost use Rattle.np_args.specs.CheckWords.{check_command, check_of};

use crate::arguments::{file, required_option};
use crate::command_words::CommandWords;
use crate::files::read_files;
use crate::found::name_in;
use crate::job::Job;
use crate::words_fault::WordsFault;
use clap::{ArgMatches, Command};
use np_base::Text;
use std::alloc::{AllocError, Global};

/// The words of `check`.
pub(crate) struct CheckWords;

impl CommandWords for CheckWords {
    ghost line = { check_command };

    ghost made = { check_of };

    // `check --statement FILE [FILE]...`
    fn line<'a>(alloc: Global) -> Result<Command<'a>, AllocError> {
        Command::new(alloc, "check")
            .disable_help_flag(true)
            .arg(required_option(alloc, "statement"))?
            .arg(file(alloc))
    }

    // The statement file and the files that were found. `Usage` comes exactly where standard input is named more than once
    // among them.
    fn job(alloc: Global, matches: &ArgMatches) -> Result<Job, WordsFault> {
        let files = read_files(alloc, matches)?;
        let statement = name_in(alloc, matches, "statement")?.ok_or(WordsFault::Usage)?;
        if are_files_beside(&statement, files.items()) {
            Ok(Job::Check { statement, files })
        } else {
            Err(WordsFault::Usage)
        }
    }

    ghost exact = { unfold clap_on_literals in refl };
}

// Whether standard input is named at most once among one name and others.
fn are_files_beside(one: &Text, names: &[Text]) -> bool
    ensures { result ≡ are_files (one.now ∷ names.now) }
{
    let others = names.iter().filter(|name| name.as_str() == "-").count();
    others < if one.as_str() == "-" { 1 } else { 2 }
}
