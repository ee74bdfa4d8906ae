//! The command line of `explain`.
ghost use Rattle.std.specs.Prelude.{refl};
ghost use Rattle.clap.proofs.OnLiterals.{clap_on_literals};
ghost use Rattle.np_args.specs.ExplainWords.{explain_command, explain_of};

use crate::arguments::{file, required_option};
use crate::command_words::CommandWords;
use crate::files::read_files;
use crate::found::end_in;
use crate::job::Job;
use crate::words_fault::WordsFault;
use clap::{ArgMatches, Command};
use std::alloc::{AllocError, Global};

/// The words of `explain`.
pub(crate) struct ExplainWords;

impl CommandWords for ExplainWords {
    ghost line = { explain_command };

    ghost made = { explain_of };

    // `explain --from END --to END [FILE]...`
    fn line<'a>(alloc: Global) -> Result<Command<'a>, AllocError> {
        Command::new(alloc, "explain")
            .disable_help_flag(true)
            .arg(required_option(alloc, "from"))?
            .arg(required_option(alloc, "to"))?
            .arg(file(alloc))
    }

    // The ends that were asked about. `Usage` comes exactly where a value is none that its option takes, or standard input is
    // named more than once.
    fn job(alloc: Global, matches: &ArgMatches) -> Result<Job, WordsFault> {
        let files = read_files(alloc, matches)?;
        let from = end_in(alloc, matches, "from")?;
        let to = end_in(alloc, matches, "to")?;
        Ok(Job::Explain { from, to, files })
    }

    ghost exact = { unfold clap_on_literals in refl };
}
