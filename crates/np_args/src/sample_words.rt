//! The command line of `sample`.
ghost use Rattle.std.specs.Prelude.{refl};
ghost use Rattle.clap.proofs.OnLiterals.{clap_on_literals};
ghost use Rattle.np_args.specs.SampleWords.{sample_command, sample_of};

use crate::command_words::CommandWords;
use crate::job::Job;
use crate::number::read_number;
use crate::words_fault::WordsFault;
use clap::{Arg, ArgAction, ArgMatches, Command};
use std::alloc::{AllocError, Global};

/// The words of `sample`.
pub(crate) struct SampleWords;

impl CommandWords for SampleWords {
    ghost line = { sample_command };

    ghost made = { sample_of };

    // `sample N`
    fn line<'a>(alloc: Global) -> Result<Command<'a>, AllocError> {
        let number = Arg::new(alloc, "N").required(true).action(ArgAction::Set);
        Command::new(alloc, "sample")
            .disable_help_flag(true)
            .arg(number)
    }

    // The sample that was asked for. `Usage` comes exactly where its number is none from 1 to 1000.
    fn job(_alloc: Global, matches: &ArgMatches) -> Result<Job, WordsFault> {
        let word = matches.get_str("N").ok_or(WordsFault::Usage)?;
        let n = read_number(word, 1000).ok_or(WordsFault::Usage)?;
        Ok(Job::Sample { n })
    }

    ghost exact = { unfold clap_on_literals in refl };
}
