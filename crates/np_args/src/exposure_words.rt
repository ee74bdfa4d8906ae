//! The command line of `exposure`.
ghost use Rattle.std.specs.Prelude.{refl};
ghost use Rattle.clap.proofs.OnLiterals.{clap_on_literals};
ghost use Rattle.np_args.specs.ExposureWords.{exposure_command, exposure_of};

use crate::arguments::{file, option_of, option_or};
use crate::command_words::CommandWords;
use crate::files::read_files;
use crate::format::Format;
use crate::found::name_in;
use crate::job::Job;
use crate::words_fault::WordsFault;
use clap::{ArgMatches, Command};
use std::alloc::{AllocError, Global};

/// The words of `exposure`.
pub(crate) struct ExposureWords;

impl CommandWords for ExposureWords {
    ghost line = { exposure_command };

    ghost made = { exposure_of };

    // `exposure [--workload NAME] [--format text|csv|json] [FILE]...`
    fn line<'a>(alloc: Global) -> Result<Command<'a>, AllocError> {
        Command::new(alloc, "exposure")
            .disable_help_flag(true)
            .arg(option_of(alloc, "workload"))?
            .arg(option_or(alloc, "format", "text"))?
            .arg(file(alloc))
    }

    // The workloads whose exposure was asked for. `Usage` comes exactly where a value is none that its option takes, or standard input is
    // named more than once.
    fn job(alloc: Global, matches: &ArgMatches) -> Result<Job, WordsFault> {
        let format = matches
            .get_str("format")
            .and_then(Format::named)
            .ok_or(WordsFault::Usage)?;
        let files = read_files(alloc, matches)?;
        let workload = name_in(alloc, matches, "workload")?;
        Ok(Job::Exposure {
            workload,
            format,
            files,
        })
    }

    ghost exact = { unfold clap_on_literals in refl };
}
