//! The command line of `list`.
ghost use Rattle.std.specs.Prelude.{refl};
ghost use Rattle.clap.proofs.OnLiterals.{clap_on_literals};
ghost use Rattle.np_args.specs.ListWords.{list_command, list_job_of};

use crate::arguments::{file, option_of, option_or};
use crate::command_words::CommandWords;
use crate::files::read_files;
use crate::focus_side::FocusSide;
use crate::format::Format;
use crate::found::name_in;
use crate::job::Job;
use crate::report::Report;
use crate::words_fault::WordsFault;
use clap::{ArgMatches, Command};
use std::alloc::{AllocError, Global};

/// The words of `list`.
pub(crate) struct ListWords;

impl CommandWords for ListWords {
    ghost line = { list_command };

    ghost made = { list_job_of };

    // `list [--format text|csv|json] [--report 1|2] [--controller NAME] [--focus NAME] [--side either|from|to] [FILE]...`
    fn line<'a>(alloc: Global) -> Result<Command<'a>, AllocError> {
        Command::new(alloc, "list")
            .disable_help_flag(true)
            .arg(option_or(alloc, "format", "text"))?
            .arg(option_or(alloc, "report", "2"))?
            .arg(option_of(alloc, "controller"))?
            .arg(option_of(alloc, "focus"))?
            .arg(option_or(alloc, "side", "either"))?
            .arg(file(alloc))
    }

    // The table that was asked for. `Usage` comes exactly where a value is none that its option takes, or standard input is
    // named more than once.
    fn job(alloc: Global, matches: &ArgMatches) -> Result<Job, WordsFault> {
        let format = matches
            .get_str("format")
            .and_then(Format::named)
            .ok_or(WordsFault::Usage)?;
        let report = matches
            .get_str("report")
            .and_then(Report::named)
            .ok_or(WordsFault::Usage)?;
        let side = matches
            .get_str("side")
            .and_then(FocusSide::named)
            .ok_or(WordsFault::Usage)?;
        let files = read_files(alloc, matches)?;
        let controller = name_in(alloc, matches, "controller")?;
        let focus = name_in(alloc, matches, "focus")?;
        Ok(Job::List {
            format,
            report,
            controller,
            focus,
            side,
            files,
        })
    }

    ghost exact = { unfold clap_on_literals in refl };
}
