//! The command line of `evaluate`.
ghost use Rattle.std.specs.Prelude.{refl};
ghost use Rattle.clap.proofs.OnLiterals.{clap_on_literals};
ghost use Rattle.np_args.specs.EvaluateWords.{evaluate_command, evaluate_of};

use crate::arguments::{file, required_option};
use crate::command_words::CommandWords;
use crate::files::read_files;
use crate::found::end_in;
use crate::job::Job;
use crate::number::read_port;
use crate::words_fault::WordsFault;
use clap::{ArgMatches, Command};
use np_conns::Proto;
use std::alloc::{AllocError, Global};

/// The words of `evaluate`.
pub(crate) struct EvaluateWords;

impl CommandWords for EvaluateWords {
    ghost line = { evaluate_command };

    ghost made = { evaluate_of };

    // `evaluate --from END --to END --protocol P --port N [FILE]...`
    fn line<'a>(alloc: Global) -> Result<Command<'a>, AllocError> {
        Command::new(alloc, "evaluate")
            .disable_help_flag(true)
            .arg(required_option(alloc, "from"))?
            .arg(required_option(alloc, "to"))?
            .arg(required_option(alloc, "protocol"))?
            .arg(required_option(alloc, "port"))?
            .arg(file(alloc))
    }

    // The packet that was asked for. `Usage` comes exactly where a value is none that its option takes, or standard input is
    // named more than once.
    fn job(alloc: Global, matches: &ArgMatches) -> Result<Job, WordsFault> {
        let proto = matches
            .get_str("protocol")
            .and_then(Proto::named)
            .ok_or(WordsFault::Usage)?;
        let port = matches
            .get_str("port")
            .and_then(read_port)
            .ok_or(WordsFault::Usage)?;
        let files = read_files(alloc, matches)?;
        let from = end_in(alloc, matches, "from")?;
        let to = end_in(alloc, matches, "to")?;
        Ok(Job::Evaluate {
            from,
            to,
            proto,
            port,
            files,
        })
    }

    ghost exact = { unfold clap_on_literals in refl };
}
