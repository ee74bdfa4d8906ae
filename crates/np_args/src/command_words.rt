//! How the words of a command are read.
ghost use Rattle.std.specs.Prelude.{◌≡◌, List, None, Option, Some, IfOk, IsErrOf, map, string_bytes, true};
ghost use Rattle.clap.specs.Faults.{is_simple_and_free};
ghost use Rattle.clap.specs.Matches.{found_of};
ghost use Rattle.clap.specs.Simple.{App, app_of};
ghost use Rattle.clap.specs.Walk.{Row, rows_of};
ghost use Rattle.np_args.specs.Arguments.{asked_of};
ghost use Rattle.np_args.specs.Jobs.{IsWell};
ghost use Rattle.np_args.specs.Values.{Word};
ghost use Rattle.np_args.specs.declared.job.Job.{Job as SpecJob};

use crate::job::Job;
use crate::words_fault::WordsFault;
use clap::{ArgMatches, Command};
use std::alloc::{AllocError, Global};

/// A command: the words that it takes, and what they ask for.
pub(crate) trait CommandWords {
    /// The command line, as clap takes it.
    ghost line: { App };

    /// The job of what is found on it, if there is one.
    ghost made: { List Row → Option SpecJob };

    /// The command line.
    fn line<'a>(alloc: Global) -> Result<Command<'a>, AllocError>
        ensures { IfOk result (λ command. app_of command ≡ line) };

    /// The job of what was found. `Usage` comes exactly where there is none.
    fn job(alloc: Global, matches: &ArgMatches) -> Result<Job, WordsFault>
        ensures job { IfOk result (λ job. made (rows_of (found_of matches.now)) ≡ Some job) }
        ensures well { IfOk result IsWell }
        ensures usage { IsErrOf result WordsFault.Usage → made (rows_of (found_of matches.now)) ≡ None };

    /// Clap says exactly what it answers for it.
    ghost exact: { is_simple_and_free line ≡ true };
}

/// The job of words of which the first is the command. `Usage` comes exactly where they ask for none.
pub(crate) fn read<C: CommandWords>(alloc: Global, words: &[String]) -> Result<Job, WordsFault>
    ensures job { IfOk result (λ job. asked_of C.line C.made (map string_bytes words.now) ≡ Some job) }
    ensures well { IfOk result IsWell }
    ensures usage { IsErrOf result WordsFault.Usage → asked_of C.line C.made (map string_bytes words.now) ≡ None }
{
    let line = C::line(alloc)?;
    let matches = line.try_get_matches_from(words)?;
    C::job(alloc, &matches)
}
