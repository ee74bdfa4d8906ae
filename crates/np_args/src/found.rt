//! What clap found of an option.
ghost use Rattle.std.specs.Prelude.{◌≡◌, Some, None, IfOk, IsErrOf};
ghost use Rattle.clap.specs.Matches.{found_of};
ghost use Rattle.clap.specs.Walk.{first_of, rows_of};
ghost use Rattle.np_args.specs.Prelude.{packet_end_of, value_in};

use crate::end_word::EndWord;
use crate::words_fault::WordsFault;
use clap::ArgMatches;
use np_base::{NoMemory, Text};
use std::alloc::Global;

/// The name that an option was given, if it was.
pub(crate) fn name_in(
    alloc: Global,
    matches: &ArgMatches,
    option: &str,
) -> Result<Option<Text>, NoMemory>
    ensures { IfOk result (λ name. first_of option.now (rows_of (found_of matches.now)) ≡ name) }
{
    match matches.get_str(option) {
        Some(name) => Ok(Some(Text::of(alloc, name)?)),
        None => Ok(None),
    }
}

/// The end that an option names. `Usage` comes exactly where it was not found, or names none.
pub(crate) fn end_in(
    alloc: Global,
    matches: &ArgMatches,
    option: &str,
) -> Result<EndWord, WordsFault>
    ensures end { IfOk result (λ end. value_in packet_end_of option.now (rows_of (found_of matches.now)) ≡ Some end) }
    ensures usage { IsErrOf result WordsFault.Usage →
        value_in packet_end_of option.now (rows_of (found_of matches.now)) ≡ None }
{
    let word = matches.get_str(option).ok_or(WordsFault::Usage)?;
    EndWord::of(alloc, word)
}
