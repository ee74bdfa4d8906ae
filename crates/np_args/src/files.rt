//! The files that words name.
ghost use Rattle.std.specs.Prelude.{◌≡◌, Some, None, IfOk, IsErrOf, map};
ghost use Rattle.clap.specs.Matches.{found_of};
ghost use Rattle.clap.specs.Walk.{rows_of};
ghost use Rattle.np_args.specs.Arguments as spec;

use crate::words_fault::WordsFault;
use clap::ArgMatches;
use np_base::{NoMemory, Seq, Text};
use std::alloc::Global;

/// The files that were found. `Usage` comes exactly where they name standard input more than once.
pub(crate) fn read_files(alloc: Global, matches: &ArgMatches) -> Result<Seq<Text>, WordsFault>
    ensures files { IfOk result (λ files. spec.files_in (rows_of (found_of matches.now)) ≡ Some files) }
    ensures usage { IsErrOf result WordsFault.Usage →
        spec.files_in (rows_of (found_of matches.now)) ≡ None }
{
    let files = texts_of(alloc, matches.get_strs("FILE").unwrap_or(&[]))?;
    if are_files(files.items()) {
        Ok(files)
    } else {
        Err(WordsFault::Usage)
    }
}

// Texts of the same bytes, in the same order.
fn texts_of(alloc: Global, words: &[&str]) -> Result<Seq<Text>, NoMemory>
    ensures { IfOk result (λ texts. texts ≡ map (λ word. word.now) words.now) }
{
    let mut texts = Seq::new(alloc);
    for word in words {
        texts.push(Text::of(alloc, word)?)?;
    }
    Ok(texts)
}

// Whether standard input is named at most once.
fn are_files(names: &[Text]) -> bool
    ensures { result ≡ spec.are_files names.now }
{
    names.iter().filter(|name| name.as_str() == "-").count() < 2
}
