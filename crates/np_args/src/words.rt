//! The command lines of the program.
ghost use Rattle.std.specs.Prelude.{◌≡◌, Some, None, IfOk, IsErrOf};
ghost use Rattle.np_args.specs.Prelude.{IsWell, asked_by};

use crate::check_words::CheckWords;
use crate::command_words::read;
use crate::evaluate_words::EvaluateWords;
use crate::explain_words::ExplainWords;
use crate::exposure_words::ExposureWords;
use crate::file_words::{FlattenWords, UnusedWords};
use crate::job::Job;
use crate::list_words::ListWords;
use crate::sample_words::SampleWords;
use crate::words_fault::WordsFault;
use std::alloc::Global;

/// The job that the words after the program's name ask for: a command, and then what it is to be done on. `Usage` comes
/// exactly where they ask for none.
pub fn read_words(alloc: Global, words: &[String]) -> Result<Job, WordsFault>
    ensures job { IfOk result (λ job. asked_by words.now ≡ Some job) }
    ensures well { IfOk result IsWell }
    ensures usage { IsErrOf result WordsFault.Usage → asked_by words.now ≡ None }
{
    let Some(command) = words.first() else {
        return Err(WordsFault::Usage);
    };
    match command.as_str() {
        "list" => read::<ListWords>(alloc, words),
        "explain" => read::<ExplainWords>(alloc, words),
        "exposure" => read::<ExposureWords>(alloc, words),
        "evaluate" => read::<EvaluateWords>(alloc, words),
        "unused" => read::<UnusedWords>(alloc, words),
        "check" => read::<CheckWords>(alloc, words),
        "flatten" => read::<FlattenWords>(alloc, words),
        "sample" => read::<SampleWords>(alloc, words),
        _ => Err(WordsFault::Usage),
    }
}
