//! Failures, as the lines that tell of them.
ghost use Rattle.std.specs.Prelude.{◌≡◌, IfNone, IfOk, IfSome, string_bytes};
ghost use Rattle.np_frame.specs.FailureLines as spec;
ghost use Rattle.np_frame.specs.FailureLines.{NamesSomething, failure_text};

use crate::one_line::one_line;
use np_base::{NoMemory, Text};
use np_command::Failure;
use std::alloc::Global;

// How the program is called, a line for each command.
static USAGE: &str = concat!(
    "usage: np list [--format text|csv|json] [--report 1|2] [--controller NAME] [--focus NAME] [--side either|from|to] [FILE]...\n",
    "       np explain --from END --to END [FILE]...\n",
    "       np exposure [--workload NAME] [--format text|csv|json] [FILE]...\n",
    "       np evaluate --from END --to END --protocol P --port N [FILE]...\n",
    "       np unused [FILE]...\n",
    "       np check --statement FILE [FILE]...\n",
    "       np flatten [FILE]...\n",
    "       np sample N\n",
);

// The lines of the other failures that name nothing.
static TOO_LARGE: &str = "error: TooLarge\n";

static CANNOT_WRITE: &str = "error: cannot write\n";

static NO_MEMORY: &str = "error: out of memory\n";

/// The line that tells of a failure, as `error: cannot write` with the line's end, where it names nothing: to write that takes
/// no memory.
pub fn constant_line(failure: &Failure) -> Option<&'static str>
    ensures line { IfSome result (λ line. line.now ≡ failure_text failure.now) }
    ensures none { IfNone result (NamesSomething failure.now) }
{
    match failure {
        Failure::Usage => Some(USAGE),
        Failure::TooLarge => Some(TOO_LARGE),
        Failure::CannotWrite => Some(CANNOT_WRITE),
        Failure::NoMemory => Some(NO_MEMORY),
        Failure::CannotRead(_) | Failure::Refused(_) => None,
    }
}

/// The line that tells of a failure. The names in it may have any characters: control characters stand as Rust writes them in a
/// string, so that it is one line.
pub fn failure_line(alloc: Global, failure: &Failure) -> Result<Text, NoMemory>
    ensures { IfOk result (λ line. line ≡ failure_text failure.now) }
{
    match failure {
        Failure::Usage => Text::of(alloc, USAGE),
        Failure::CannotRead(name) => error_line(alloc, format!(in alloc; "cannot read {name}")?),
        Failure::TooLarge => Text::of(alloc, TOO_LARGE),
        Failure::Refused(fault) => error_line(alloc, format!(in alloc; "{fault}")?),
        Failure::CannotWrite => Text::of(alloc, CANNOT_WRITE),
        Failure::NoMemory => Text::of(alloc, NO_MEMORY),
    }
}

// What fails, in one line.
fn error_line(alloc: Global, what: String) -> Result<Text, NoMemory>
    ensures { IfOk result (λ line. line ≡ spec.error_line (string_bytes what)) }
{
    let what = one_line(alloc, what.as_str())?;
    Ok(Text::from_string(format!(in alloc; "error: {what}\n")?))
}
