//! What follows from the definitions of lines. A law is the contract of a call that does nothing.
ghost use Rattle.std.specs.Prelude.{◌≡◌, ◌≢◌};
ghost use Rattle.np_command.specs.declared.failure.Failure.{Failure as SpecFailure};
ghost use Rattle.np_command.specs.declared.failure.Failure.TheVariants.{Usage};
ghost use Rattle.np_frame.specs.FailureLines.{failure_text};
ghost use Rattle.np_frame.specs.OneLine.{IsOneLine};

/// Whatever a failure names, it is told in one line, without another control character; but for the usage, which has a line for
/// each command.
pub fn failures_are_told_in_one_line()
    ensures { (failure : SpecFailure) → failure ≢ Usage → IsOneLine (failure_text failure) }
{}
