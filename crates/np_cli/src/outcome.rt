//! How a run ends, and what is said of it.
ghost use Rattle.std.specs.Prelude.{◌≡◌};
ghost use Rattle.np_cli.specs.Statuses as statuses;

use np_command::{Failure, Status};
use np_frame::PreparedNotes;

/// How a report that was written whole ends.
#[derive(Drop)]
pub enum Ending {
    /// This is said of the report. Where it is of `check`, all statements hold.
    Done(PreparedNotes),
    /// The report is of `check`, and a statement does not hold. Nothing is said of it.
    Violated,
}

impl Ending {
    ghost use Rattle.std.specs.Prelude.{◌≡◌};
    ghost use Rattle.np_cli.specs.Messages.{ending_text};

    /// What is said of the report on the error sink: to write that takes no memory.
    pub fn text(&self) -> &str
        ensures { result.now ≡ ending_text self.now }
    {
        match self {
            Ending::Done(notes) => notes.text(),
            Ending::Violated => "",
        }
    }
}

/// How a run ends: the report was written whole, or the run failed.
pub type Outcome = Result<Ending, Failure>;

/// The status of the program that ended so.
pub fn status_of(outcome: &Outcome) -> Status
    ensures { result ≡ statuses.status_of outcome.now }
{
    match outcome {
        Ok(Ending::Done(_)) => Status::Done,
        Ok(Ending::Violated) => Status::Violated,
        Err(failure) => failure.status(),
    }
}
