//! How a run fails.

use crate::fault::Fault;
use crate::status::Status;
use crate::write_fault::WriteFault;
use np_args::WordsFault;
use np_base::{NoMemory, Text};
use np_fold::FoldFault;
use np_io::SinkFailed;
use np_reading::Refusal;
use std::alloc::AllocError;

/// How a run fails.
#[derive(Debug, Drop)]
pub enum Failure {
    /// The words ask for nothing.
    Usage,
    /// An input of this name could not be read.
    CannotRead(Text),
    /// The inputs have more bytes than are read.
    TooLarge,
    /// The inputs, or the words or statements on what they say, have this fault first.
    Refused(Fault),
    /// The report could not be written.
    CannotWrite,
    /// The system refused memory.
    NoMemory,
}

impl Failure {
    ghost use Rattle.std.specs.Prelude.{◌≡◌};
    ghost use Rattle.np_command.specs.Statuses.{failure_status};

    /// The status of the program that failed so.
    pub fn status(&self) -> Status
        ensures { result ≡ failure_status self.now }
    {
        match self {
            Failure::Usage => Status::Usage,
            Failure::TooLarge | Failure::Refused(_) => Status::Refused,
            Failure::CannotRead(_) | Failure::CannotWrite => Status::Device,
            Failure::NoMemory => Status::NoMemory,
        }
    }
}

impl From<WordsFault> for Failure {
    ghost use Rattle.std.specs.Prelude.{◌≡◌};
    ghost use Rattle.np_command.specs.Failures.{words_failure};

    ghost from_gives = { λ fault failure. failure ≡ words_failure fault };

    fn from(fault: WordsFault) -> Failure {
        match fault {
            WordsFault::Usage => Failure::Usage,
            WordsFault::NoMemory => Failure::NoMemory,
        }
    }
}

impl From<Refusal> for Failure {
    ghost use Rattle.std.specs.Prelude.{◌≡◌};
    ghost use Rattle.np_command.specs.Failures.{refusal_failure};

    ghost from_gives = { λ refusal failure. failure ≡ refusal_failure refusal };

    fn from(refusal: Refusal) -> Failure {
        match refusal {
            Refusal::NoMemory => Failure::NoMemory,
            refusal => Failure::Refused(Fault::Inputs(refusal)),
        }
    }
}

impl From<FoldFault> for Failure {
    ghost use Rattle.std.specs.Prelude.{◌≡◌};
    ghost use Rattle.np_command.specs.Failures.{fold_failure};

    ghost from_gives = { λ fault failure. failure ≡ fold_failure fault };

    fn from(fault: FoldFault) -> Failure {
        match fault {
            FoldFault::TooManyWorkloads { count } => {
                Failure::Refused(Fault::TooManyWorkloads { count })
            }
            FoldFault::NoMemory => Failure::NoMemory,
        }
    }
}

impl From<SinkFailed> for Failure {
    ghost use Rattle.std.specs.Prelude.{◌≡◌};
    ghost use Rattle.np_command.specs.declared.failure.Failure.TheVariants.{CannotWrite};

    ghost from_gives = { λ _ failure. failure ≡ CannotWrite };

    fn from(_error: SinkFailed) -> Failure {
        Failure::CannotWrite
    }
}

impl From<NoMemory> for Failure {
    ghost use Rattle.std.specs.Prelude.{◌≡◌};
    ghost use Rattle.np_command.specs.declared.failure.Failure.TheVariants.{NoMemory};

    ghost from_gives = { λ _ failure. failure ≡ NoMemory };

    fn from(_error: NoMemory) -> Failure {
        Failure::NoMemory
    }
}

impl From<AllocError> for Failure {
    ghost use Rattle.std.specs.Prelude.{◌≡◌};
    ghost use Rattle.np_command.specs.declared.failure.Failure.TheVariants.{NoMemory};

    ghost from_gives = { λ _ failure. failure ≡ NoMemory };

    fn from(_error: AllocError) -> Failure {
        Failure::NoMemory
    }
}

impl From<WriteFault> for Failure {
    ghost use Rattle.std.specs.Prelude.{◌≡◌};
    ghost use Rattle.np_command.specs.Failures.{write_failure};

    ghost from_gives = { λ fault failure. failure ≡ write_failure fault };

    fn from(fault: WriteFault) -> Failure {
        match fault {
            WriteFault::SinkFailed => Failure::CannotWrite,
            WriteFault::NoMemory => Failure::NoMemory,
        }
    }
}
