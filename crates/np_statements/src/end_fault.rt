//! Why the ends of statements were not found.

use np_base::{NoMemory, Text};
use std::error::Error;
use std::fmt;

/// Why the ends of statements were not found.
#[derive(Debug, Drop)]
pub enum EndFault {
    /// No workload has this name.
    UnknownEnd { name: Text },
    /// The system refused memory.
    NoMemory,
}

impl fmt::Display for EndFault {
    ghost use Rattle.std.specs.Prelude.{Some};
    ghost use Rattle.np_statements.specs.Faults.{end_fault_text};

    ghost output = { λ fault. Some (end_fault_text fault) };

    fn fmt<W: fmt::Write>(&self, f: &mut fmt::Formatter<W>) -> fmt::Result {
        match self {
            EndFault::UnknownEnd { name } => write!(f, "no workload is named {name}"),
            EndFault::NoMemory => write!(f, "out of memory"),
        }
    }
}

impl Error for EndFault {}

impl From<NoMemory> for EndFault {
    ghost use Rattle.std.specs.Prelude.{◌≡◌};
    ghost use Rattle.np_statements.specs.declared.end_fault.EndFault.TheVariants.{NoMemory};

    ghost from_gives = { λ _ fault. fault ≡ NoMemory };

    fn from(_error: NoMemory) -> EndFault {
        EndFault::NoMemory
    }
}
