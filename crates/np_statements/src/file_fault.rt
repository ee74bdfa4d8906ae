//! Why a file gave no statements.

use np_base::NoMemory;
use std::error::Error;
use std::fmt;

/// Why a file gave no statements.
#[derive(Clone, Copy, Debug, PartialEq, Eq)]
pub enum FileFault {
    /// The line of this number is not in the grammar. Lines are numbered from 1, empty ones among them.
    BadStatement { line: u64 },
    /// The system refused memory.
    NoMemory,
}

impl fmt::Display for FileFault {
    ghost use Rattle.std.specs.Prelude.{Some};
    ghost use Rattle.np_statements.specs.Faults.{file_fault_text};

    ghost output = { λ fault. Some (file_fault_text fault) };

    fn fmt<W: fmt::Write>(&self, f: &mut fmt::Formatter<W>) -> fmt::Result {
        match self {
            FileFault::BadStatement { line } => write!(f, "line {line} is no statement"),
            FileFault::NoMemory => write!(f, "out of memory"),
        }
    }
}

impl Error for FileFault {}

impl From<NoMemory> for FileFault {
    ghost use Rattle.std.specs.Prelude.{◌≡◌};
    ghost use Rattle.np_statements.specs.declared.file_fault.FileFault.TheVariants.{NoMemory};

    ghost from_gives = { λ _ fault. fault ≡ NoMemory };

    fn from(_error: NoMemory) -> FileFault {
        FileFault::NoMemory
    }
}
