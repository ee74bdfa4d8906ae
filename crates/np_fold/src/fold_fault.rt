//! Why an estate is not folded.

use np_base::NoMemory;
use std::error::Error;
use std::fmt;

/// Why an estate is not folded. It is written as the line that tells of it, as `TooManyWorkloads 2001`.
#[derive(Debug, PartialEq, Eq, Drop)]
pub enum FoldFault {
    /// There are more workloads than 2,000: how many.
    TooManyWorkloads { count: u64 },
    /// The system refused memory.
    NoMemory,
}

impl fmt::Display for FoldFault {
    ghost use Rattle.std.specs.Prelude.{Some};
    ghost use Rattle.np_fold.specs.Faults.{fold_fault_text};

    ghost output = { λ fault. Some (fold_fault_text fault) };

    fn fmt<W: fmt::Write>(&self, f: &mut fmt::Formatter<W>) -> fmt::Result {
        match self {
            FoldFault::TooManyWorkloads { count } => write!(f, "TooManyWorkloads {count}"),
            FoldFault::NoMemory => write!(f, "out of memory"),
        }
    }
}

impl Error for FoldFault {}

impl From<NoMemory> for FoldFault {
    ghost use Rattle.std.specs.Prelude.{◌≡◌};
    ghost use Rattle.np_fold.specs.declared.fold_fault.FoldFault.TheVariants.{NoMemory};

    ghost from_gives = { λ _ fault. fault ≡ NoMemory };

    fn from(_error: NoMemory) -> FoldFault {
        FoldFault::NoMemory
    }
}
