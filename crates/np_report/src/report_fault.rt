//! Why a call on a report was refused.

use np_base::NoMemory;
use np_io::SinkFailed;
use std::fmt;

/// Why a call on a report was refused.
#[derive(Clone, Copy, Debug, PartialEq, Eq)]
pub enum ReportFault {
    /// The sink failed.
    SinkFailed,
    /// An earlier call was refused, or the end of the report was given.
    Broken,
    /// The system refused memory.
    NoMemory,
}

impl fmt::Display for ReportFault {
    ghost use Rattle.std.specs.Prelude.{Some};
    ghost use Rattle.np_report.specs.Faults.{report_fault_text};

    ghost output = { λ fault. Some (report_fault_text fault) };

    fn fmt<W: fmt::Write>(&self, f: &mut fmt::Formatter<W>) -> fmt::Result {
        match self {
            ReportFault::SinkFailed => write!(f, "cannot write"),
            ReportFault::Broken => write!(f, "the report was refused or has ended"),
            ReportFault::NoMemory => write!(f, "out of memory"),
        }
    }
}

impl std::error::Error for ReportFault {}

impl From<SinkFailed> for ReportFault {
    ghost use Rattle.std.specs.Prelude.{◌≡◌};
    ghost use Rattle.np_report.specs.declared.report_fault.ReportFault.TheVariants as fault;

    ghost from_gives = { λ _ e. e ≡ fault.SinkFailed };

    fn from(_failed: SinkFailed) -> ReportFault {
        ReportFault::SinkFailed
    }
}

impl From<NoMemory> for ReportFault {
    ghost use Rattle.std.specs.Prelude.{◌≡◌};
    ghost use Rattle.np_report.specs.declared.report_fault.ReportFault.TheVariants as fault;

    ghost from_gives = { λ _ e. e ≡ fault.NoMemory };

    fn from(_refused: NoMemory) -> ReportFault {
        ReportFault::NoMemory
    }
}
