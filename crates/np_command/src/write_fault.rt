//! Why a report is not written whole.

use np_base::NoMemory;
use np_io::SinkFailed;
use std::alloc::AllocFailed;

/// Why a report is not written whole.
#[derive(Clone, Copy, PartialEq, Eq)]
pub enum WriteFault {
    /// A write to the sink failed.
    SinkFailed,
    /// The system refused memory.
    NoMemory,
}

impl From<SinkFailed> for WriteFault {
    ghost use Rattle.std.specs.Prelude.{◌≡◌};
    ghost use Rattle.np_command.specs.declared.write_fault.WriteFault.TheVariants.{SinkFailed};

    ghost from_gives = { λ _ fault. fault ≡ SinkFailed };

    fn from(_error: SinkFailed) -> WriteFault {
        WriteFault::SinkFailed
    }
}

impl From<NoMemory> for WriteFault {
    ghost use Rattle.std.specs.Prelude.{◌≡◌};
    ghost use Rattle.np_command.specs.declared.write_fault.WriteFault.TheVariants.{NoMemory};

    ghost from_gives = { λ _ fault. fault ≡ NoMemory };

    fn from(_error: NoMemory) -> WriteFault {
        WriteFault::NoMemory
    }
}

impl<T: Drop> From<AllocFailed<T>> for WriteFault {
    ghost use Rattle.std.specs.Prelude.{◌≡◌};
    ghost use Rattle.np_command.specs.declared.write_fault.WriteFault.TheVariants.{NoMemory};

    ghost from_gives = { λ _ fault. fault ≡ NoMemory };

    fn from(_error: AllocFailed<T>) -> WriteFault {
        WriteFault::NoMemory
    }
}
