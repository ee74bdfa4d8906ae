//! Why an exposure is not told.
ghost use Rattle.std.specs.Prelude.{◌≡◌};

use np_base::NoMemory;

/// Why an exposure is not told.
#[derive(Clone, Copy, PartialEq, Eq)]
pub enum ExposureFault {
    /// The mentioned requirements may tell apart more than 65,536 patterns of labels: `weight` many, and `u64::MAX` where
    /// that is more.
    TooManyPatterns { weight: u64 },
    /// Memory is wanting.
    NoMemory,
}

impl From<NoMemory> for ExposureFault {
    ghost use Rattle.std.specs.Prelude.{◌≡◌};
    ghost use Rattle.np_exposure.specs.declared.exposure_fault.ExposureFault.TheVariants.{NoMemory};

    ghost from_gives = { λ _ fault. fault ≡ NoMemory };

    fn from(_error: NoMemory) -> ExposureFault {
        ExposureFault::NoMemory
    }
}
