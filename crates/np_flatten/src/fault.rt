//! Why an estate has no flat policies.

use np_base::NoMemory;
use std::error::Error;
use std::fmt;

/// Why an estate has no flat policies, by the numbers of two workloads.
#[derive(Clone, Copy, Debug, PartialEq, Eq)]
pub enum FlatFault {
    /// What may pass from one to the other differs between the families of the list, and no peer of pods tells families
    /// apart (Kubernetes API reference, NetworkPolicyPeer).
    Split { source: u32, destination: u32 },
    /// No selector tells them apart (Kubernetes API reference, LabelSelector), and they differ in what may pass: with a
    /// third workload, within and between them, or at some address.
    Alike { a: u32, b: u32 },
    /// The system refused memory.
    NoMemory,
}

impl fmt::Display for FlatFault {
    ghost use Rattle.std.specs.Prelude.{Some};
    ghost use Rattle.np_flatten.specs.FaultText.{flat_fault_text};

    ghost output = { λ fault. Some (flat_fault_text fault) };

    fn fmt<W: fmt::Write>(&self, f: &mut fmt::Formatter<W>) -> fmt::Result {
        match self {
            FlatFault::Split {
                source,
                destination,
            } => write!(f, "Split {source}, {destination}"),
            FlatFault::Alike { a, b } => write!(f, "Alike {a}, {b}"),
            FlatFault::NoMemory => write!(f, "out of memory"),
        }
    }
}

impl Error for FlatFault {}

impl From<NoMemory> for FlatFault {
    ghost use Rattle.std.specs.Prelude.{◌≡◌};
    ghost use Rattle.np_flatten.specs.declared.fault.FlatFault.TheVariants.{NoMemory};

    ghost from_gives = { λ _ fault. fault ≡ NoMemory };

    fn from(_error: NoMemory) -> FlatFault {
        FlatFault::NoMemory
    }
}
