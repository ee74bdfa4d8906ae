//! What reading connections is refused with.

use np_base::NoMemory;
use std::error::Error;
use std::fmt;

/// Why a text gave no set of connections.
#[derive(Clone, Copy, Debug, PartialEq, Eq)]
pub enum ConnsFault {
    /// No set of connections has this text.
    BadConns,
    /// The system refused memory.
    NoMemory,
}

impl fmt::Display for ConnsFault {
    ghost use Rattle.std.specs.Prelude.{Some};
    ghost use Rattle.np_conns.specs.Faults.{conns_fault_text};

    ghost output = { λ fault. Some (conns_fault_text fault) };

    fn fmt<W: fmt::Write>(&self, f: &mut fmt::Formatter<W>) -> fmt::Result {
        match self {
            ConnsFault::BadConns => write!(f, "not the text of connections"),
            ConnsFault::NoMemory => write!(f, "out of memory"),
        }
    }
}

impl Error for ConnsFault {}

impl From<NoMemory> for ConnsFault {
    ghost use Rattle.std.specs.Prelude.{◌≡◌};
    ghost use Rattle.np_conns.specs.declared.conns_fault.ConnsFault.TheVariants.{NoMemory};

    ghost from_gives = { λ _ fault. fault ≡ NoMemory };

    fn from(_error: NoMemory) -> ConnsFault {
        ConnsFault::NoMemory
    }
}
