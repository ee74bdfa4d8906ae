//! A statement as its line says it.

use np_addr::Cidr;
use np_base::{NoMemory, Text};
use np_check::Wanted;
use np_conns::ConnSet;
use std::error::Error;
use std::fmt;

/// How a line names the ends on one side of a statement.
#[derive(Drop)]
pub enum EndForm {
    /// All pods: `any pod`.
    Pods,
    /// All addresses of both families: `any address`.
    Addresses,
    /// The pods of the namespace of this name: `namespace NAME`.
    Namespace(Text),
    /// The pods of the workload of this name: `workload NAME`.
    Work(Text),
    /// The addresses of a block, as `10.0.0.0/8`.
    Block(Cidr),
}

/// A statement as its line says it. It speaks of every packet from its source to its destination at one of its
/// protocols and ports. One of its sides names no addresses.
#[derive(Drop)]
pub struct StatementText {
    pub wanted: Wanted,
    pub source: EndForm,
    pub destination: EndForm,
    pub conns: ConnSet,
}

/// Why a line gave no statement.
#[derive(Clone, Copy, Debug, PartialEq, Eq)]
pub enum StatementFault {
    /// The line is not in the grammar.
    BadStatement,
    /// The system refused memory.
    NoMemory,
}

impl fmt::Display for StatementFault {
    ghost use Rattle.std.specs.Prelude.{Some};
    ghost use Rattle.np_statements.specs.Faults.{statement_fault_text};

    ghost output = { λ fault. Some (statement_fault_text fault) };

    fn fmt<W: fmt::Write>(&self, f: &mut fmt::Formatter<W>) -> fmt::Result {
        match self {
            StatementFault::BadStatement => write!(f, "not a statement"),
            StatementFault::NoMemory => write!(f, "out of memory"),
        }
    }
}

impl Error for StatementFault {}

impl From<NoMemory> for StatementFault {
    ghost use Rattle.std.specs.Prelude.{◌≡◌};
    ghost use Rattle.np_statements.specs.declared.statement_text.StatementFault.TheVariants.{NoMemory};

    ghost from_gives = { λ _ fault. fault ≡ NoMemory };

    fn from(_error: NoMemory) -> StatementFault {
        StatementFault::NoMemory
    }
}
