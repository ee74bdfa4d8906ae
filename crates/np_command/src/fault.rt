//! The faults of inputs, and of words and statements on what the inputs say.

use np_base::Text;
use np_model::Direction;
use np_reading::Refusal;
use np_rules::direction_text;
use std::fmt;

/// The first fault of the inputs, or of words and statements on what the inputs say.
#[derive(Debug, Drop)]
pub enum Fault {
    /// They are read to no estate.
    Inputs(Refusal),
    /// Their estate has this many workloads, which is more than 2,000.
    TooManyWorkloads {
        count: u64,
    },
    /// The line of the statement file of `check` that has this number, from 1, holds no statement.
    BadStatement {
        line: u64,
    },
    /// What may pass between these two workloads differs between the families of the list, so that `flatten` has no policies.
    Split {
        source: Text,
        destination: Text,
    },
    /// These two workloads are alike to selectors, and what may pass differs, so that `flatten` has no policies.
    Alike {
        a: Text,
        b: Text,
    },
    /// The words, or a statement of `check`, name an end that is not there: no workload has the name, or for `evaluate` no
    /// listed pod.
    UnknownEnd {
        name: Text,
    },
    /// Both ends are one pod, or for `explain` one workload of one pod. The name is the word of the source.
    SameEnd {
        name: Text,
    },
    /// The requirements that are mentioned of a workload in a direction may tell apart this many patterns of labels, which is
    /// more than 65,536.
    TooManyPatterns {
        workload: Text,
        direction: Direction,
        weight: u64,
    },
}

impl fmt::Display for Fault {
    ghost use Rattle.std.specs.Prelude.{Some};
    ghost use Rattle.np_command.specs.Messages.{fault_text};

    ghost output = { λ fault. Some (fault_text fault) };

    fn fmt<W: fmt::Write>(&self, f: &mut fmt::Formatter<W>) -> fmt::Result {
        match self {
            Fault::Inputs(refusal) => write!(f, "{refusal}"),
            Fault::TooManyWorkloads { count } => write!(f, "TooManyWorkloads {count}"),
            Fault::BadStatement { line } => write!(f, "BadStatement line {line}"),
            Fault::Split {
                source,
                destination,
            } => write!(f, "Split {source}, {destination}"),
            Fault::Alike { a, b } => write!(f, "Alike {a}, {b}"),
            Fault::UnknownEnd { name } => write!(f, "UnknownEnd {name}"),
            Fault::SameEnd { name } => write!(f, "SameEnd {name}"),
            Fault::TooManyPatterns {
                workload,
                direction,
                weight,
            } => {
                let direction = direction_text(*direction);
                write!(f, "TooManyPatterns {workload} {direction}: {weight}")
            }
        }
    }
}
