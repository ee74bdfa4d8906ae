//! Faults of the objects that are read.
ghost use Rattle.std.specs.Prelude.{◌≡◌};

use crate::path::Path;
use np_base::NoMemory;
use std::fmt;

/// What is wrong at a place of an object.
#[derive(Clone, Copy, Debug, PartialEq, Eq)]
pub enum FaultKind {
    /// A required member is missing, a member has another type, or a text is none of those listed for it.
    BadField,
    /// A text that is to be a name is none.
    BadName,
    /// A selector has an unknown member, operator or number of values.
    BadSelector,
    /// A port is outside 1 to 65535, or a port entry is misshapen.
    BadPort,
    /// A protocol is none of `TCP`, `UDP` and `SCTP`.
    BadProtocol,
    /// A text is no CIDR.
    BadCidr,
    /// An exception is no strict subset of its CIDR.
    BadExcept,
    /// A text is no IP address.
    BadAddress,
    /// A peer or subject has a combination of members that has no meaning.
    PeerShape,
    /// A list of peers or networks is missing or empty where one is required.
    EmptyPeers,
    /// A peer names nodes.
    NodePeer,
    /// A peer names domains.
    DomainPeer,
    /// A priority is outside 0 to 1000.
    BadPriority,
    /// An action is none of those of its policy kind.
    BadAction,
    /// The baseline policy has another name than `default`.
    BaselineName,
    /// The object is a network policy of a kind or version that is not read.
    ForeignPolicy,
}

impl FaultKind {
    ghost use Rattle.np_json.specs.Faults.{kind_text};

    /// The kind's name as it is written in the source.
    pub fn name(self) -> &'static str
        ensures { result.now ≡ kind_text self }
    {
        match self {
            FaultKind::BadField => "BadField",
            FaultKind::BadName => "BadName",
            FaultKind::BadSelector => "BadSelector",
            FaultKind::BadPort => "BadPort",
            FaultKind::BadProtocol => "BadProtocol",
            FaultKind::BadCidr => "BadCidr",
            FaultKind::BadExcept => "BadExcept",
            FaultKind::BadAddress => "BadAddress",
            FaultKind::PeerShape => "PeerShape",
            FaultKind::EmptyPeers => "EmptyPeers",
            FaultKind::NodePeer => "NodePeer",
            FaultKind::DomainPeer => "DomainPeer",
            FaultKind::BadPriority => "BadPriority",
            FaultKind::BadAction => "BadAction",
            FaultKind::BaselineName => "BaselineName",
            FaultKind::ForeignPolicy => "ForeignPolicy",
        }
    }
}

impl fmt::Display for FaultKind {
    ghost use Rattle.std.specs.Prelude.{Some};
    ghost use Rattle.np_json.specs.Faults.{kind_text};

    ghost output = { λ kind. Some (kind_text kind) };

    fn fmt<W: fmt::Write>(&self, f: &mut fmt::Formatter<W>) -> fmt::Result {
        f.write_str(self.name())
    }
}

/// What is wrong in an item of a list of objects. It is written as `item 3: spec.podSelector: BadSelector`.
#[derive(Debug, Drop)]
pub struct ObjectFault {
    /// The number of the item, from 1 over all inputs.
    pub item: u64,
    /// Where in the item.
    pub path: Path,
    /// What is wrong there.
    pub kind: FaultKind,
}

/// Why an item was not read.
#[derive(Debug, Drop)]
pub enum ReadFault {
    /// The item's first fault.
    Bad(ObjectFault),
    /// The system refused memory.
    NoMemory,
}

impl fmt::Display for ObjectFault {
    ghost use Rattle.std.specs.Prelude.{Some};
    ghost use Rattle.np_json.specs.Faults.{item_fault_text};

    ghost output = { λ fault. Some (item_fault_text fault) };

    fn fmt<W: fmt::Write>(&self, f: &mut fmt::Formatter<W>) -> fmt::Result {
        let item = self.item;
        let path = &self.path;
        let kind = self.kind;
        write!(f, "item {item}: {path}: {kind}")
    }
}

impl fmt::Display for ReadFault {
    ghost use Rattle.std.specs.Prelude.{Some};
    ghost use Rattle.np_json.specs.Faults.{read_fault_text};

    ghost output = { λ fault. Some (read_fault_text fault) };

    fn fmt<W: fmt::Write>(&self, f: &mut fmt::Formatter<W>) -> fmt::Result {
        match self {
            ReadFault::Bad(fault) => write!(f, "{fault}"),
            ReadFault::NoMemory => write!(f, "out of memory"),
        }
    }
}

impl std::error::Error for ReadFault {}

impl From<NoMemory> for ReadFault {
    ghost use Rattle.std.specs.Prelude.{◌≡◌};
    ghost use Rattle.np_json.specs.declared.fault.ReadFault.TheVariants as fault;

    ghost from_gives = { λ _ made. made ≡ fault.NoMemory };

    fn from(_error: NoMemory) -> ReadFault {
        ReadFault::NoMemory
    }
}
