//! Why lists are not read to an estate.

use np_base::{NoMemory, Text};
use np_items::ItemsFault;
use np_json::ObjectFault;
use np_owners::{ChainsFault, PlacesFault};
use std::fmt;

/// Why lists are not read. It is written as the line that tells of it, as `input 1: NotJson`.
#[derive(Debug, Drop)]
pub enum Refusal {
    /// The bytes of the input of this number, from 1, are no JSON text in UTF-8, or nest deeper than 127.
    NotJson { input: u64 },
    /// The value of the input of this number, from 1, is neither a `v1` List nor a single object: it is no object
    /// with the texts `apiVersion` and `kind`, it is a list of another version or kind, or its `items` is no list.
    NotAList { input: u64 },
    /// All inputs together list this many items, which is more than 20,000.
    TooManyItems { count: u64 },
    /// The item of this number, from 1 over all inputs, is itself a list: its kind ends in `List`.
    NestedList { item: u64 },
    /// An item has this fault first.
    Bad(ObjectFault),
    /// The items of these numbers, from 1 over all inputs, have the same kind, namespace and name. `second` is the
    /// least number of an item that repeats an earlier one, and `first` is the number of that one.
    Duplicate { first: u64, second: u64 },
    /// Two AdminNetworkPolicies of these names, in byte order, have this same priority, from 0 to 1000. No order of
    /// such policies is defined (AdminNetworkPolicySpec of the Network Policy API reference).
    EqualPriority { priority: u16, a: Text, b: Text },
    /// A controller stands in its own chain of owners. The name is its whole one, as `namespace/name[Kind]`.
    OwnerCycle { name: Text },
    /// The system refused memory.
    NoMemory,
}

impl fmt::Display for Refusal {
    ghost use Rattle.std.specs.Prelude.{Some};
    ghost use Rattle.np_reading.specs.Refusals.{refusal_text};

    ghost output = { λ refusal. Some (refusal_text refusal) };

    fn fmt<W: fmt::Write>(&self, f: &mut fmt::Formatter<W>) -> fmt::Result {
        match self {
            Refusal::NotJson { input } => write!(f, "input {input}: NotJson"),
            Refusal::NotAList { input } => write!(f, "input {input}: NotAList"),
            Refusal::TooManyItems { count } => write!(f, "TooManyItems {count}"),
            Refusal::NestedList { item } => write!(f, "item {item}: NestedList"),
            Refusal::Bad(fault) => write!(f, "{fault}"),
            Refusal::Duplicate { first, second } => {
                write!(f, "items {first} and {second}: Duplicate")
            }
            Refusal::EqualPriority { priority, a, b } => {
                write!(f, "EqualPriority {priority}: {a}, {b}")
            }
            Refusal::OwnerCycle { name } => write!(f, "OwnerCycle {name}"),
            Refusal::NoMemory => write!(f, "out of memory"),
        }
    }
}

impl std::error::Error for Refusal {}

impl From<NoMemory> for Refusal {
    ghost use Rattle.std.specs.Prelude.{◌≡◌};
    ghost use Rattle.np_reading.specs.declared.refusal.Refusal.TheVariants as refusal;

    ghost from_gives = { λ _ made. made ≡ refusal.NoMemory };

    fn from(_error: NoMemory) -> Refusal {
        Refusal::NoMemory
    }
}

impl From<ItemsFault> for Refusal {
    ghost use Rattle.std.specs.Prelude.{◌≡◌};
    ghost use Rattle.np_reading.specs.Refusals.{items_refusal};

    ghost from_gives = { λ fault made. made ≡ items_refusal fault };

    fn from(fault: ItemsFault) -> Refusal {
        match fault {
            ItemsFault::NotJson { input } => Refusal::NotJson { input },
            ItemsFault::NotAList { input } => Refusal::NotAList { input },
            ItemsFault::TooManyItems { count } => Refusal::TooManyItems { count },
            ItemsFault::NestedList { item } => Refusal::NestedList { item },
            ItemsFault::Bad(fault) => Refusal::Bad(fault),
            ItemsFault::NoMemory => Refusal::NoMemory,
        }
    }
}

impl From<PlacesFault> for Refusal {
    ghost use Rattle.std.specs.Prelude.{◌≡◌};
    ghost use Rattle.np_reading.specs.Refusals.{places_refusal};

    ghost from_gives = { λ fault made. made ≡ places_refusal fault };

    fn from(fault: PlacesFault) -> Refusal {
        match fault {
            PlacesFault::Duplicate { first, second } => Refusal::Duplicate { first, second },
            PlacesFault::NoMemory => Refusal::NoMemory,
        }
    }
}

impl From<ChainsFault> for Refusal {
    ghost use Rattle.std.specs.Prelude.{◌≡◌};
    ghost use Rattle.np_reading.specs.Refusals.{chains_refusal};

    ghost from_gives = { λ fault made. made ≡ chains_refusal fault };

    fn from(fault: ChainsFault) -> Refusal {
        match fault {
            ChainsFault::OwnerCycle { name } => Refusal::OwnerCycle { name },
            ChainsFault::NoMemory => Refusal::NoMemory,
        }
    }
}
