//! What names and owners of a list's items are refused for.

use np_base::{NoMemory, Text};

/// Why items have no places.
#[derive(Drop)]
pub enum PlacesFault {
    /// The items of these numbers, from 1, have the same kind, namespace and name. `second` is the least number of an
    /// item that repeats an earlier one, and `first` is the number of that one.
    Duplicate { first: u64, second: u64 },
    /// The system refused memory.
    NoMemory,
}

impl From<NoMemory> for PlacesFault {
    ghost use Rattle.std.specs.Prelude.{◌≡◌};
    ghost use Rattle.np_owners.specs.declared.fault.PlacesFault.TheVariants as places;

    ghost from_gives = { λ _ made. made ≡ places.NoMemory };

    fn from(_error: NoMemory) -> PlacesFault {
        PlacesFault::NoMemory
    }
}

/// Why items have no chains of owners.
#[derive(Drop)]
pub enum ChainsFault {
    /// A controller stands in its own chain of owners. The name is its whole one, as `namespace/name[Kind]`.
    OwnerCycle { name: Text },
    /// The system refused memory.
    NoMemory,
}

impl From<NoMemory> for ChainsFault {
    ghost use Rattle.std.specs.Prelude.{◌≡◌};
    ghost use Rattle.np_owners.specs.declared.fault.ChainsFault.TheVariants as chains;

    ghost from_gives = { λ _ made. made ≡ chains.NoMemory };

    fn from(_error: NoMemory) -> ChainsFault {
        ChainsFault::NoMemory
    }
}
