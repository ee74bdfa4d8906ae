//! Why the items of inputs are not read.

use np_base::NoMemory;
use np_json::{ObjectFault, ReadFault};

/// Why the items of inputs are not read.
#[derive(Debug, Drop)]
pub enum ItemsFault {
    /// The bytes of the input of this number, from 1, are no JSON text in UTF-8, or nest deeper than 127.
    NotJson { input: u64 },
    /// The value of the input of this number, from 1, is neither a `v1` List nor a single object: it is no object
    /// with the texts `apiVersion` and `kind`, it is a list of another version or kind, or its `items` is no list.
    NotAList { input: u64 },
    /// All inputs together list this many items, which is more than 20,000.
    TooManyItems { count: u64 },
    /// The item of this number, from 1 over all inputs, is itself a list: its kind ends in `List`.
    NestedList { item: u64 },
    /// An item has this fault first.
    Bad(ObjectFault),
    /// The system refused memory. No definition of what inputs are read as gives this.
    NoMemory,
}

impl From<NoMemory> for ItemsFault {
    ghost use Rattle.std.specs.Prelude.{◌≡◌};
    ghost use Rattle.np_items.specs.declared.fault.ItemsFault.TheVariants as items;

    ghost from_gives = { λ _ made. made ≡ items.NoMemory };

    fn from(_error: NoMemory) -> ItemsFault {
        ItemsFault::NoMemory
    }
}

impl From<ReadFault> for ItemsFault {
    ghost use Rattle.std.specs.Prelude.{◌≡◌};
    ghost use Rattle.np_items.specs.Faults.{fault_of};

    ghost from_gives = { λ fault made. made ≡ fault_of fault };

    fn from(fault: ReadFault) -> ItemsFault {
        match fault {
            ReadFault::Bad(fault) => ItemsFault::Bad(fault),
            ReadFault::NoMemory => ItemsFault::NoMemory,
        }
    }
}
