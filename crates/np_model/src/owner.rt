//! Top owners.

use np_base::{NoMemory, Text, TryCopy};
use std::alloc::Global;

/// The last object that the chain of a pod's controlling owners reaches. A pod without an owner is its own, of the kind
/// `Pod`.
#[derive(Drop)]
pub struct Owner {
    pub kind: Text,
    pub name: Text,
}

impl TryCopy for Owner {
    fn try_copy(&self, alloc: Global) -> Result<Owner, NoMemory> {
        Ok(Owner {
            kind: self.kind.try_copy(alloc)?,
            name: self.name.try_copy(alloc)?,
        })
    }
}
