//! One label.

use np_base::{NoMemory, Text, TryCopy};
use std::alloc::Global;

/// A label: a key and its value.
#[derive(Debug, Drop, PartialEq, Eq)]
pub struct Pair {
    pub key: Text,
    pub value: Text,
}

impl TryCopy for Pair {
    fn try_copy(&self, alloc: Global) -> Result<Pair, NoMemory> {
        Ok(Pair {
            key: self.key.try_copy(alloc)?,
            value: self.value.try_copy(alloc)?,
        })
    }
}
