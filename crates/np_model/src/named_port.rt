//! Container ports that have a name.

use np_base::{NoMemory, PortNum, Text, TryCopy};
use np_conns::Proto;
use std::alloc::Global;

/// A container port that has a name (Kubernetes API reference, ContainerPort).
#[derive(Drop)]
pub struct NamedPort {
    pub name: Text,
    pub proto: Proto,
    pub number: PortNum,
}

impl TryCopy for NamedPort {
    fn try_copy(&self, alloc: Global) -> Result<NamedPort, NoMemory> {
        Ok(NamedPort {
            name: self.name.try_copy(alloc)?,
            proto: self.proto,
            number: self.number,
        })
    }
}
