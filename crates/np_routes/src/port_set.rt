//! Ports by their numbers and by their names.
ghost use Rattle.std.specs.Prelude.{◌≡◌, ◌||◌, true, false, ℕ, IfOk, OnOk};
ghost use Rattle.np_model.specs.declared.service.PortName.{PortName};
ghost use Rattle.np_model.specs.declared.service.PortName.TheVariants.{Number, Named};
ghost use Rattle.np_routes.specs.Services.{is_named_by};
ghost use Rattle.np_routes.specs.steps.PortSets.{has_own, has_port, is_same_port};
ghost use Rattle.np_routes.specs.steps.Targets.{has_target};

use np_base::{NoMemory, PortNum};
use np_model::{PortName, ServicePort};
use std::alloc::Global;
use std::collections::BTreeSet;

/// A set of numbers and names of ports.
#[derive(Drop)]
pub(crate) struct PortSet<'a> {
    numbers: BTreeSet<PortNum>,
    names: BTreeSet<&'a str>,
}

impl<'a> PortSet<'a> {
    /// The empty set.
    pub(crate) fn new(alloc: Global) -> PortSet<'a>
        ensures { (port : PortName) → has_port result port ≡ false }
    {
        PortSet {
            numbers: BTreeSet::new(alloc),
            names: BTreeSet::new(alloc),
        }
    }

    /// Whether it has nothing.
    pub(crate) fn is_empty(&self) -> bool
        ensures { result ≡ true → (port : PortName) → has_port self.now port ≡ false }
    {
        self.numbers.is_empty() && self.names.is_empty()
    }

    /// Adds a number or a name.
    pub(crate) fn add(&mut self, port: &'a PortName) -> Result<(), NoMemory>
        ensures { OnOk result ((other : PortName) → has_port self.new other
            ≡ (has_port self.old other || is_same_port port.now other)) }
    {
        match port {
            PortName::Number(number) => self.add_number(*number),
            PortName::Named(name) => self.add_name(name.as_str()),
        }
    }

    /// Adds a number.
    pub(crate) fn add_number(&mut self, number: PortNum) -> Result<(), NoMemory>
        ensures { OnOk result ((other : PortName) → has_port self.new other
            ≡ (has_port self.old other || is_same_port (Number number) other)) }
    {
        self.numbers.insert(number)?;
        Ok(())
    }

    // Adds a name.
    fn add_name(&mut self, name: &'a str) -> Result<(), NoMemory>
        ensures { OnOk result ((other : PortName) → has_port self.new other
            ≡ (has_port self.old other || is_same_port (Named name.now) other)) }
    {
        self.names.insert(name)?;
        Ok(())
    }

    /// Adds the number of a port of a service, and its name where it has one.
    pub(crate) fn add_own(&mut self, port: &'a ServicePort) -> Result<(), NoMemory>
        ensures { OnOk result ((other : PortName) → has_port self.new other
            ≡ (has_port self.old other || is_named_by other port.now)) }
    {
        self.add_number(port.port)?;
        match &port.name {
            Some(name) => self.add_name(name.as_str()),
            None => Ok(()),
        }
    }

    /// Adds what another set has.
    pub(crate) fn add_all(&mut self, other: &PortSet<'a>) -> Result<(), NoMemory>
        ensures { OnOk result ((port : PortName) → has_port self.new port
            ≡ (has_port self.old port || has_port other.now port)) }
    {
        self.numbers.extend(&other.numbers)?;
        self.names.extend(&other.names)?;
        Ok(())
    }

    /// Whether it has a number or a name.
    pub(crate) fn has(&self, port: &PortName) -> bool
        ensures { result ≡ has_port self.now port.now }
    {
        match port {
            PortName::Number(number) => self.numbers.contains(number),
            PortName::Named(name) => self.has_name(name.as_str()),
        }
    }

    /// Whether it has a name.
    pub(crate) fn has_name(&self, name: &str) -> bool
        ensures { result ≡ has_port self.now (Named name.now) }
    {
        self.names.contains(name)
    }

    /// Whether it has the number or the name of a port of a service.
    pub(crate) fn has_own(&self, port: &ServicePort) -> bool
        ensures { result ≡ has_own self.now port.now }
    {
        if self.numbers.contains(&port.port) {
            return true;
        }
        match &port.name {
            Some(name) => self.has_name(name.as_str()),
            None => false,
        }
    }

    /// Its numbers, each once.
    pub(crate) fn numbers(&self, alloc: Global) -> Result<Vec<PortNum>, NoMemory>
        ensures { IfOk result (λ made. (number : ℕ) →
            has_target made.items number ≡ has_port self.now (Number number)) }
    {
        let mut made = Vec::new(alloc);
        for number in &self.numbers {
            made.push(*number)?;
        }
        Ok(made)
    }
}
