//! What is written as JSON.
ghost use Rattle.std.specs.Prelude.{◌≡◌, IfOk, map};
ghost use Rattle.serde_json.specs.Data.{Data, string};
ghost use Rattle.serde_json.specs.View.{view};
ghost use Rattle.np_addr.specs.Prelude.{cidr_text};

use np_addr::{Cidr, print_cidr};
use np_base::{NoMemory, Text};
use serde_json::Value;
use std::alloc::Global;

/// What is written as a JSON value.
pub(crate) trait Manifest {
    /// The value.
    ghost json: { Self → Data };

    /// It as a JSON value.
    fn value(&self, alloc: Global) -> Result<Value, NoMemory>
        ensures { IfOk result (λ value. view value ≡ json self.now) };
}

impl Manifest for Text {
    ghost json = { λ text. string text };

    fn value(&self, alloc: Global) -> Result<Value, NoMemory> {
        Ok(Value::try_from_str(alloc, self.as_str())?)
    }
}

impl Manifest for Cidr {
    ghost json = { λ block. string (cidr_text block) };

    fn value(&self, alloc: Global) -> Result<Value, NoMemory> {
        let text = print_cidr(alloc, *self)?;
        Ok(Value::try_from_str(alloc, text.as_str())?)
    }
}

/// Each of some things as a JSON value, in their order.
pub(crate) fn each_value<T: Manifest>(alloc: Global, things: &[T]) -> Result<Vec<Value>, NoMemory>
    ensures { IfOk result (λ values. map view values.items ≡ map T.json things.now) }
{
    let mut values = Vec::new(alloc);
    for thing in things {
        values.push(thing.value(alloc)?)?;
    }
    Ok(values)
}
