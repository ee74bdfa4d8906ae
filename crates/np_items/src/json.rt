//! From the bytes of an input to its JSON value.
ghost use Rattle.serde_json.specs.View.{view};
ghost use Rattle.np_items.specs.Inputs as spec;
ghost use Rattle.np_items.specs.Prelude.{GivesAs};

use crate::fault::ItemsFault;
use serde_json::Value;
use std::alloc::Global;

/// The JSON value of the input of this number, from 1. It is `NotJson` where the bytes are no JSON text in UTF-8, or
/// nest deeper than 127.
pub(crate) fn value_of(alloc: Global, input: u64, text: &[u8]) -> Result<Value, ItemsFault>
    ensures { GivesAs view result (spec.or_not_json input (spec.json_of text.now)) }
{
    match Value::from_slice(alloc, text) {
        Ok(value) => Ok(value),
        Err(error) if error.is_memory() => Err(ItemsFault::NoMemory),
        Err(_) => Err(ItemsFault::NotJson { input }),
    }
}
