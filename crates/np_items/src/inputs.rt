//! From the bytes of all inputs to the values that they list.
ghost use Rattle.std.specs.Prelude.{◌≡◌, ◌++◌, map, IfOk};
ghost use Rattle.serde_json.specs.View.{view};
ghost use Rattle.np_items.specs.Inputs as spec;
ghost use Rattle.np_items.specs.Prelude.{GivesAs};

use crate::fault::ItemsFault;
use crate::json::value_of;
use crate::list::items_in;
use np_base::{NoMemory, Seq};
use serde_json::Value;
use std::alloc::Global;

/// The values that all inputs list, in order. The first input that is `NotJson` or `NotAList` refuses them.
pub(crate) fn all_values(alloc: Global, texts: &[Vec<u8>]) -> Result<Seq<Value>, ItemsFault>
    ensures { GivesAs (λ values. map view values) result
        (spec.all_values (map (λ text. text.items) texts.now)) }
{
    let mut values = Seq::new(alloc);
    for (place, text) in texts.iter().enumerate() {
        values = appended(values, input_values(alloc, place as u64 + 1, text)?)?;
    }
    Ok(values)
}

// The values that the input of this number lists.
#[tactic(auto, unfolding(crate::specs::Inputs::input_values))]
fn input_values(alloc: Global, input: u64, text: &[u8]) -> Result<Seq<Value>, ItemsFault>
    ensures { GivesAs (λ values. map view values) result (spec.input_values input text.now) }
{
    items_in(alloc, input, value_of(alloc, input, text)?)
}

// The values so far, and then further ones.
fn appended(mut values: Seq<Value>, more: Seq<Value>) -> Result<Seq<Value>, NoMemory>
    ensures { IfOk result (λ made. made ≡ values ++ more) }
{
    for value in more.into_vec() {
        values.push(value)?;
    }
    Ok(values)
}
