//! Shapes of single values: texts, words, names, whole numbers, ports, protocols, flags and maps of labels.
ghost use Rattle.std.specs.Prelude.{◌≡◌};
ghost use Rattle.std.specs.List.{list_all};
ghost use Rattle.serde_json.specs.View.{view};
ghost use Rattle.np_model.specs.Prelude.{is_label};
ghost use Rattle.np_json.specs.Scalars.{of_type, port_number};
ghost use Rattle.np_json.specs.Shapes.{Gives};

use crate::fault::FaultKind;
use crate::flaw::{ShapeFault, or_refuse, refuse};
use crate::pairs::pairs;
use crate::shape::{Shape, refuse_if};
use np_base::{PortNum, Seq, Text};
use np_conns::Proto;
use np_model::{is_name, is_word};
use serde_json::Value;
use std::alloc::Global;

/// Any text. Another type is `BadField`.
#[derive(Clone, Copy, Drop)]
pub struct AnyText;

impl Shape for AnyText {
    ghost use Rattle.np_json.specs.Scalars as scalars;

    type Output = Text;

    ghost reads = { λ _. scalars.text };

    fn read(&self, alloc: Global, value: &Value) -> Result<Text, ShapeFault> {
        let text = of_type(alloc, value.as_str())?;
        Ok(Text::of(alloc, text)?)
    }
}

/// A text that is a word. Anything else is `BadField`.
#[derive(Clone, Copy, Drop)]
pub struct Word;

impl Shape for Word {
    ghost use Rattle.np_json.specs.Scalars as scalars;

    type Output = Text;

    ghost reads = { λ _. scalars.word };

    #[tactic(auto, unfolding(crate::specs::Scalars::word))]
    fn read(&self, alloc: Global, value: &Value) -> Result<Text, ShapeFault> {
        let text = of_type(alloc, value.as_str())?;
        refuse_if(alloc, !is_word(text), FaultKind::BadField)?;
        Ok(Text::of(alloc, text)?)
    }
}

/// A text that is a name. A text that is none is `BadName`, another type `BadField`.
#[derive(Clone, Copy, Drop)]
pub struct Name;

impl Shape for Name {
    ghost use Rattle.np_json.specs.Scalars as scalars;

    type Output = Text;

    ghost reads = { λ _. scalars.name };

    #[tactic(auto, unfolding(crate::specs::Scalars::name))]
    fn read(&self, alloc: Global, value: &Value) -> Result<Text, ShapeFault> {
        let text = of_type(alloc, value.as_str())?;
        refuse_if(alloc, !is_name(text), FaultKind::BadName)?;
        Ok(Text::of(alloc, text)?)
    }
}

/// A whole number, as [`crate::whole_field`] says. Anything else is `BadField`.
#[derive(Clone, Copy, Drop)]
pub struct Whole;

impl Shape for Whole {
    ghost use Rattle.np_json.specs.Scalars as scalars;

    type Output = i64;

    ghost reads = { λ _. scalars.whole };

    fn read(&self, alloc: Global, value: &Value) -> Result<i64, ShapeFault> {
        of_type(alloc, value.as_i64())
    }
}

/// True or false. Anything else is `BadField`.
#[derive(Clone, Copy, Drop)]
pub struct Flag;

impl Shape for Flag {
    ghost use Rattle.np_json.specs.Scalars as scalars;

    type Output = bool;

    ghost reads = { λ _. scalars.flag };

    fn read(&self, alloc: Global, value: &Value) -> Result<bool, ShapeFault> {
        of_type(alloc, value.as_bool())
    }
}

/// A whole number from 1 to 65535. Another whole number is `BadPort`, anything else `BadField`.
#[derive(Clone, Copy, Drop)]
pub struct Port;

impl Shape for Port {
    ghost use Rattle.np_json.specs.Scalars as scalars;

    type Output = PortNum;

    ghost reads = { λ _. scalars.port };

    #[tactic(auto, unfolding(crate::specs::Scalars::port))]
    fn read(&self, alloc: Global, value: &Value) -> Result<PortNum, ShapeFault> {
        let number = of_type(alloc, value.as_i64())?;
        port_of(alloc, number)
    }
}

/// The port of a number from 1 to 65535. Any other number is `BadPort`.
pub fn port_of(alloc: Global, number: i64) -> Result<PortNum, ShapeFault>
    ensures { Gives result (port_number number) }
{
    if 1 <= number && number <= 65535 {
        Ok(PortNum::new(number as u16))
    } else {
        refuse(alloc, FaultKind::BadPort)
    }
}

/// The name of a protocol: `TCP`, `UDP` or `SCTP`. Another text is `BadProtocol`, another type `BadField`.
#[derive(Clone, Copy, Drop)]
pub struct ProtocolName;

impl Shape for ProtocolName {
    ghost use Rattle.np_json.specs.Scalars as scalars;

    type Output = Proto;

    ghost reads = { λ _. scalars.protocol_name };

    #[tactic(auto, unfolding(crate::specs::Scalars::protocol_name))]
    fn read(&self, alloc: Global, value: &Value) -> Result<Proto, ShapeFault> {
        let text = of_type(alloc, value.as_str())?;
        or_refuse(alloc, Proto::named(text), FaultKind::BadProtocol)
    }
}

/// An object from texts to texts, each key a word that is not empty and each value a word: its entries, in the
/// order of their keys' bytes. Anything else is `BadField` of the object, wherever in it the fault is.
#[derive(Clone, Copy, Drop)]
pub struct LabelMap;

impl Shape for LabelMap {
    ghost use Rattle.np_json.specs.Scalars as scalars;

    type Output = Seq<(Text, Text)>;

    ghost reads = { λ _. scalars.labels };

    #[tactic(auto, unfolding(crate::specs::Scalars::labels))]
    fn read(&self, alloc: Global, value: &Value) -> Result<Seq<(Text, Text)>, ShapeFault> {
        let pairs = of_type(alloc, pairs(alloc, value)?)?;
        refuse_if(alloc, !are_labels(pairs.items()), FaultKind::BadField)?;
        Ok(pairs)
    }
}

// Whether each pair may be a label.
fn are_labels(pairs: &[(Text, Text)]) -> bool
    ensures { result ≡ list_all is_label pairs.now }
{
    pairs
        .iter()
        .all(|pair| is_label(pair.0.as_str(), pair.1.as_str()))
}

fn is_label(key: &str, value: &str) -> bool
    ensures { result ≡ is_label (key.now, value.now) }
{
    !key.is_empty() && is_word(key) && is_word(value)
}

/// A value that was read as the type that it is to have: it is `BadField` where it has another.
pub fn of_type<T>(alloc: Global, read: Option<T>) -> Result<T, ShapeFault>
    ensures { Gives result (of_type read) }
{
    or_refuse(alloc, read, FaultKind::BadField)
}
