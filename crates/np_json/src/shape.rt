//! Shapes: what a JSON value may look like, and how its members are read, one after another, into an output.
//!
//! A shape is a type that implements [`Shape`]. Its `read` has a line for each member, in the order in which they
//! are looked at, and its definition `reads` has the same lines. The first line that does not give a value gives
//! the flaw.
ghost use Rattle.std.specs.Prelude.{◌≡◌, map};
ghost use Rattle.serde_json.specs.Data.{Data};
ghost use Rattle.serde_json.specs.View.{view, items_view};
ghost use Rattle.np_json.specs.Shapes as shapes;
ghost use Rattle.np_json.specs.Shapes.{Read, Gives, GivesItem};

use crate::fault::{FaultKind, ReadFault};
use crate::field::{Field, list_field, member};
use crate::flaw::{ShapeFault, at, at_item, refuse};
use np_base::Seq;
use serde_json::Value;
use std::alloc::Global;

/// A shape that a JSON value may have, and what is read of one that has it.
pub trait Shape {
    /// What a value is read as.
    type Output: Drop;

    /// The output of a value, or its first flaw.
    ghost reads: { Self → Data → Read Self.Output };

    /// The output of a value. A fault is the first flaw, exactly where the definition has one, or want of memory.
    fn read(&self, alloc: Global, value: &Value) -> Result<Self::Output, ShapeFault>
        ensures { Gives result (reads self.now (view value.now)) };
}

/// What a shape reads of an item of a list of objects. A fault has the number of the item.
pub fn read_item<T: Shape>(
    alloc: Global,
    item: u64,
    value: &Value,
    shape: &T,
) -> Result<T::Output, ReadFault>
    ensures { GivesItem item result (T.reads shape.now (view value.now)) }
{
    match shape.read(alloc, value) {
        Ok(output) => Ok(output),
        Err(fault) => Err(fault.of_item(item)),
    }
}

/// A rule on a value: the flaw of the whole value where it is broken.
#[tactic(auto, unfolding(crate::specs::Shapes::refuse_if))]
pub fn refuse_if(alloc: Global, broken: bool, kind: FaultKind) -> Result<(), ShapeFault>
    ensures { Gives result (shapes.refuse_if broken kind) }
{
    if broken { refuse(alloc, kind) } else { Ok(()) }
}

/// A rule on a member: the flaw of the member where it is broken.
#[tactic(auto, unfolding(crate::specs::Shapes::refuse_member_if))]
pub fn refuse_member_if(
    alloc: Global,
    name: &str,
    broken: bool,
    kind: FaultKind,
) -> Result<(), ShapeFault>
    ensures { Gives result (shapes.refuse_member_if name.now broken kind) }
{
    at(name, refuse_if(alloc, broken, kind))
}

/// The rule that a value is an object: it is `BadField` else.
#[tactic(auto, unfolding(crate::specs::Shapes::must_be_object))]
pub fn must_be_object(alloc: Global, value: &Value) -> Result<(), ShapeFault>
    ensures { Gives result (shapes.must_be_object (view value.now)) }
{
    refuse_if(alloc, !value.is_object(), FaultKind::BadField)
}

/// Whether there is a member of that name. One that is null counts as missing.
pub fn has_member(object: &Value, name: &str) -> bool
    ensures { result ≡ shapes.has_member name.now (view object.now) }
{
    member(object, name).is_some()
}

/// Whether exactly one of the members of those names is there. One that is null counts as missing.
pub fn has_one_of(object: &Value, names: &[&str]) -> bool
    ensures { result ≡ shapes.has_one_of (map (λ name. name.now) names.now) (view object.now) }
{
    names.iter().filter(|name| has_member(object, name)).count() == 1
}

/// A member that must be there: it is `BadField` where it is missing.
#[tactic(auto, unfolding(crate::specs::Shapes::required))]
pub fn required<T: Shape>(
    alloc: Global,
    object: &Value,
    name: &str,
    shape: &T,
) -> Result<T::Output, ShapeFault>
    ensures { Gives result (shapes.required name.now (T.reads shape.now) (view object.now)) }
{
    match member(object, name) {
        Some(value) => at(name, shape.read(alloc, value)),
        None => at(name, refuse(alloc, FaultKind::BadField)),
    }
}

/// A member that may be missing.
#[tactic(auto, unfolding(crate::specs::Shapes::optional, crate::specs::Shapes::under))]
pub fn optional<T: Shape>(
    alloc: Global,
    object: &Value,
    name: &str,
    shape: &T,
) -> Result<Option<T::Output>, ShapeFault>
    ensures { Gives result (shapes.optional name.now (T.reads shape.now) (view object.now)) }
{
    match member(object, name) {
        Some(value) => Ok(Some(at(name, shape.read(alloc, value))?)),
        None => Ok(None),
    }
}

/// A member that is a list, and empty where it is missing: each item by the shape, with its place in its path.
/// It is `BadField` where it is no list.
#[tactic(auto, unfolding(crate::specs::Shapes::listed, crate::specs::Shapes::under))]
pub fn listed<T: Shape>(
    alloc: Global,
    object: &Value,
    name: &str,
    shape: &T,
) -> Result<Seq<T::Output>, ShapeFault>
    ensures { Gives result (shapes.listed name.now (T.reads shape.now) (view object.now)) }
{
    match list_field(object, name) {
        Field::Given(items) => at(name, each_item(alloc, items, shape)),
        Field::Missing => Ok(Seq::new(alloc)),
        Field::Wrong => at(name, refuse(alloc, FaultKind::BadField)),
    }
}

// Each item by the shape, under its place.
fn each_item<T: Shape>(
    alloc: Global,
    items: &[Value],
    shape: &T,
) -> Result<Seq<T::Output>, ShapeFault>
    ensures { Gives result (shapes.each_item (T.reads shape.now) 0 (items_view items.now)) }
{
    let mut outputs = Seq::new(alloc);
    for (place, item) in items.iter().enumerate() {
        outputs.push(at_item(place as u64, shape.read(alloc, item))?)?;
    }
    Ok(outputs)
}
