//! Label selectors.
ghost use Rattle.std.specs.Prelude.{◌≡◌, [], ◌++◌, map, unwrap_or, IfOk};
ghost use Rattle.serde_json.specs.Find.{as_object};
ghost use Rattle.serde_json.specs.View.{view, members_view};
ghost use Rattle.np_policies.specs.Selectors as shapes;

use crate::expression_shape::ExpressionShape;
use np_base::{NoMemory, Seq, Text};
use np_json::{
    FaultKind, LabelMap, Shape, ShapeFault, listed, must_be_object, optional, refuse_if,
};
use np_labels::{Requirement, Selector};
use serde_json::{Map, Value};
use std::alloc::Global;

/// The shape of a label selector (Kubernetes API reference, LabelSelector): `matchLabels`, a map of labels, and
/// `matchExpressions`, a list. Any other member is `BadSelector`, before all else.
#[derive(Drop)]
pub(crate) struct SelectorShape;

impl Shape for SelectorShape {
    type Output = Selector;

    ghost reads = { λ _. shapes.selector };

    #[tactic(auto, unfolding(crate::specs::Selectors::selector))]
    fn read(&self, alloc: Global, value: &Value) -> Result<Selector, ShapeFault> {
        must_be_object(alloc, value)?;
        refuse_if(alloc, has_other(value), FaultKind::BadSelector)?;
        let labels = optional(alloc, value, "matchLabels", &LabelMap)?;
        let expressions = listed(alloc, value, "matchExpressions", &ExpressionShape)?;
        let selector = Selector::of_labels(alloc, labels.unwrap_or(Seq::new(alloc)))?;
        let requirements = joined(selector.requirements, expressions)?;
        Ok(Selector { requirements })
    }
}

/// The selector that everything meets. It takes no memory.
pub(crate) fn everything(alloc: Global) -> Selector
    ensures { result ≡ shapes.everything }
{
    Selector {
        requirements: Seq::new(alloc),
    }
}

/// A selector that may be missing: everything meets it then.
pub(crate) fn or_everything(alloc: Global, selector: Option<Selector>) -> Selector
    ensures { result ≡ unwrap_or selector shapes.everything }
{
    match selector {
        Some(selector) => selector,
        None => everything(alloc),
    }
}

// Whether there is a member that a selector does not have.
fn has_other(value: &Value) -> bool
    ensures { result ≡ shapes.has_other (as_object (view value.now)) }
{
    match value.as_object() {
        Some(members) => have_other(members),
        None => false,
    }
}

fn have_other(members: &Map<String, Value>) -> bool
    ensures { result ≡ shapes.have_other (members_view members.now.entries) }
{
    for (name, value) in members.iter() {
        if is_other(name.as_str(), value) {
            return true;
        }
    }
    false
}

fn is_other(name: &str, value: &Value) -> bool
    ensures { result ≡ shapes.is_other name.now (view value.now) }
{
    name != "matchLabels" && name != "matchExpressions" && !value.is_null()
}

// The requirements, and then more of them.
fn joined(
    mut requirements: Seq<Requirement>,
    more: Seq<Requirement>,
) -> Result<Seq<Requirement>, NoMemory>
    ensures { IfOk result (λ made. made ≡ requirements ++ more) }
{
    for requirement in more.into_vec() {
        requirements.push(requirement)?;
    }
    Ok(requirements)
}
