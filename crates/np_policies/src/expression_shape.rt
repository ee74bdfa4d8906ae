//! The expressions of label selectors.
ghost use Rattle.std.specs.Prelude.{◌≡◌};
ghost use Rattle.np_json.specs.Prelude.{Gives};
ghost use Rattle.np_labels.specs.WellFormed as labels;
ghost use Rattle.np_model.specs.Prelude.{is_whole_word};
ghost use Rattle.np_policies.specs.Selectors as shapes;

use np_base::Text;
use np_json::{
    AnyText, FaultKind, Shape, ShapeFault, Word, listed, must_be_object, of_type, refuse,
    refuse_if, required,
};
use np_labels::{Op, Requirement};
use np_model::is_word;
use serde_json::Value;
use std::alloc::Global;

/// The shape of an entry of `matchExpressions` (Kubernetes API reference, LabelSelectorRequirement): `key`, a word
/// that is not empty and `operator`, both required, and `values`, a list of words. It is `BadSelector` where the
/// operator is unknown, or where it has no values and needs some, or has some and needs none.
#[derive(Drop)]
pub(crate) struct ExpressionShape;

impl Shape for ExpressionShape {
    type Output = Requirement;

    ghost reads = { λ _. shapes.expression };

    #[tactic(auto, unfolding(crate::specs::Selectors::expression))]
    fn read(&self, alloc: Global, value: &Value) -> Result<Requirement, ShapeFault> {
        must_be_object(alloc, value)?;
        let key = required(alloc, value, "key", &Key)?;
        let operator = required(alloc, value, "operator", &AnyText)?;
        let values = listed(alloc, value, "values", &Word)?;
        let has_values = !values.items().is_empty();
        let op = fitting(alloc, op_named(operator.as_str()), has_values)?;
        let requirement = Requirement::of(alloc, key, op, values)?;
        Ok(requirement)
    }
}

// A text that may be the key of a label. Anything else is `BadField`.
#[derive(Drop)]
struct Key;

impl Shape for Key {
    type Output = Text;

    ghost reads = { λ _. shapes.key };

    #[tactic(auto, unfolding(crate::specs::Selectors::key))]
    fn read(&self, alloc: Global, value: &Value) -> Result<Text, ShapeFault> {
        let text = of_type(alloc, value.as_str())?;
        refuse_if(alloc, !is_key(text), FaultKind::BadField)?;
        Ok(Text::of(alloc, text)?)
    }
}

fn is_key(text: &str) -> bool
    ensures { result ≡ is_whole_word text.now }
{
    !text.is_empty() && is_word(text)
}

// What an operator asks.
fn op_named(operator: &str) -> Option<Op>
    ensures { result ≡ shapes.op_named operator.now }
{
    match operator {
        "In" => Some(Op::OneOf),
        "NotIn" => Some(Op::NoneOf),
        "Exists" => Some(Op::Present),
        "DoesNotExist" => Some(Op::Absent),
        _ => None,
    }
}

// An operator that is known and may stand with values, or without: it is `BadSelector` else.
fn fitting(alloc: Global, op: Option<Op>, has_values: bool) -> Result<Op, ShapeFault>
    ensures { Gives result (shapes.fitting op has_values) }
{
    match op {
        Some(op) if fits(op, has_values) => Ok(op),
        _ => refuse(alloc, FaultKind::BadSelector),
    }
}

fn fits(op: Op, has_values: bool) -> bool
    ensures { result ≡ labels.fits op has_values }
{
    match op {
        Op::OneOf | Op::NoneOf => has_values,
        Op::Present | Op::Absent => !has_values,
    }
}
