//! Label selectors (Kubernetes API reference, LabelSelector and LabelSelectorRequirement).
ghost use Rattle.std.specs.Prelude.{◌≡◌, IfOk};
ghost use Rattle.serde_json.specs.View.{view};
ghost use Rattle.np_manifests.specs.Manifests as manifests;

use crate::manifest::{Manifest, each_value};
use crate::members::put_some;
use np_base::NoMemory;
use np_labels::{Op, Requirement, Selector};
use serde_json::{Map, Value, put};
use std::alloc::Global;

impl Manifest for Selector {
    ghost json = { manifests.selector_data };

    fn value(&self, alloc: Global) -> Result<Value, NoMemory> {
        let expressions = each_value(alloc, self.requirements.items())?;
        let mut members = Map::new(alloc);
        put_some(alloc, &mut members, "matchExpressions", expressions)?;
        Ok(Value::Object(members))
    }
}

impl Manifest for Requirement {
    ghost json = { manifests.expression_data };

    fn value(&self, alloc: Global) -> Result<Value, NoMemory> {
        let operator = Value::try_from_str(alloc, operator(self.op))?;
        let values = each_value(alloc, self.values.items())?;
        let mut members = Map::new(alloc);
        put(&mut members, alloc, "key", self.key.value(alloc)?)?;
        put(&mut members, alloc, "operator", operator)?;
        put_some(alloc, &mut members, "values", values)?;
        Ok(Value::Object(members))
    }
}

// The name of what a requirement asks.
fn operator(op: Op) -> &'static str
    ensures { result.now ≡ manifests.operator op }
{
    match op {
        Op::OneOf => "In",
        Op::NoneOf => "NotIn",
        Op::Present => "Exists",
        Op::Absent => "DoesNotExist",
    }
}
