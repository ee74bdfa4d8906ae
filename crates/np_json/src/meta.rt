//! What every object says of itself: its type, and its name and namespace.
ghost use Rattle.std.specs.Prelude.{◌≡◌, IfOk, unwrap_or, codes};
ghost use Rattle.serde_json.specs.View.{view};
ghost use Rattle.np_json.specs.Shapes.{Gives};

use crate::fault::FaultKind;
use crate::flaw::ShapeFault;
use crate::scalars::{AnyText, Name, of_type};
use crate::shape::{Shape, must_be_object, optional, refuse_if, required};
use np_base::{NoMemory, Text};
use np_model::is_name;
use serde_json::Value;
use std::alloc::Global;

/// The type of an object (TypeMeta of the Kubernetes API reference).
#[derive(Drop)]
pub struct TypeMeta {
    pub api_version: Text,
    pub kind: Text,
}

/// The shape of an object's own type: an object with the texts `apiVersion` and `kind`, else `BadField`.
#[derive(Clone, Copy, Drop)]
pub struct TypeMetaShape;

impl Shape for TypeMetaShape {
    ghost use Rattle.np_json.specs.Meta.{type_meta};

    type Output = TypeMeta;

    ghost reads = { λ _. type_meta };

    #[tactic(auto, unfolding(crate::specs::Meta::type_meta))]
    fn read(&self, alloc: Global, value: &Value) -> Result<TypeMeta, ShapeFault> {
        must_be_object(alloc, value)?;
        let api_version = required(alloc, value, "apiVersion", &AnyText)?;
        let kind = required(alloc, value, "kind", &AnyText)?;
        Ok(TypeMeta { api_version, kind })
    }
}

/// The name of an object and the namespace that it is in (ObjectMeta of the Kubernetes API reference).
#[derive(Drop)]
pub struct NamespacedName {
    pub namespace: Text,
    pub name: Text,
}

/// The shape of the metadata of an object in a namespace: `name`, which is required and a name, and `namespace`,
/// which is a name and `default` where it is missing or empty.
#[derive(Clone, Copy, Drop)]
pub struct NamespacedNameShape;

impl Shape for NamespacedNameShape {
    ghost use Rattle.np_json.specs.Meta.{namespaced_name};

    type Output = NamespacedName;

    ghost reads = { λ _. namespaced_name };

    #[tactic(auto, unfolding(crate::specs::Meta::namespaced_name))]
    fn read(&self, alloc: Global, value: &Value) -> Result<NamespacedName, ShapeFault> {
        must_be_object(alloc, value)?;
        let name = required(alloc, value, "name", &Name)?;
        let namespace = optional(alloc, value, "namespace", &Namespace)?;
        let namespace = or_default(alloc, namespace)?;
        Ok(NamespacedName { namespace, name })
    }
}

// A namespace: a text that is a name, or empty for `default`.
#[derive(Clone, Copy, Drop)]
struct Namespace;

impl Shape for Namespace {
    ghost use Rattle.np_json.specs.Meta as meta;

    type Output = Text;

    ghost reads = { λ _. meta.namespace };

    #[tactic(auto, unfolding(crate::specs::Meta::namespace))]
    fn read(&self, alloc: Global, value: &Value) -> Result<Text, ShapeFault> {
        let text = of_type(alloc, value.as_str())?;
        let text = if text.is_empty() { "default" } else { text };
        refuse_if(alloc, !is_name(text), FaultKind::BadName)?;
        Ok(Text::of(alloc, text)?)
    }
}

// The namespace, or `default` where there is none.
fn or_default(alloc: Global, namespace: Option<Text>) -> Result<Text, NoMemory>
    ensures { IfOk result (λ made. made ≡ unwrap_or namespace (codes "default")) }
{
    match namespace {
        Some(namespace) => Ok(namespace),
        None => Text::of(alloc, "default"),
    }
}
