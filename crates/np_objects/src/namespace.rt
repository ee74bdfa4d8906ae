//! Namespaces.

use crate::label_map::{LabelsShape, no_labels};
use np_base::Text;
use np_json::{Name, Shape, ShapeFault, must_be_object, optional, required};
use np_labels::Labels;
use serde_json::Value;
use std::alloc::Global;

/// A namespace as it is listed (Kubernetes API reference, Namespace).
#[derive(Drop)]
pub struct NamespaceItem {
    pub name: Text,
    pub labels: Labels,
}

/// The metadata of a namespace, which is in no namespace itself (Kubernetes API reference, ObjectMeta).
///
/// | member | what it is |
/// |---|---|
/// | `name` | a name, required |
/// | `labels` | an object from texts to texts, each a label |
#[derive(Drop)]
struct NamespaceMetadataShape;

impl Shape for NamespaceMetadataShape {
    ghost use Rattle.np_objects.specs.Namespaces.{namespace_metadata};

    type Output = NamespaceItem;

    ghost reads = { λ _. namespace_metadata };

    #[tactic(auto, unfolding(crate::specs::Namespaces::namespace_metadata))]
    fn read(&self, alloc: Global, value: &Value) -> Result<NamespaceItem, ShapeFault> {
        must_be_object(alloc, value)?;
        let name = required(alloc, value, "name", &Name)?;
        let labels = optional(alloc, value, "labels", &LabelsShape)?;
        let none = no_labels(alloc)?;
        Ok(NamespaceItem {
            name,
            labels: labels.unwrap_or(none),
        })
    }
}

/// A namespace (Kubernetes API reference, Namespace).
///
/// | member | what it is |
/// |---|---|
/// | `metadata` | the metadata of a namespace, required |
#[derive(Drop)]
pub(crate) struct NamespaceShape;

impl Shape for NamespaceShape {
    ghost use Rattle.np_objects.specs.Namespaces.{namespace_object};

    type Output = NamespaceItem;

    ghost reads = { λ _. namespace_object };

    #[tactic(auto, unfolding(crate::specs::Namespaces::namespace_object))]
    fn read(&self, alloc: Global, value: &Value) -> Result<NamespaceItem, ShapeFault> {
        required(alloc, value, "metadata", &NamespaceMetadataShape)
    }
}
