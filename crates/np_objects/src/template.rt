//! How the templates of pods are read.

use crate::controller::Template;
use crate::label_map::{LabelsShape, no_labels};
use crate::pod_spec::PodSpecShape;
use np_json::{Shape, ShapeFault, must_be_object, optional, required};
use np_labels::Labels;
use serde_json::Value;
use std::alloc::Global;

/// The metadata of a template (Kubernetes API reference, ObjectMeta).
///
/// | member | what it is |
/// |---|---|
/// | `labels` | an object from texts to texts, each a label |
#[derive(Drop)]
struct TemplateMetadataShape;

impl Shape for TemplateMetadataShape {
    ghost use Rattle.np_objects.specs.Templates.{template_metadata};

    type Output = Labels;

    ghost reads = { λ _. template_metadata };

    #[tactic(auto, unfolding(crate::specs::Templates::template_metadata))]
    fn read(&self, alloc: Global, value: &Value) -> Result<Labels, ShapeFault> {
        must_be_object(alloc, value)?;
        let labels = optional(alloc, value, "labels", &LabelsShape)?;
        let none = no_labels(alloc)?;
        Ok(labels.unwrap_or(none))
    }
}

/// The template of a pod (Kubernetes API reference, PodTemplateSpec).
///
/// | member | what it is |
/// |---|---|
/// | `metadata` | the metadata of a template |
/// | `spec` | the spec of a pod, required |
#[derive(Drop)]
pub(crate) struct TemplateShape;

impl Shape for TemplateShape {
    ghost use Rattle.np_objects.specs.Templates.{template};

    type Output = Template;

    ghost reads = { λ _. template };

    #[tactic(auto, unfolding(crate::specs::Templates::template))]
    fn read(&self, alloc: Global, value: &Value) -> Result<Template, ShapeFault> {
        must_be_object(alloc, value)?;
        let labels = optional(alloc, value, "metadata", &TemplateMetadataShape)?;
        let spec = required(alloc, value, "spec", &PodSpecShape)?;
        let none = no_labels(alloc)?;
        Ok(Template {
            labels: labels.unwrap_or(none),
            ports: spec.ports,
            host_network: spec.host_network,
        })
    }
}
