//! How controllers are read.
ghost use Rattle.std.specs.Prelude.{◌≡◌};
ghost use Rattle.np_objects.specs.Controllers as controllers;

use crate::controller::{ControllerItem, ControllerKind};
use crate::controller_spec::{ControllerSpec, ControllerSpecShape};
use crate::owner_ref::OwnerRef;
use crate::owner_reference::{Dependent, OwnerReferenceShape, owner_of};
use np_json::{NamespacedName, NamespacedNameShape, Shape, ShapeFault, listed, optional, required};
use serde_json::Value;
use std::alloc::Global;

/// What is read of the metadata of a controller.
#[derive(Drop)]
struct ControllerMetadata {
    own: NamespacedName,
    owner: Option<OwnerRef>,
}

/// The metadata of a controller (Kubernetes API reference, ObjectMeta).
///
/// | member | what it is |
/// |---|---|
/// | `name`, `namespace` | as for every object in a namespace |
/// | `ownerReferences` | a list of owner references; the first controller that controls the object is its owner |
#[derive(Drop)]
struct ControllerMetadataShape;

impl Shape for ControllerMetadataShape {
    ghost use Rattle.np_objects.specs.Controllers.{controller_metadata};

    type Output = ControllerMetadata;

    ghost reads = { λ _. controller_metadata };

    #[tactic(auto, unfolding(crate::specs::Controllers::controller_metadata))]
    fn read(&self, alloc: Global, value: &Value) -> Result<ControllerMetadata, ShapeFault> {
        let own = NamespacedNameShape.read(alloc, value)?;
        let references = listed(alloc, value, "ownerReferences", &OwnerReferenceShape)?;
        Ok(ControllerMetadata {
            own,
            owner: owner_of(Dependent::Controller, references),
        })
    }
}

/// A controller of that kind (Kubernetes API reference, Workload Resources).
///
/// | member | what it is |
/// |---|---|
/// | `metadata` | the metadata of a controller, required |
/// | `spec` | the spec of a controller of that kind |
#[derive(Drop)]
pub(crate) struct ControllerShape {
    pub(crate) kind: ControllerKind,
}

impl Shape for ControllerShape {
    ghost use Rattle.np_objects.specs.Controllers.{controller};

    type Output = ControllerItem;

    ghost reads = { λ shape. controller shape.kind };

    #[tactic(auto, unfolding(crate::specs::Controllers::controller))]
    fn read(&self, alloc: Global, value: &Value) -> Result<ControllerItem, ShapeFault> {
        let kind = self.kind;
        let metadata = required(alloc, value, "metadata", &ControllerMetadataShape)?;
        let spec = optional(alloc, value, "spec", &ControllerSpecShape { kind })?;
        Ok(controller_item(kind, metadata, spec.unwrap_or(ControllerSpec::none())))
    }
}

// The controller of what was read of its members.
fn controller_item(
    kind: ControllerKind,
    metadata: ControllerMetadata,
    spec: ControllerSpec,
) -> ControllerItem
    ensures { result ≡ controllers.controller_item kind metadata spec }
{
    ControllerItem {
        kind,
        namespace: metadata.own.namespace,
        name: metadata.own.name,
        owner: metadata.owner,
        none_wanted: spec.none_wanted,
        template: spec.template,
    }
}
