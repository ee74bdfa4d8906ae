//! How an object of any kind is read.
ghost use Rattle.std.specs.Prelude.{IfOk};
ghost use Rattle.serde_json.specs.View.{view};
ghost use Rattle.np_json.specs.Prelude.{Gives, GivesItem};
ghost use Rattle.np_objects.specs.Objects as objects;
ghost use Rattle.np_objects.specs.WellFormed.{IsWellObject};

use crate::controller_shapes::ControllerShape;
use crate::ingress_shapes::IngressShape;
use crate::kind::{ObjectKind, object_kind};
use crate::namespace::NamespaceShape;
use crate::object::Object;
use crate::pod_item::PodShape;
use crate::service_shapes::ServiceShape;
use np_json::{ReadFault, Shape, ShapeFault, TypeMetaShape, read_item};
use serde_json::Value;
use std::alloc::Global;

/// The object of a value that is the item of that number in a list of objects, or the item's first fault.
///
/// The members of each kind are read in the order of its shape, each with all that is in it before the next, and
/// members that its shape does not name are not looked at. A value that is no object is `BadField` at the empty
/// path, and so is an `apiVersion` or a `kind` that is no text, at that member. `Other` comes exactly where both are
/// texts and together name no kind that is read here.
///
/// What is read is well formed: names are names, labels are labels, and names of ports are words, but for the names
/// in the backends of an ingress, which may be any texts.
pub fn read_object(alloc: Global, item: u64, value: &Value) -> Result<Object, ReadFault>
    ensures reads { GivesItem item result (objects.object_of (view value.now)) }
    ensures well { IfOk result IsWellObject }
{
    read_item(alloc, item, value, &ObjectShape)
}

// An object of any kind.
#[derive(Drop)]
struct ObjectShape;

impl Shape for ObjectShape {
    ghost use Rattle.np_objects.specs.Objects.{object_of};

    type Output = Object;

    ghost reads = { λ _. object_of };

    #[tactic(auto, unfolding(crate::specs::Objects::object_of))]
    fn read(&self, alloc: Global, value: &Value) -> Result<Object, ShapeFault> {
        let meta = TypeMetaShape.read(alloc, value)?;
        let kind = object_kind(meta.api_version.as_str(), meta.kind.as_str());
        object_by(alloc, kind, value)
    }
}

// An object by the shape of its kind.
#[tactic(auto, unfolding(crate::specs::Objects::object_by))]
fn object_by(alloc: Global, kind: Option<ObjectKind>, value: &Value) -> Result<Object, ShapeFault>
    ensures { Gives result (objects.object_by kind (view value.now)) }
{
    match kind {
        None => Ok(Object::Other),
        Some(ObjectKind::Pod) => Ok(Object::Pod(PodShape.read(alloc, value)?)),
        Some(ObjectKind::Namespace) => Ok(Object::Namespace(NamespaceShape.read(alloc, value)?)),
        Some(ObjectKind::Controller(kind)) => {
            let shape = ControllerShape { kind };
            Ok(Object::Controller(shape.read(alloc, value)?))
        }
        Some(ObjectKind::Service) => Ok(Object::Service(ServiceShape.read(alloc, value)?)),
        Some(ObjectKind::Ingress) => Ok(Object::Ingress(IngressShape.read(alloc, value)?)),
    }
}
