//! Owner references, and the owner that they name.
ghost use Rattle.std.specs.Prelude.{◌≡◌};
ghost use Rattle.np_objects.specs.Owners as owners;

use crate::controller::is_controller_kind;
use crate::owner_ref::OwnerRef;
use np_base::Seq;
use np_json::{Flag, Name, Shape, ShapeFault, must_be_object, optional, required};
use serde_json::Value;
use std::alloc::Global;

/// The objects of which owner references are read.
#[derive(Clone, Copy)]
pub(crate) enum Dependent {
    Pod,
    Controller,
}

/// An owner reference (Kubernetes API reference, OwnerReference).
#[derive(Drop)]
pub(crate) struct OwnerReference {
    owner: OwnerRef,
    /// Whether that owner controls the object.
    controls: bool,
}

/// An item of `ownerReferences` (Kubernetes API reference, OwnerReference).
///
/// | member | what it is |
/// |---|---|
/// | `kind` | a name, required |
/// | `name` | a name, required |
/// | `controller` | true or false, and false where it is missing |
#[derive(Drop)]
pub(crate) struct OwnerReferenceShape;

impl Shape for OwnerReferenceShape {
    ghost use Rattle.np_objects.specs.Owners.{owner_reference};

    type Output = OwnerReference;

    ghost reads = { λ _. owner_reference };

    #[tactic(auto, unfolding(crate::specs::Owners::owner_reference))]
    fn read(&self, alloc: Global, value: &Value) -> Result<OwnerReference, ShapeFault> {
        must_be_object(alloc, value)?;
        let kind = required(alloc, value, "kind", &Name)?;
        let name = required(alloc, value, "name", &Name)?;
        let controller = optional(alloc, value, "controller", &Flag)?;
        Ok(OwnerReference {
            owner: OwnerRef { kind, name },
            controls: controller.unwrap_or(false),
        })
    }
}

/// The owner of an object with these owner references: the first that a reference names. A reference that does not
/// count is passed over, also where it controls the object.
pub(crate) fn owner_of(dependent: Dependent, references: Seq<OwnerReference>) -> Option<OwnerRef>
    ensures { result ≡ owners.owner_of dependent references }
{
    for reference in references.into_vec() {
        if names_owner(dependent, &reference) {
            return Some(reference.owner);
        }
    }
    None
}

// Whether a reference names the owner of the object: it controls the object, and counts.
fn names_owner(dependent: Dependent, reference: &OwnerReference) -> bool
    ensures { result ≡ owners.names_owner dependent reference.now }
{
    reference.controls && counts(dependent, reference.owner.kind.as_str())
}

// Whether owners of that kind count.
fn counts(dependent: Dependent, kind: &str) -> bool
    ensures { result ≡ owners.counts dependent kind.now }
{
    match dependent {
        Dependent::Pod => kind != "Node",
        Dependent::Controller => is_controller_kind(kind),
    }
}
