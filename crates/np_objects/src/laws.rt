//! Laws of what is read, in the words of the Kubernetes API reference.
ghost use Rattle.std.specs.Prelude.{◌≡◌, ◌↔◌, List, ◌∷◌, ◌++◌, All, Some, None, Ok};
ghost use Rattle.serde_json.specs.Data.{Data};
ghost use Rattle.np_objects.specs.Prelude.{IsOwnerIn, NamesOwner, controller, owner_of, pod};
ghost use Rattle.np_objects.specs.declared.controller.ControllerItem.{ControllerItem};
ghost use Rattle.np_objects.specs.declared.controller.ControllerKind.{ControllerKind};
ghost use Rattle.np_objects.specs.declared.owner_reference.Dependent.{Dependent};
ghost use Rattle.np_objects.specs.declared.owner_reference.Dependent.TheVariants as dependent;
ghost use Rattle.np_objects.specs.declared.owner_reference.OwnerReference.{OwnerReference};
ghost use Rattle.np_objects.specs.declared.pod_item.PodItem.{PodItem};

/// An object has the owner of the first reference that controls it and counts, whatever stands before that does not, and
/// whatever stands behind it. So where a single reference does, its owner is the object's, wherever it stands. An
/// object has no owner exactly where no reference controls it and counts.
pub fn first_counting_reference_names_owner()
    ensures first { (dependent : Dependent) (before after : List OwnerReference) (reference : OwnerReference) →
        All (λ other. ¬ NamesOwner dependent other) before → NamesOwner dependent reference →
        owner_of dependent (before ++ reference ∷ after) ≡ Some reference.owner }
    ensures none { (dependent : Dependent) (references : List OwnerReference) →
        (owner_of dependent references ≡ None) ↔ All (λ other. ¬ NamesOwner dependent other) references }
{}

/// The owner of a pod, and of a controller, is the one that all the owner references in its metadata name.
pub fn owner_is_read_of_references()
    ensures pods { (value : Data) (item : PodItem) → pod value ≡ Ok item →
        IsOwnerIn dependent.Pod value item.owner }
    ensures controllers { (kind : ControllerKind) (value : Data) (item : ControllerItem) →
        controller kind value ≡ Ok item → IsOwnerIn dependent.Controller value item.owner }
{}
