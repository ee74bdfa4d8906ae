//! The owners that items name.
ghost use Rattle.std.specs.Prelude.{◌≡◌};
ghost use Rattle.std.specs.Option.{option_copied};
ghost use Rattle.np_owners.specs.Owners as owners;

use np_items::Item;
use np_objects::{Object, OwnerRef};

/// The owner of an item that its owner references name. Pods and controllers alone have one.
pub(crate) fn owner_of(item: &Item) -> Option<&OwnerRef>
    ensures { option_copied result ≡ owners.owner_of_item item.now }
{
    match item {
        Item::Object(Object::Pod(pod)) => pod.owner.as_ref(),
        Item::Object(Object::Controller(controller)) => controller.owner.as_ref(),
        _ => None,
    }
}
