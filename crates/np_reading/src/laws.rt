//! What follows from the definitions of estates.
ghost use Rattle.std.specs.Prelude.{◌≡◌, ◌≤◌, ℕ, List, Some, None, Ok, All, length, slice_get};
ghost use Rattle.np_reading.specs.Prelude.{HoldsEachOnce, estate_of, estate_of_items, named_or_itself};
ghost use Rattle.np_model.specs.Prelude.{IsLawful};
ghost use Rattle.np_model.specs.declared.lists.EstateLists.{EstateLists};
ghost use Rattle.np_items.specs.Prelude.{IsWellItem, items_of};
ghost use Rattle.np_items.specs.declared.item.Item.{Item};
ghost use Rattle.np_items.specs.declared.item.Item.TheVariants as item;
ghost use Rattle.np_objects.specs.declared.object.Object.TheVariants as object;
ghost use Rattle.np_objects.specs.declared.pod_item.PodItem.{PodItem};
ghost use Rattle.np_owners.specs.Prelude.{first_repeat, owner_place, top_owner};

/// Every estate that is read is lawful: that of at most 20,000 items whose names and labels are names and labels, and of
/// which no two have one name.
pub fn read_estates_are_lawful()
    ensures { (items : List Item) → length items ≤ 20000 → All IsWellItem items → first_repeat items ≡ None
        → IsLawful (estate_of_items items) }
{}

/// Each policy, Service and Ingress of a list that is read stands in its estate exactly once, and nothing else stands
/// there: no two of one name or of one priority are taken for one.
pub fn each_policy_and_service_stands_once()
    ensures { (texts : List (List ℕ)) (items : List Item) (lists : EstateLists) → items_of texts ≡ Ok items
        → estate_of texts ≡ Ok lists → HoldsEachOnce items lists }
{}

/// The top owner of a pod that no listed controller owns is the one that its owner reference names, and the pod itself,
/// of the kind `Pod`, where none names one.
pub fn pods_without_listed_owners_name_their_top_owners()
    ensures { (items : List Item) (place : ℕ) (pod : PodItem) → slice_get items place ≡ Some (item.Object (object.Pod pod))
        → owner_place items (item.Object (object.Pod pod)) ≡ None
        → top_owner items place ≡ Some (named_or_itself pod) }
{}
