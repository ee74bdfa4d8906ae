//! What follows from the definitions of what is read.
ghost use Rattle.std.specs.Prelude.{◌≡◌, ◌↔◌, ◌<◌, ℕ, List, Ok, Some, length, slice_get, true};
ghost use Rattle.serde_json.specs.Data.{Data};
ghost use Rattle.np_reading.specs.Prelude.{estate_of};
ghost use Rattle.np_model.specs.declared.lists.EstateLists.{EstateLists};
ghost use Rattle.np_items.specs.Prelude.{items_of};
ghost use Rattle.np_items.specs.declared.item.Item.{Item};
ghost use Rattle.np_meaning.specs.Prelude.{AreNumbered, HasTemplatePod, HoldsEachPod, IsControllerOf, IsIngressOf, IsNamespaceOf, IsOfItsKind, IsPodOf, IsServiceOf};
ghost use Rattle.np_names.specs.Names.{wish_at};
ghost use Rattle.np_objects.specs.Prelude.{controller, ingress, namespace_object, object_of, pod, service};
ghost use Rattle.np_objects.specs.declared.controller.ControllerItem.{ControllerItem};
ghost use Rattle.np_objects.specs.declared.controller.ControllerKind.{ControllerKind};
ghost use Rattle.np_model.specs.declared.ingress.IngressItem.{IngressItem};
ghost use Rattle.np_objects.specs.declared.namespace.NamespaceItem.{NamespaceItem};
ghost use Rattle.np_objects.specs.declared.object.Object.{Object};
ghost use Rattle.np_objects.specs.declared.pod_item.PodItem.{PodItem};
ghost use Rattle.np_model.specs.declared.service.ServiceItem.{ServiceItem};
ghost use Rattle.np_owners.specs.Prelude.{makes_pod};

/// An object that was read as one of a kind names that kind, in the version that is read of it, and was read by the
/// definition of that kind.
pub fn objects_are_of_their_kinds()
    ensures { (value : Data) (read : Object) → object_of value ≡ Ok read → IsOfItsKind value read }
{}

/// A pod that was read has the namespace, the name and the labels of its metadata, the ports of its containers that have a
/// name, in order, and the addresses that `podIP` and `podIPs` of its status say. It is on the network of its node exactly
/// where `hostNetwork` is true, and finished exactly where its phase is `Succeeded` or `Failed`.
pub fn pods_mean_their_members()
    ensures { (value : Data) (read : PodItem) → pod value ≡ Ok read → IsPodOf value read }
{}

/// A namespace that was read has the name and the labels of its metadata.
pub fn namespaces_mean_their_members()
    ensures { (value : Data) (read : NamespaceItem) → namespace_object value ≡ Ok read → IsNamespaceOf value read }
{}

/// A service that was read has a selector that is met exactly by the labels that have all of `selector`, and none where that
/// is missing or empty. It has its `ports` in order, each with the port of the pods that `targetPort` names, which is the same
/// port where it names none.
pub fn services_mean_their_members()
    ensures { (value : Data) (read : ServiceItem) → service value ≡ Ok read → IsServiceOf value read }
{}

/// An ingress that was read has its default backend, where there is one, and those of the paths of its rules, in order.
pub fn ingresses_mean_their_members()
    ensures { (value : Data) (read : IngressItem) → ingress value ≡ Ok read → IsIngressOf value read }
{}

/// A controller that was read has the namespace and the name of its metadata, and the labels, the named ports and the
/// network of its template, which a CronJob has in the template of its jobs. It wants no pod exactly where it is of a kind
/// with `replicas`, and that is 0.
pub fn controllers_mean_their_members()
    ensures { (kind : ControllerKind) (value : Data) (read : ControllerItem) → controller kind value ≡ Ok read →
        IsControllerOf kind value read }
{}

/// The pods of an estate that is read are, in order, the listed ones that are neither on the network of their node nor
/// finished, and those of the templates of the controllers that stand for pods of which none is listed; and no others. Each
/// has the labels of its namespace: its name, and beside that those of the Namespace that is listed, if one is.
pub fn each_pod_stands_once()
    ensures { (texts : List (List ℕ)) (items : List Item) (lists : EstateLists) → items_of texts ≡ Ok items
        → estate_of texts ≡ Ok lists → HoldsEachPod items lists }
{}

/// The controllers that stand for a pod, the one of their template, are those that have a template and want pods, that no
/// listed controller owns, and that are in the chain of owners of no listed pod, not even of one that is left out of the estate.
/// No other item stands for a pod.
pub fn controllers_without_pods_have_template_pods()
    ensures { (texts : List (List ℕ)) (items : List Item) (lists : EstateLists) (place : ℕ) (one : Item) →
        items_of texts ≡ Ok items → estate_of texts ≡ Ok lists → slice_get items place ≡ Some one →
        (makes_pod items place ≡ true) ↔ HasTemplatePod items one }
{}

/// Where several things would have one name, as workloads of one top owner, a number follows it in each, and the numbers
/// follow the places of the things; for workloads these are the places of their first pods.
pub fn numbers_follow_places()
    ensures { (wishes : List (List ℕ)) (first second : ℕ) → first < second → second < length wishes →
        wish_at wishes first ≡ wish_at wishes second → AreNumbered wishes first second }
{}
