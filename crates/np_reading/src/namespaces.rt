//! The labels of namespaces.
ghost use Rattle.std.specs.Prelude.{◌≡◌, IfOk, OnOk};
ghost use Rattle.std.specs.List.{slice_get};
ghost use Rattle.std.specs.Option.{option_and_then};
ghost use Rattle.np_reading.specs.Namespaces as spec;
ghost use Rattle.np_reading.specs.Prelude.{KnowsLabels};
ghost use Rattle.np_owners.specs.Prelude.{HoldsPlaces};

use np_base::{NoMemory, Seq, Text, TryCopy};
use np_items::Item;
use np_labels::{Labels, Pair, SharedLabels};
use np_objects::Object;
use np_owners::{ObjectName, Places};
use std::alloc::Global;
use std::collections::BTreeMap;

/// The labels of the namespaces that were asked for, by their names, each made once.
pub(crate) type KnownLabels = BTreeMap<Text, SharedLabels>;

/// The labels of a namespace, which all that ask for them share: those that are known, or they are made and known from
/// then on.
pub(crate) fn shared_labels(
    alloc: Global,
    items: &[Item],
    places: &Places,
    known: &mut KnownLabels,
    name: &Text,
) -> Result<SharedLabels, NoMemory>
    requires places { HoldsPlaces items.now places.now }
    requires known { KnowsLabels items.now known.old }
    ensures labels { IfOk result (λ labels. labels ≡ spec.namespace_labels items.now name.now) }
    ensures known { OnOk result (KnowsLabels items.now known.new) }
{
    if let Some(labels) = known.get(name) {
        return labels.share();
    }
    let labels = SharedLabels::of(alloc, namespace_labels(alloc, items, places, name)?)?;
    known.insert(name.copy()?, labels.share()?)?;
    Ok(labels)
}

// The labels of a namespace: those of its Namespace object, if it is listed, and `kubernetes.io/metadata.name`, which
// always says its name (Kubernetes API reference, "Well-Known Labels, Annotations and Taints").
fn namespace_labels(
    alloc: Global,
    items: &[Item],
    places: &Places,
    name: &Text,
) -> Result<Labels, NoMemory>
    requires places { HoldsPlaces items.now places.now }
    ensures { IfOk result (λ labels. labels ≡ spec.namespace_labels items.now name.now) }
{
    let place = places.find(&namespace_name(alloc, name)?);
    let listed = listed_labels(items, place);
    let mut pairs = copied(alloc, listed)?;
    pairs.push(name_label(alloc, name)?)?;
    Labels::of(alloc, pairs)
}

// The name of a Namespace object.
fn namespace_name(alloc: Global, name: &Text) -> Result<ObjectName, NoMemory>
    ensures { IfOk result (λ made. made ≡ spec.namespace_name name.now) }
{
    Ok(ObjectName {
        kind: Text::of(alloc, "Namespace")?,
        namespace: Text::of(alloc, "")?,
        name: name.copy()?,
    })
}

// The label that says the name of a namespace.
fn name_label(alloc: Global, name: &Text) -> Result<Pair, NoMemory>
    ensures { IfOk result (λ label. label ≡ spec.name_label name.now) }
{
    Ok(Pair {
        key: Text::of(alloc, "kubernetes.io/metadata.name")?,
        value: name.copy()?,
    })
}

// The labels of the Namespace object at a place, and none where there is none.
fn listed_labels(items: &[Item], place: Option<u32>) -> &[Pair]
    ensures { result.now ≡ spec.labels_in (option_and_then (slice_get items.now) place) }
{
    let Some(place) = place else {
        return &[];
    };
    match items.get(place as usize) {
        Some(Item::Object(Object::Namespace(namespace))) => namespace.labels.pairs(),
        _ => &[],
    }
}

// Copies of labels, in order.
fn copied(alloc: Global, labels: &[Pair]) -> Result<Seq<Pair>, NoMemory>
    ensures { IfOk result (λ made. made ≡ labels.now) }
{
    let mut made = Seq::new(alloc);
    for label in labels {
        made.push(label.try_copy(alloc)?)?;
    }
    Ok(made)
}
