//! What the rest of a list says of a pod.
ghost use Rattle.std.specs.Prelude.{◌≡◌, IfOk, OnOk};
ghost use Rattle.np_reading.specs.Ends as spec;
ghost use Rattle.np_reading.specs.steps.Known.{KnowsLabels};
ghost use Rattle.np_owners.specs.MadePods as made_pods;
ghost use Rattle.np_owners.specs.Prelude.{HoldsPlaces, top_owners};

use crate::namespaces::{KnownLabels, shared_labels};
use np_base::{NoMemory, TryCopy};
use np_items::Item;
use np_labels::SharedLabels;
use np_model::Owner;
use np_objects::{ControllerItem, Object};
use np_owners::{Places, name_of};
use std::alloc::Global;

/// What the rest of a list says of the pod that an item gives.
#[derive(Drop)]
pub(crate) struct PodContext {
    pub(crate) namespace_labels: SharedLabels,
    pub(crate) owner: Owner,
}

/// For each item what the rest of the list says of the pod that it gives, and `None` where it gives none. `makers` says
/// of each item whether it is a controller that stands for a pod, and `owners` what its top owner is.
pub(crate) fn contexts(
    alloc: Global,
    items: &[Item],
    places: &Places,
    makers: &[bool],
    owners: &[Option<Owner>],
) -> Result<Vec<Option<PodContext>>, NoMemory>
    requires places { HoldsPlaces items.now places.now }
    requires makers { makers.now ≡ made_pods.makers items.now }
    requires owners { owners.now ≡ top_owners items.now }
    ensures { IfOk result (λ made. made.items ≡ spec.contexts_of items.now) }
{
    let mut known = KnownLabels::new(alloc);
    let mut made = Vec::new(alloc);
    for (place, item) in items.iter().enumerate() {
        let context = if gives_end(makers[place], item) {
            context_of(alloc, items, places, &mut known, item, &owners[place])?
        } else {
            None
        };
        made.push(context)?;
    }
    Ok(made)
}

// What the rest of the list says of the pod of an item whose top owner this is: that owner, and the labels of its
// namespace.
fn context_of(
    alloc: Global,
    items: &[Item],
    places: &Places,
    known: &mut KnownLabels,
    item: &Item,
    owner: &Option<Owner>,
) -> Result<Option<PodContext>, NoMemory>
    requires places { HoldsPlaces items.now places.now }
    requires known { KnowsLabels items.now known.old }
    ensures context { IfOk result (λ made. made ≡ spec.context_of items.now item.now owner.now) }
    ensures known { OnOk result (KnowsLabels items.now known.new) }
{
    let Some(name) = name_of(alloc, item)? else {
        return Ok(None);
    };
    let Some(owner) = owner else {
        return Ok(None);
    };
    let namespace_labels = shared_labels(alloc, items, places, known, &name.namespace)?;
    Ok(Some(PodContext {
        namespace_labels,
        owner: owner.try_copy(alloc)?,
    }))
}

// Whether an item gives a pod of the estate; `makes` says whether it is a controller that stands for a pod.
fn gives_end(makes: bool, item: &Item) -> bool
    ensures { result ≡ spec.gives_end makes item.now }
{
    match item {
        Item::Object(Object::Pod(pod)) => !(pod.host_network || pod.finished),
        Item::Object(Object::Controller(controller)) => makes && !is_on_host(controller),
        _ => false,
    }
}

/// Whether the pods of a controller are on the network of their node.
pub(crate) fn is_on_host(controller: &ControllerItem) -> bool
    ensures { result ≡ spec.is_on_host controller.now }
{
    match &controller.template {
        Some(template) => template.host_network,
        None => false,
    }
}
