//! Which controllers stand for a pod of their template.
ghost use Rattle.std.specs.Prelude.{◌≡◌, map, ◌&&◌, not, IfOk};
ghost use Rattle.np_owners.specs.MadePods as spec;
ghost use Rattle.np_owners.specs.Prelude.{ups};

use crate::chains::Chains;
use np_base::NoMemory;
use np_items::Item;
use np_objects::Object;
use std::alloc::Global;

/// For each item, whether it is a controller that makes pods of which none is listed: it has a template and wants pods,
/// its own owner is not listed, and no listed pod has it in its chain of owners, not even one that is left out.
pub fn made_pods(alloc: Global, items: &[Item], chains: &Chains) -> Result<Vec<bool>, NoMemory>
    requires { chains.now ≡ ups items.now }
    ensures { IfOk result (λ made. made.items ≡ spec.makers items.now) }
{
    let has_pods = chains.over_some(alloc, &pod_marks(alloc, items)?)?;
    let mut made = Vec::new(alloc);
    for place in 0..chains.len() {
        let is_owned = chains.above(place).is_some();
        made.push(makes_pod(&items[place as usize], is_owned, has_pods[place as usize]))?;
    }
    Ok(made)
}

// For each item, whether it is a pod.
fn pod_marks(alloc: Global, items: &[Item]) -> Result<Vec<bool>, NoMemory>
    ensures { IfOk result (λ made. made.items ≡ map spec.is_pod items.now) }
{
    let mut marks = Vec::new(alloc);
    for item in items {
        marks.push(is_pod(item))?;
    }
    Ok(marks)
}

fn is_pod(item: &Item) -> bool
    ensures { result ≡ spec.is_pod item.now }
{
    matches!(item, Item::Object(Object::Pod(_)))
}

// Whether an item makes pods of which none is listed, where it is known whether a listed item owns it, and whether it
// has listed pods.
fn makes_pod(item: &Item, is_owned: bool, has_pods: bool) -> bool
    ensures { result ≡ ((spec.wants_pods item.now && not is_owned) && not has_pods) }
{
    wants_pods(item) && !is_owned && !has_pods
}

// Whether an item is a controller that has a template and wants pods.
fn wants_pods(item: &Item) -> bool
    ensures { result ≡ spec.wants_pods item.now }
{
    match item {
        Item::Object(Object::Controller(controller)) => {
            controller.template.is_some() && !controller.none_wanted
        }
        _ => false,
    }
}
