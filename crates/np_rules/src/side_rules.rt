//! The rules that speak of a pod, one after another.
use np_model::{AdminRule, NetRule};

/// The rules that speak of a pod in a direction, tier by tier, and whether some NetworkPolicy isolates the pod.
#[derive(Drop)]
pub struct SideRules<'a> {
    pub admin: Vec<&'a AdminRule>,
    pub isolated: bool,
    pub net: Vec<&'a NetRule>,
    pub base: &'a [AdminRule],
}
