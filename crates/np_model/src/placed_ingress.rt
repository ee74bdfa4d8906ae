//! Ingresses with their places.

use crate::ingress::IngressItem;

/// An ingress, and the number of its item, from 1 over all inputs.
#[derive(Drop)]
pub struct PlacedIngress {
    pub item: u64,
    pub ingress: IngressItem,
}
