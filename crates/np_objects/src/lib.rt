//! The objects of a cluster other than policies, as typed values, and how they are read.
#![tactic(auto)]

mod controller;
mod controller_shapes;
mod controller_spec;
mod distinct_addresses;
mod ingress_shapes;
mod kind;
mod label_map;
mod laws;
mod lists;
mod namespace;
mod object;
mod object_shape;
mod owner_ref;
mod owner_reference;
mod pod_item;
mod pod_spec;
mod pod_status;
mod port_shapes;
mod service_shapes;
mod service_spec;
mod template;

pub use controller::{ControllerItem, ControllerKind, Template, is_controller_kind};
pub use laws::{first_counting_reference_names_owner, owner_is_read_of_references};
pub use namespace::NamespaceItem;
pub use object::Object;
pub use object_shape::read_object;
pub use owner_ref::OwnerRef;
pub use pod_item::PodItem;
