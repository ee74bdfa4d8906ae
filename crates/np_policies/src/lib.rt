//! How the policies of a cluster are read from JSON.
#![tactic(auto)]

mod admin_peer_shape;
mod admin_policy_shape;
mod admin_port_shape;
mod admin_rule_shape;
mod expression_shape;
mod ip_block_shape;
mod net_peer_shape;
mod net_policy_shape;
mod net_port_shape;
mod net_rule_shape;
mod policy;
mod policy_shape;
mod port_members;
mod selector_shape;
mod subject_shape;

pub use policy::Policy;
pub use policy_shape::read_policy;

// What the definitions of the shapes speak of.
pub use admin_policy_shape::AdminSpec;
pub use admin_rule_shape::AdminKind;
pub use ip_block_shape::IpBlock;
pub use net_policy_shape::NetSpec;
pub use net_port_shape::PortValue;
pub use policy_shape::PolicyKind;
