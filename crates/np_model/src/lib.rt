//! What a cluster is to the program: pods, the policies on them, and what serves them, as typed values. Nothing here says
//! how they are read.
#![tactic(auto)]

mod admin_policy;
mod direction;
mod estate;
mod families;
mod ingress;
mod lists;
mod named_port;
mod network_policy;
mod notes;
mod owner;
mod peers;
mod placed_ingress;
mod pod;
mod service;
mod words;

pub use admin_policy::{Action, AdminPeer, AdminPolicy, AdminPort, AdminRule, BasePolicy, Subject};
pub use direction::Direction;
pub use estate::Estate;
pub use ingress::{Backend, IngressItem};
pub use lists::EstateLists;
pub use named_port::NamedPort;
pub use network_policy::{NetPeer, NetPolicy, NetPort, NetRule};
pub use notes::Notes;
pub use owner::Owner;
pub use peers::admin_peers;
pub use placed_ingress::PlacedIngress;
pub use pod::Pod;
pub use service::{PortName, ServiceItem, ServicePort};
pub use words::{is_name, is_word};
