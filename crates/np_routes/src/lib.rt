//! Ingresses: which TCP ports of a pod are reached from outside through ingresses and services, and the table of a cluster
//! with them.
#![tactic(auto)]

mod asked_services;
mod backend_flaws;
mod backends;
mod cluster_rows;
mod laws;
mod port_set;
mod route_note;
mod routes;
mod senders;
mod service_ports;
mod service_targets;
mod services;
mod targets;

pub use backend_flaws::route_notes;
pub use cluster_rows::ClusterRows;
pub use laws::{
    ingress_rows_say_what_passes, ingresses_lead_as_the_api_says, other_rows_stay,
    workloads_stand_for_their_pods_behind_ingresses,
};
pub use route_note::{RouteFlaw, RouteNote};
pub use routes::{Routes, ingress_set};
