//! A cluster of any number of pods, as the JSON text that kubectl would print of it.
#![tactic(auto)]

mod admin_policy;
mod cluster;
mod names;
mod namespace;
mod net_policy;
mod pod;

pub use cluster::sample;
