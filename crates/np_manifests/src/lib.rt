//! NetworkPolicies as JSON: the text of each, and of a list of them.
#![tactic(auto)]

mod list;
mod manifest;
mod members;
mod peer;
mod policy;
mod port;
mod rule;
mod selector;

pub use list::{LIST_END, LIST_FRONT, LIST_SEPARATOR};
pub use policy::print_policy;
