//! `flatten`: NetworkPolicies that give the verdicts of a whole estate.
#![tactic(auto)]

mod laws;
mod report;

pub use laws::{
    flat_policies_are_read_again, lists_are_their_policies_joined, policies_are_read_again,
};
pub use report::flatten_in;
