//! One tier of NetworkPolicies that gives the verdicts of a whole estate: a policy for each group of workloads that selectors
//! cannot tell apart.
#![tactic(auto)]

mod address_rules;
mod differ;
mod fault;
mod flat;
mod flattening;
mod groups;
mod laws;
mod passing;
mod policy_parts;
mod split;
mod unlike;

pub use fault::FlatFault;
pub use flat::Flat;
pub use flattening::flatten;
pub use laws::{
    flat_policies_give_the_verdicts, groups_give_the_sets, the_first_alike_are_told,
    the_first_split_is_told,
};
