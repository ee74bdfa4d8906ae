//! How an estate, the whole of what a list says, is read from JSON.
#![tactic(auto)]

mod context;
mod grouped_items;
mod laws;
mod left_out;
mod namespaces;
mod priorities;
mod reading;
mod refusal;

pub use laws::{
    each_policy_and_service_stands_once, pods_without_listed_owners_name_their_top_owners,
    read_estates_are_lawful,
};
pub use reading::read_estate;
pub use refusal::Refusal;
