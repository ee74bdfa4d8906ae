//! The tiers of network policies over whole sets of spots: the rules of AdminNetworkPolicies, then NetworkPolicies,
//! then the baseline, as the network-policy-api reference (`policy.networking.k8s.io/v1alpha1`) orders them. All works
//! for every kind of set that keeps the laws of `Cells`, and no kind is named.
#![tactic(auto)]

mod carving;
mod laws;
mod layer;
mod mark;
mod run;
mod tier_rule;
mod verdict;

pub use carving::carve;
pub use laws::{allowed_is_union_of_carved, mark_says_what_the_walk_says};
pub use layer::{AdminPart, BasePart, Layer};
pub use mark::{Mark, Marked};
pub use verdict::verdict_set;
