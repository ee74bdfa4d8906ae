//! Kinds of workloads: no rule tells their pods apart, so that the rules of one pod of each kind stand for all of it.
#![tactic(auto)]

mod first_pods;
mod kind_reach;
mod laws;
mod set_bytes;
mod shared_sets;
mod shared_side;
mod sides;

pub use first_pods::{first_place, first_pod, first_side};
pub use kind_reach::KindReach;
pub use laws::{kinds_give_the_deciders, kinds_give_the_rule_counts, kinds_give_the_verdict};
pub use set_bytes::bytes_of_set;
pub use sides::Sides;
