//! Pods that no rule can tell apart, as workloads: what rules see of a pod, and the classes of pods of which they see the
//! same.
#![tactic(auto)]

mod blocks;
mod distinct_blocks;
mod fold_fault;
mod folded;
mod kinds;
mod laws;
mod members;
mod numbers;
mod order;
mod owner_names;
mod pod_classes;
mod relevant;
mod traits;
mod workloads;

pub use blocks::listed_cidrs;
pub use fold_fault::FoldFault;
pub use folded::Folded;
pub use laws::{
    each_key_is_named_by_a_selector, each_pod_has_one_workload, kinds_are_those_of_first_pods,
    one_workload_has_alike_pods, only_equal_traits_tie, other_traits_tell_kinds_apart,
    owner_names_tell_owners_apart, the_five_equalities, traits_tell_pods_apart,
    workloads_have_pods, workloads_stand_by_name,
};
pub use relevant::relevant_keys;
pub use traits::{Label, Traits};
pub use workloads::{MOST_WORKLOADS, Workloads};
