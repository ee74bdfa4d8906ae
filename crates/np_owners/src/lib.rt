//! Who owns what in a list of objects: the names of the objects, the chains of their controlling owners, as places of
//! the list from 0, and the pods that controllers make.
#![tactic(auto)]

mod chains;
mod chains_of_items;
mod fault;
pub mod laws;
mod makers;
mod object_name;
mod owner_refs;
mod places;
mod tops;

pub use chains::Chains;
pub use chains_of_items::chains_of;
pub use fault::{ChainsFault, PlacesFault};
pub use makers::made_pods;
pub use object_name::{ObjectName, name_of};
pub use places::Places;
pub use tops::top_owners;
