//! Labels, the requirements and selectors that look at them, and whether requirements can be met together.
#![tactic(auto)]

mod choice;
mod demand;
mod labels;
pub mod laws;
mod op;
mod pair;
mod possibility;
mod requirement;
mod selector;
mod shared_labels;
mod value_set;
mod values;

pub use labels::Labels;
pub use op::Op;
pub use pair::Pair;
pub use possibility::possible;
pub use requirement::Requirement;
pub use selector::Selector;
pub use shared_labels::SharedLabels;
