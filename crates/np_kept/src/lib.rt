//! Answers that are kept for those who ask again, while there is room for them.
#![tactic(auto)]

mod kept;

pub use kept::{Kept, OfSource};
