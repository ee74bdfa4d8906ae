//! `list`: the rows of the table that are asked for.
#![tactic(auto)]

mod laws;
mod report;

pub use laws::one_text_says_what_passes;
pub use report::{Listing, Presentation, list, listing_of};
