//! `explain`: what decides between two ends.
#![tactic(auto)]

mod laws;
mod report;

pub use laws::one_text_says_what_decides;
pub use report::{AskedEnd, ExplainedEnds, Shown, explain};
