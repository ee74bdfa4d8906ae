//! `check`: whether the statements of a file hold.
#![tactic(auto)]

mod laws;
mod report;

pub use laws::one_finding_says_what_holds;
pub use report::check_file;
