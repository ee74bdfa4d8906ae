//! `unused`: the rules that decide nothing.
#![tactic(auto)]

mod laws;
mod report;

pub use laws::one_list_of_rules_decides_nothing;
pub use report::unused;
