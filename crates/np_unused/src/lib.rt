//! The rules that decide nothing.
#![tactic(auto)]

mod all_rules;
mod first_rules;
mod flags;
mod handed_down;
mod kind_pods;
mod laws;
mod print;
mod rule_ref;
mod rule_spots;
mod same_kinds;
mod search;
mod unknown_rules;
mod unused;
mod used_rules;

pub use laws::{
    unused_rules_change_nothing, unused_rules_decide_nothing, unused_rules_stand_in_order,
};
pub use print::print_rule;
pub use rule_ref::{RuleRef, Tier};
pub use unused::unused_rules;
