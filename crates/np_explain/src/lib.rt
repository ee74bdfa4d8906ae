//! Why: which rule decides every packet between two ends, protocol by protocol and port by port, and the text of that.
#![tactic(auto)]

mod explaining;
mod explanation;
mod families;
mod flow;
mod laws;
mod order;
mod part;
mod print;
mod rule_names;
mod same;
mod side;

pub use explaining::explain;
pub use explanation::{Explanation, explain_sides};
pub use families::family_asked;
pub use flow::Flow;
pub use laws::{
    both_sides_give_the_verdict, deciders_of_read_policies_are_well_named,
    each_spot_is_in_one_part, explanations_are_right, one_line_has_one_part,
    one_list_of_parts_is_right, one_text_has_one_decider, only_addresses_have_no_side,
    parts_give_the_verdict, parts_have_texts_of_their_own, right_parts_are_these,
    same_sides_explain_both_families,
};
pub use part::Part;
pub use print::print_decider;
pub use same::same_sides;
