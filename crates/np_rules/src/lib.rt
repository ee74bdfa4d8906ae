//! Which packets the policies allow: the model, one packet at a time, as definitions, and the same as whole sets of
//! connections.
#![tactic(auto)]

mod address_rules;
mod address_sets;
mod admin_tier;
mod base_tier;
mod decider;
mod estate_pods;
mod every_address;
mod far_ends;
mod laws;
mod layer_parts;
mod near_ends;
mod net_tier;
mod net_union;
mod one_end;
mod own_policies;
mod packet;
mod peers;
mod pod_rules;
mod policy_names;
mod policy_rules;
mod port_entries;
mod port_sets;
mod rule_ids;
mod rules;
mod rules_toward;
mod same;
mod same_sides;
mod selection;
mod side_marks;
mod side_rules;
mod stranger;
mod stranger_rules;
mod texts;
mod verdict;
mod views;

pub use admin_tier::admin_rules_of;
pub use decider::{Decider, RuleName};
pub use estate_pods::{
    admin_policy_selects, admin_rule_reaches, isolates_pod, net_policy_selects, net_rule_reaches,
};
pub use every_address::AddrConns;
pub use laws::{
    decider_gives_the_verdict, first_admin_rule_decides, network_policies_alone_isolate,
    networks_alone_tell_families, policies_add_up, rules_add_up, unselected_pods_are_free,
};
pub use layer_parts::is_allow;
pub use net_tier::net_rules_of;
pub use packet::{End, Packet};
pub use pod_rules::PodRules;
pub use policy_names::PolicyNames;
pub use rule_ids::{LayerRules, RuleId};
pub use same::{Same, are_same};
pub use same_sides::is_same_side;
pub use side_marks::side_mark;
pub use side_rules::SideRules;
pub use stranger::Stranger;
pub use stranger_rules::{RuleConns, StrangerRules, joined_set};
pub use texts::{direction_text, said_text, verdict_text};
pub use verdict::allows;
