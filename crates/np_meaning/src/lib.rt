//! What is read, said again: what the members of each object and policy mean, which objects are not refused, whom policies select and
//! what their rules match, which pods an estate has, and how workloads of one name are numbered. And what is printed: a text of a row
//! tells what it stands for. The laws are about the definitions of the
//! crates below, in the words of the Kubernetes API, so that a slip in a definition is refused here. Nothing stands on this
//! crate.
#![tactic(auto)]

mod laws;
mod policy_laws;
mod rule_laws;
mod text_laws;
mod valid_laws;

pub use laws::{
    controllers_mean_their_members, controllers_without_pods_have_template_pods,
    each_pod_stands_once, ingresses_mean_their_members, namespaces_mean_their_members,
    numbers_follow_places, objects_are_of_their_kinds, pods_mean_their_members,
    services_mean_their_members,
};
pub use policy_laws::{
    admin_policies_mean_their_members, baseline_policies_mean_their_members, empty_selector_is_met,
    network_policies_mean_their_members, other_kinds_are_no_policy, peers_mean_their_members,
    policies_are_well_formed, policy_types_mean_their_members, port_entries_mean_their_members,
    selectors_mean_their_members, well_blocks_are_tested,
};
pub use rule_laws::{
    admin_peers_stand_for_pods_or_networks, admin_port_entries_match_ranges_or_names,
    admin_rules_match_by_some_peer_and_port, net_peers_stand_for_pods_or_addresses,
    net_port_entries_match_ranges_or_names, net_rules_match_by_some_peer_and_port,
    network_policies_isolate_by_their_types, network_policies_select_in_their_namespace,
    subjects_select_by_both_selectors,
};
pub use text_laws::{
    one_text_has_one_end, one_text_has_one_row, one_text_has_one_span,
    rows_of_the_table_are_of_the_estate,
};
pub use valid_laws::{
    valid_admin_policies_are_read, valid_baselines_are_read, valid_controllers_are_read,
    valid_ingresses_are_read, valid_namespaces_are_read, valid_network_policies_are_read,
    valid_pods_are_read, valid_services_are_read,
};
