//! What follows from the definitions of whom policies select and what their rules match.
ghost use Rattle.std.specs.Prelude.{◌≡◌, ◌↔◌, ◌&&◌, ℕ, List, [], Option, Ok, Some, None, true, false};
ghost use Rattle.serde_json.specs.Data.{Data};
ghost use Rattle.np_addr.specs.declared.address.Address.{Address};
ghost use Rattle.np_addr.specs.declared.address.Family.{Family};
ghost use Rattle.np_addr.specs.declared.cidr.Cidr.{Cidr};
ghost use Rattle.np_conns.specs.declared.port_spot.PortSpot.{PortSpot};
ghost use Rattle.np_labels.specs.declared.selector.Selector.{Selector};
ghost use Rattle.np_meaning.specs.Prelude.{has_egress, has_ingress, spec_of};
ghost use Rattle.np_meaning.specs.RuleMeaning.{IsOfAdminPeer, IsOfAdminPort, IsOfAdminRule, IsOfNetPeer, IsOfNetPort, IsOfNetRule, IsPodOfPolicy, IsPodOfSubject, Selects};
ghost use Rattle.np_model.specs.declared.admin_policy.AdminPeer.{AdminPeer};
ghost use Rattle.np_model.specs.declared.admin_policy.AdminPort.{AdminPort};
ghost use Rattle.np_model.specs.declared.admin_policy.AdminRule.{AdminRule};
ghost use Rattle.np_model.specs.declared.admin_policy.Subject.{Subject};
ghost use Rattle.np_model.specs.declared.direction.Direction.TheVariants.{Egress, Ingress};
ghost use Rattle.np_model.specs.declared.network_policy.NetPeer.{NetPeer};
ghost use Rattle.np_model.specs.declared.network_policy.NetPeer.TheVariants.{Block, Pods};
ghost use Rattle.np_model.specs.declared.network_policy.NetPolicy.{NetPolicy};
ghost use Rattle.np_model.specs.declared.network_policy.NetPort.{NetPort};
ghost use Rattle.np_model.specs.declared.network_policy.NetRule.{NetRule};
ghost use Rattle.np_policies.specs.Prelude.{policy_of};
ghost use Rattle.np_policies.specs.declared.policy.Policy.TheVariants.{Net};
ghost use Rattle.np_rules.specs.Prelude.{Contact, ModelEnd, PodEnd, address, admin_entry_matches, admin_peer_matches, admin_rule_matches, isolates, net_entry_matches, net_peer_matches, net_rule_matches, net_selects, pod, subject_selects};

/// A NetworkPolicy selects the pods of its own namespace that its `podSelector` selects, and no others.
pub fn network_policies_select_in_their_namespace()
    ensures { (policy : NetPolicy) (p : PodEnd) → (net_selects policy p ≡ true) ↔ IsPodOfPolicy policy p }
{}

/// A subject of an admin policy or of the baseline selects the pods that its pod selector selects in the namespaces that its
/// namespace selector selects, and no others.
pub fn subjects_select_by_both_selectors()
    ensures { (subject : Subject) (p : PodEnd) → (subject_selects subject p ≡ true) ↔ IsPodOfSubject subject p }
{}

/// A NetworkPolicy that was read isolates the pods that it selects in the directions of its `policyTypes`; where these are missing
/// or empty, for ingress always, and for egress where it has a rule of egress.
pub fn network_policies_isolate_by_their_types()
    ensures ingress { (value : Data) (read : NetPolicy) (p : PodEnd) → policy_of value ≡ Ok (Some (Net read)) →
        isolates Ingress p read ≡ (net_selects read p && has_ingress (spec_of value)) }
    ensures egress { (value : Data) (read : NetPolicy) (p : PodEnd) → policy_of value ≡ Ok (Some (Net read)) →
        isolates Egress p read ≡ (net_selects read p && has_egress (spec_of value)) }
{}

/// A peer of a NetworkPolicy of a namespace stands for the pods that its selectors select, or for the addresses of its block that no
/// exception has.
pub fn net_peers_stand_for_pods_or_addresses()
    ensures peer { (namespace : List ℕ) (peer : NetPeer) (far : ModelEnd) →
        (net_peer_matches namespace peer far ≡ true) ↔ IsOfNetPeer namespace peer far }
    // A namespace selector alone selects each pod of each namespace that it selects.
    ensures namespaces { (namespace : List ℕ) (namespaces : Selector) (p : PodEnd) → Selects namespaces p.namespace_labels →
        net_peer_matches namespace (Pods (Some namespaces) None) (pod p) ≡ true }
    // A pod selector alone selects no pod of another namespace.
    ensures own { (namespace : List ℕ) (pods : Selector) (p : PodEnd) →
        net_peer_matches namespace (Pods None (Some pods)) (pod p) ≡ true → p.namespace ≡ namespace }
    // No block stands for a pod, and no selector for an address.
    ensures no_pod { (namespace : List ℕ) (cidr : Cidr) (excepts : List Cidr) (p : PodEnd) →
        net_peer_matches namespace (Block cidr excepts) (pod p) ≡ false }
    ensures no_address { (namespace : List ℕ) (namespaces pods : Option Selector) (a : Address) →
        net_peer_matches namespace (Pods namespaces pods) (address a) ≡ false }
{}

/// A peer of an admin rule stands for the pods that its selectors select, or for the addresses in its networks, and then for the
/// pods, too, of which some address of the packet's family is in one of them.
pub fn admin_peers_stand_for_pods_or_networks()
    ensures { (peer : AdminPeer) (far : ModelEnd) (family : Family) →
        (admin_peer_matches peer far family ≡ true) ↔ IsOfAdminPeer peer far family }
{}

/// A port entry of a NetworkPolicy matches the ports of its protocol from its first to its last, or those of its protocol that have
/// its name at the pod that the packet goes to.
pub fn net_port_entries_match_ranges_or_names()
    ensures { (entry : NetPort) (destination : ModelEnd) (spot : PortSpot) →
        (net_entry_matches entry destination spot ≡ true) ↔ IsOfNetPort entry destination spot }
{}

/// A port entry of an admin rule matches the ports of its protocol from its first to its last, or those that have its name at the pod
/// that the packet goes to, in the protocol that they have there.
pub fn admin_port_entries_match_ranges_or_names()
    ensures { (entry : AdminPort) (destination : ModelEnd) (spot : PortSpot) →
        (admin_entry_matches entry destination spot ≡ true) ↔ IsOfAdminPort entry destination spot }
{}

/// A rule of a NetworkPolicy matches where one of its peers does, or it has none, and one of its port entries does, or it has none.
/// So one without peers and port entries matches every packet.
pub fn net_rules_match_by_some_peer_and_port()
    ensures rule { (namespace : List ℕ) (rule : NetRule) (contact : Contact) →
        (net_rule_matches namespace rule contact ≡ true) ↔ IsOfNetRule namespace rule contact }
    ensures all { (namespace : List ℕ) (contact : Contact) →
        net_rule_matches namespace (record { peers = []; ports = [] }) contact ≡ true }
{}

/// An admin rule matches where one of its peers does, and one of its port entries does, or it has none. So one without peers matches
/// nothing.
pub fn admin_rules_match_by_some_peer_and_port()
    ensures rule { (rule : AdminRule) (contact : Contact) → (admin_rule_matches rule contact ≡ true) ↔ IsOfAdminRule rule contact }
    ensures none { (rule : AdminRule) (contact : Contact) → rule.peers ≡ [] → admin_rule_matches rule contact ≡ false }
{}
