//! What follows from the shapes of policies.
ghost use Rattle.std.specs.Prelude.{◌≡◌, ◌↔◌, ℕ, pos, List, true, false, ◌||◌, is_some, IfSome, Option, Ok, Some, None, codes};
ghost use Rattle.serde_json.specs.Data.{Data, object, no_members, string};
ghost use Rattle.np_addr.specs.Prelude.{IsCidr};
ghost use Rattle.np_addr.specs.declared.cidr.Cidr.{Cidr};
ghost use Rattle.np_json.specs.Prelude.{member_of, type_meta};
ghost use Rattle.np_json.specs.declared.meta.TypeMeta.{TypeMeta};
ghost use Rattle.np_labels.specs.Prelude.{meets_selector};
ghost use Rattle.np_labels.specs.declared.pair.Pair.{Pair};
ghost use Rattle.np_labels.specs.declared.selector.Selector.{Selector};
ghost use Rattle.np_meaning.specs.Prelude.{IsAdminPolicyOf, IsBasePolicyOf, IsBlockOf, IsNetPolicyOf, IsReadOf, has_egress, has_ingress, meets_members, number_at, protocol_of, spec_of};
ghost use Rattle.np_policies.specs.Prelude.{everything, is_network_policy, is_well_policy, net_peer, net_port, net_rules, policy_of, selector};
ghost use Rattle.np_model.specs.Prelude.{is_well_cidr};
ghost use Rattle.np_model.specs.declared.admin_policy.AdminPolicy.{AdminPolicy};
ghost use Rattle.np_model.specs.declared.admin_policy.BasePolicy.{BasePolicy};
ghost use Rattle.np_model.specs.declared.direction.Direction.TheVariants.{Ingress, Egress};
ghost use Rattle.np_model.specs.declared.network_policy.NetPeer.TheVariants.{Pods, Block};
ghost use Rattle.np_model.specs.declared.network_policy.NetPolicy.{NetPolicy};
ghost use Rattle.np_model.specs.declared.network_policy.NetPort.{NetPort};
ghost use Rattle.np_model.specs.declared.network_policy.NetPort.TheVariants.{Span, Named};
ghost use Rattle.np_policies.specs.declared.policy.Policy.{Policy};
ghost use Rattle.np_policies.specs.declared.policy.Policy.TheVariants.{Net, Admin, Base};

/// Labels meet a selector that was read exactly where they have every entry of its `matchLabels` and meet every
/// expression of its `matchExpressions`.
pub fn selectors_mean_their_members()
    ensures { (value : Data) (read : Selector) (labels : List Pair) → selector value ≡ Ok read →
        meets_selector read labels ≡ meets_members labels value }
{}

/// A selector without members is read, and is met by all labels.
pub fn empty_selector_is_met()
    ensures read { selector (object no_members) ≡ Ok everything }
    ensures met { (labels : List Pair) → meets_selector everything labels ≡ true }
{}

/// A direction is there in a NetworkPolicy that was read exactly where its `spec` has it among its types: where
/// `policyTypes` lists it; and where that is missing or empty, Ingress always, and Egress where `egress` has a rule. Its
/// rules are then those of its member.
pub fn policy_types_mean_their_members()
    ensures ingress { (value : Data) (read : NetPolicy) → policy_of value ≡ Ok (Some (Net read)) →
        is_some read.ingress ≡ has_ingress (spec_of value) }
    ensures egress { (value : Data) (read : NetPolicy) → policy_of value ≡ Ok (Some (Net read)) →
        is_some read.egress ≡ has_egress (spec_of value) }
    ensures ingress_rules { (value : Data) (read : NetPolicy) → policy_of value ≡ Ok (Some (Net read)) →
        IfSome read.ingress (λ rules. net_rules Ingress (spec_of value) ≡ Ok rules) }
    ensures egress_rules { (value : Data) (read : NetPolicy) → policy_of value ≡ Ok (Some (Net read)) →
        IfSome read.egress (λ rules. net_rules Egress (spec_of value) ≡ Ok rules) }
{}

/// A peer of pods that was read has `podSelector`, `namespaceSelector` or both, each read as a selector, and no
/// `ipBlock`. A peer of addresses has an `ipBlock`, whose `cidr` and `except` it has, and neither selector.
pub fn peers_mean_their_members()
    ensures pods { (value : Data) (namespaces pods : Option Selector) → net_peer value ≡ Ok (Pods namespaces pods) →
        IsReadOf selector (member_of (codes "podSelector") value) pods }
    ensures namespaces { (value : Data) (namespaces pods : Option Selector) →
        net_peer value ≡ Ok (Pods namespaces pods) →
        IsReadOf selector (member_of (codes "namespaceSelector") value) namespaces }
    ensures some_selector { (value : Data) (namespaces pods : Option Selector) →
        net_peer value ≡ Ok (Pods namespaces pods) → (is_some pods || is_some namespaces) ≡ true }
    ensures no_block { (value : Data) (namespaces pods : Option Selector) →
        net_peer value ≡ Ok (Pods namespaces pods) → member_of (codes "ipBlock") value ≡ None }
    ensures block { (value : Data) (cidr : Cidr) (excepts : List Cidr) → net_peer value ≡ Ok (Block cidr excepts) →
        IsBlockOf (member_of (codes "ipBlock") value) cidr excepts }
    ensures block_alone { (value : Data) (cidr : Cidr) (excepts : List Cidr) →
        net_peer value ≡ Ok (Block cidr excepts) →
        (member_of (codes "podSelector") value ≡ None) × (member_of (codes "namespaceSelector") value ≡ None) }
{}

/// A port entry that was read is of the protocol that `protocol` names, which is TCP where it is missing. Without `port`
/// it has all ports; with a number as `port` it has that port, or those up to `endPort` where that is there; with a text
/// it has the ports of that name.
pub fn port_entries_mean_their_members()
    ensures all_ports { (value : Data) (read : NetPort) → net_port value ≡ Ok read →
        member_of (codes "port") value ≡ None → read ≡ Span (protocol_of value) 1 65535 }
    ensures one_port { (value : Data) (read : NetPort) (port : ℕ) → net_port value ≡ Ok read →
        number_at (codes "port") value ≡ Some (pos port) → member_of (codes "endPort") value ≡ None →
        read ≡ Span (protocol_of value) port port }
    ensures range { (value : Data) (read : NetPort) (first last : ℕ) → net_port value ≡ Ok read →
        number_at (codes "port") value ≡ Some (pos first) → number_at (codes "endPort") value ≡ Some (pos last) →
        read ≡ Span (protocol_of value) first last }
    ensures name { (value : Data) (read : NetPort) (name : List ℕ) → net_port value ≡ Ok read →
        member_of (codes "port") value ≡ Some (string name) → read ≡ Named (protocol_of value) name }
{}

/// A NetworkPolicy that was read has the namespace and the name of its metadata, the pods that its `podSelector` selects as
/// its subject, and the rules of `ingress` and `egress` in order, each with the peers of `from` or `to` and its `ports`.
pub fn network_policies_mean_their_members()
    ensures { (value : Data) (read : NetPolicy) → policy_of value ≡ Ok (Some (Net read)) → IsNetPolicyOf value read }
{}

/// An AdminNetworkPolicy that was read has the name and the priority of its members, the pods that its `subject` selects
/// as its subject, and the rules of its `ingress` and `egress` in order, each with its action, its peers and its ports.
pub fn admin_policies_mean_their_members()
    ensures { (value : Data) (read : AdminPolicy) → policy_of value ≡ Ok (Some (Admin read)) →
        IsAdminPolicyOf value read }
{}

/// A BaselineAdminNetworkPolicy that was read is named `default`, and has the pods that its `subject` selects as its
/// subject, and the rules of its `ingress` and `egress` in order, each with its action, its peers and its ports.
pub fn baseline_policies_mean_their_members()
    ensures { (value : Data) (read : BasePolicy) → policy_of value ≡ Ok (Some (Base read)) → IsBasePolicyOf value read }
{}

/// An item is no policy exactly where it is an object whose kind does not end in `NetworkPolicy`.
pub fn other_kinds_are_no_policy()
    ensures { (value : Data) → (policy_of value ≡ Ok None) ↔
        ((meta : TypeMeta) × (type_meta value ≡ Ok meta) × (is_network_policy meta.kind ≡ false)) }
{}

/// Each policy that is read is well formed: names are names, keys of selectors are words that are not empty, their
/// values are words in ascending order, at least one for `In` and `NotIn` and none for the other operators, names of
/// ports are words that are not empty, no range of ports begins above its end, blocks of addresses have no host bits,
/// and an exception is a strict part of its block, an admin rule has a peer, a priority is at most 1000, and a baseline
/// has no Pass.
pub fn policies_are_well_formed()
    ensures { (value : Data) (read : Policy) → policy_of value ≡ Ok (Some read) → is_well_policy read ≡ true }
{}

/// The test of a block of addresses holds exactly where the block is well formed.
pub fn well_blocks_are_tested()
    ensures { (block : Cidr) → (is_well_cidr block ≡ true) ↔ IsCidr block }
{}
