//! What follows from the model, in the words of the API. Each law is the contract of a call that does nothing.
ghost use Rattle.std.specs.Prelude.{◌≡◌, [], ◌∷◌, ◌++◌, List, true, false, if◌then◌else◌, None, Some};
ghost use Rattle.std.specs.List.{AllByRecursion, list_any};
ghost use Rattle.std.specs.Option.{option_map_or};
ghost use Rattle.np_addr.specs.declared.address.Family.{Family};
ghost use Rattle.np_model.specs.declared.lists.EstateLists.{EstateLists};
ghost use Rattle.np_model.specs.declared.admin_policy.AdminPolicy.{AdminPolicy};
ghost use Rattle.np_model.specs.declared.direction.Direction.{Direction};
ghost use Rattle.np_model.specs.declared.network_policy.NetPolicy.{NetPolicy};
ghost use Rattle.np_model.specs.declared.network_policy.NetRule.{NetRule};
ghost use Rattle.np_rules.specs.Prelude.{Contact, IsAmong, ModelEnd, ModelPacket, PlacedAdminRule, PodEnd, admin_candidates, admin_decider, admin_precedes, allows, decider, decider_allows, end_allows, has_networks, is_isolated, net_selects, permits, side_allows, subject_selects, with_net_policies, with_rule};

/// What decides a packet at an end says what that end's side says.
pub fn decider_gives_the_verdict()
    ensures { (lists : EstateLists) (direction : Direction) (end : ModelEnd) (contact : Contact) →
        decider_allows (decider lists direction end contact) ≡ end_allows lists direction end contact }
{}

/// Of the matching admin rules the one decides to which no other has a smaller priority, or the same and a smaller place.
/// None decides where none matches.
pub fn first_admin_rule_decides()
    ensures among { (policies : List AdminPolicy) (direction : Direction) (p : PodEnd) (contact : Contact) (placed : PlacedAdminRule) →
        admin_decider policies direction p contact ≡ Some placed →
        IsAmong placed (admin_candidates policies direction p contact) }
    ensures first { (policies : List AdminPolicy) (direction : Direction) (p : PodEnd) (contact : Contact) (placed : PlacedAdminRule) →
        admin_decider policies direction p contact ≡ Some placed →
        AllByRecursion (λ other. admin_precedes other placed ≡ false) (admin_candidates policies direction p contact) }
    ensures none { (policies : List AdminPolicy) (direction : Direction) (p : PodEnd) (contact : Contact) →
        admin_decider policies direction p contact ≡ None → admin_candidates policies direction p contact ≡ [] }
{}

/// A pod that no policy selects is free: each of its sides allows everything.
pub fn unselected_pods_are_free()
    ensures { (lists : EstateLists) (direction : Direction) (p : PodEnd) (contact : Contact) →
        list_any (λ policy. subject_selects policy.subject p) lists.admin_policies ≡ false →
        list_any (λ policy. net_selects policy p) lists.net_policies ≡ false →
        option_map_or (λ policy. subject_selects policy.subject p) lists.baseline false ≡ false →
        side_allows lists direction p contact ≡ true }
{}

/// Without admin policies and without a baseline, an isolated pod's side allows what some rule of a NetworkPolicy that
/// selects it matches, and any other pod's side everything.
pub fn network_policies_alone_isolate()
    ensures { (lists : EstateLists) (direction : Direction) (p : PodEnd) (contact : Contact) →
        lists.admin_policies ≡ [] → lists.baseline ≡ None →
        side_allows lists direction p contact
        ≡ (if is_isolated lists.net_policies direction p then permits lists.net_policies direction p contact else true) }
{}

/// Rules add up: one more rule of a NetworkPolicy never takes away what the side of an isolated pod allows.
pub fn rules_add_up()
    ensures { (lists : EstateLists) (front back : List NetPolicy) (policy : NetPolicy) (rule : NetRule) (direction : Direction) (p : PodEnd) (contact : Contact) →
        is_isolated (front ++ policy ∷ back) direction p ≡ true →
        side_allows (with_net_policies lists (front ++ policy ∷ back)) direction p contact ≡ true →
        side_allows (with_net_policies lists (front ++ with_rule direction rule policy ∷ back)) direction p contact ≡ true }
{}

/// Policies add up: one more NetworkPolicy never takes away what the side of an isolated pod allows.
pub fn policies_add_up()
    ensures { (lists : EstateLists) (front back : List NetPolicy) (policy : NetPolicy) (direction : Direction) (p : PodEnd) (contact : Contact) →
        is_isolated (front ++ back) direction p ≡ true →
        side_allows (with_net_policies lists (front ++ back)) direction p contact ≡ true →
        side_allows (with_net_policies lists (front ++ policy ∷ back)) direction p contact ≡ true }
{}

/// The family of a packet changes nothing where no admin rule and no rule of the baseline lists networks.
pub fn networks_alone_tell_families()
    ensures { (lists : EstateLists) (packet : ModelPacket) (family : Family) → has_networks lists ≡ false →
        allows lists (record packet { family = family }) ≡ allows lists packet }
{}
