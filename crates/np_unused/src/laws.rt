//! What follows from the definitions. Each law is the contract of a call that does nothing.
ghost use Rattle.std.specs.Prelude.{◌≡◌, ◌↔◌, AllPairs};
ghost use Rattle.std.specs.List.{Contains};
ghost use Rattle.np_addr.specs.declared.address.Family.{Family};
ghost use Rattle.np_conns.specs.declared.port_spot.PortSpot.{PortSpot};
ghost use Rattle.np_model.specs.Prelude.{IsLawful};
ghost use Rattle.np_model.specs.declared.lists.EstateLists.{EstateLists};
ghost use Rattle.np_explain.specs.Prelude.{packet_between};
ghost use Rattle.np_unused.specs.Prelude.{IsListedPacket, IsRuleOf, StandsBefore, StandsIn, unused_of, without};
ghost use Rattle.np_unused.specs.declared.rule_ref.RuleRef.{RuleRef};
ghost use Rattle.np_rules.specs.Prelude.{allows};
ghost use Rattle.np_rules.specs.declared.packet.End.{End};

/// A rule is among the unused ones exactly where it is a rule of the estate and stands in what decides no packet between
/// listed ends, also not as the rule with `Pass` that was met. Listed ends are the estate's pods and all addresses.
pub fn unused_rules_decide_nothing()
    ensures { (lists : EstateLists) (rule : RuleRef) → Contains (unused_of lists) rule
        ↔ (IsRuleOf lists rule × ((source destination : End) (family : Family) (spot : PortSpot) →
        IsListedPacket lists source destination family spot → StandsIn lists rule source destination family spot → ⊥)) }
{}

/// The unused rules stand in order, so that none stands twice: by the tier, then by the place of the policy among those of its
/// tier, then ingress before egress, and then by the place of the rule.
pub fn unused_rules_stand_in_order()
    ensures { (lists : EstateLists) → AllPairs StandsBefore (unused_of lists) }
{}

/// Unused rules change nothing: in the estate without all of them, where policies stay and NetworkPolicies keep their types,
/// each packet between listed ends is allowed or denied as before.
pub fn unused_rules_change_nothing()
    ensures { (lists : EstateLists) → IsLawful lists → (source destination : End) (family : Family) (spot : PortSpot) →
        IsListedPacket lists source destination family spot →
        allows (without lists (unused_of lists)) (packet_between lists source destination family spot)
        ≡ allows lists (packet_between lists source destination family spot) }
{}
