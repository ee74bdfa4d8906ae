//! Rules that are not known to be used, by the far ends that they speak of.
ghost use Rattle.std.specs.Prelude.{◌≡◌, false};
ghost use Rattle.std.specs.List.{slice_get};
ghost use Rattle.std.specs.Option.{option_map_or};
ghost use Rattle.np_unused.specs.steps.Known as known;
ghost use Rattle.np_unused.specs.steps.Unknown as spec;
ghost use Rattle.np_rules.specs.Prelude.{admin_rule_reaches, admin_rules_of, base_rules_of, pod, pod_end};

use crate::rule_ref::Tier;
use crate::used_rules::UsedRules;
use np_addr::Family;
use np_model::{AdminRule, BasePolicy, Direction, Estate, NetPolicy, Pod};
use np_rules::{
    LayerRules, RuleId, admin_rule_reaches, admin_rules_of, net_rule_reaches, net_rules_of,
};

/// A pod as the far end of the packets of a family, of which the rules of an estate may speak in a direction.
#[derive(Clone, Copy)]
pub(crate) struct FarPod<'a> {
    pub estate: &'a Estate,
    pub direction: Direction,
    pub pod: &'a Pod,
    pub family: Family,
}

impl FarPod<'_> {
    /// Whether a rule of a tier that is not known to be used speaks of it. Where none does, none of them decides anything with it.
    pub(crate) fn some_unknown_speaks(
        &self,
        tier: Tier,
        rules: &LayerRules,
        used: &UsedRules,
    ) -> bool
        ensures { result ≡ spec.some_unknown_speaks self.now.estate.now self.now.direction used.now rules.now tier
            (pod (pod_end self.now.pod.now)) self.now.family }
    {
        rules_of_tier(rules, tier).iter().any(|id| !used.has(tier, id.policy, id.place)
            && self.is_peer_of(tier, id))
    }

    // Whether the rule that has this name speaks of it, whatever the port is.
    fn is_peer_of(&self, tier: Tier, id: &RuleId) -> bool
        ensures { result ≡ spec.rule_speaks self.now.estate.now self.now.direction tier id.now
            (pod (pod_end self.now.pod.now)) self.now.family }
    {
        match tier {
            Tier::Admin => match self.estate.admin_policies().get(id.policy as usize) {
                Some(policy) => self.is_peer_of_admin_rule(
                    admin_rules_of(policy, self.direction),
                    id.place,
                ),
                None => false,
            },
            Tier::Net => match self.estate.net_policies().get(id.policy as usize) {
                Some(policy) => self.is_peer_of_net_rule(policy, id.place),
                None => false,
            },
            Tier::Base => match self.estate.baseline() {
                Some(policy) => self.is_peer_of_admin_rule(
                    base_rules_of(policy, self.direction),
                    id.place,
                ),
                None => false,
            },
        }
    }

    // Whether the admin rule at a place speaks of it.
    fn is_peer_of_admin_rule(&self, rules: &[AdminRule], place: u64) -> bool
        ensures { result ≡ option_map_or (admin_rule_reaches (pod (pod_end self.now.pod.now)) self.now.family)
            (slice_get rules.now place) false }
    {
        match rules.get(place as usize) {
            Some(rule) => admin_rule_reaches(rule, self.pod, self.family),
            None => false,
        }
    }

    // Whether the rule of a NetworkPolicy at a place speaks of it.
    fn is_peer_of_net_rule(&self, policy: &NetPolicy, place: u64) -> bool
        ensures { result ≡ spec.net_rule_speaks self.now.direction place (pod (pod_end self.now.pod.now)) policy.now }
    {
        let rules = match net_rules_of(policy, self.direction) {
            Some(rules) => rules,
            None => return false,
        };
        match rules.get(place as usize) {
            Some(rule) => net_rule_reaches(policy.namespace.as_str(), rule, self.pod),
            None => false,
        }
    }
}

// The rules of a tier, by name.
fn rules_of_tier(rules: &LayerRules, tier: Tier) -> &[RuleId]
    ensures { result.now ≡ known.ids_of rules.now tier }
{
    match tier {
        Tier::Admin => rules.admin.items(),
        Tier::Net => rules.net.items(),
        Tier::Base => rules.base.items(),
    }
}

// The rules of the baseline of a direction.
fn base_rules_of(policy: &BasePolicy, direction: Direction) -> &[AdminRule]
    ensures { result.now ≡ base_rules_of direction policy.now }
{
    match direction {
        Direction::Ingress => policy.ingress.items(),
        Direction::Egress => policy.egress.items(),
    }
}
