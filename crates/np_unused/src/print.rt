//! The text of a rule.
ghost use Rattle.std.specs.Prelude.{◌≡◌, ◌<◌, IfOk};
ghost use Rattle.np_unused.specs.Prelude.{IsRuleOf, policy_name_at, rule_count_at, tier_rule_text, tier_text};

use crate::rule_ref::{RuleRef, Tier};
use np_base::{NoMemory, Text};
use np_model::Estate;
use np_rules::direction_text;
use std::alloc::Global;

/// A rule, as it is printed, with `ingress` or `egress` for `d` and its place for `n`: `AdminNetworkPolicy name d[n]`,
/// `NetworkPolicy namespace/name d[n]` or `BaselineAdminNetworkPolicy default d[n]`. The rule is one of the estate.
#[tactic(auto, unfolding(crate::specs::Rules::tier_rule_text))]
pub fn print_rule(alloc: Global, estate: &Estate, rule: &RuleRef) -> Result<Text, NoMemory>
    requires { IsRuleOf estate.now rule.now }
    ensures { IfOk result (λ text. text ≡ tier_rule_text estate.now rule.now) }
{
    let tier = tier_text(rule.tier);
    let policy = policy_name(alloc, estate, rule)?;
    let direction = direction_text(rule.direction);
    let place = rule.place;
    Ok(Text::from_string(format!(in alloc; "{tier} {policy} {direction}[{place}]")?))
}

fn tier_text(tier: Tier) -> &'static str
    ensures { result.now ≡ tier_text tier }
{
    match tier {
        Tier::Admin => "AdminNetworkPolicy",
        Tier::Net => "NetworkPolicy",
        Tier::Base => "BaselineAdminNetworkPolicy",
    }
}

// The name of the policy of a rule.
fn policy_name(alloc: Global, estate: &Estate, rule: &RuleRef) -> Result<Text, NoMemory>
    requires { IsRuleOf estate.now rule.now }
    ensures { IfOk result (λ name. name ≡ policy_name_at estate.now rule.now.tier rule.now.policy) }
{
    let place = rule.policy as usize;
    match rule.tier {
        Tier::Admin => estate.admin_policies()[place].name.copy(),
        Tier::Net => {
            let policy = &estate.net_policies()[place];
            let (namespace, name) = (&policy.namespace, &policy.name);
            Ok(Text::from_string(format!(in alloc; "{namespace}/{name}")?))
        }
        Tier::Base => Text::of(alloc, "default"),
    }
}
