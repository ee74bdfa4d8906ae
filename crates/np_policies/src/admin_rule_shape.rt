//! Rules of admin policies.
ghost use Rattle.std.specs.Prelude.{◌≡◌};
ghost use Rattle.serde_json.specs.View.{view};
ghost use Rattle.np_json.specs.Prelude.{Gives};
ghost use Rattle.np_policies.specs.AdminPolicies as shapes;
ghost use Rattle.np_policies.specs.declared.admin_rule_shape.AdminKind.TheVariants as tiers;

use crate::admin_peer_shape::admin_peers;
use crate::admin_port_shape::AdminPortShape;
use crate::net_rule_shape::rules_member;
use np_base::Seq;
use np_json::{FaultKind, Shape, ShapeFault, listed, must_be_object, of_type, or_refuse, required};
use np_model::{Action, AdminRule, Direction};
use serde_json::Value;
use std::alloc::Global;

/// The two kinds of policies whose rules have actions.
#[derive(Clone, Copy)]
pub enum AdminKind {
    Admin,
    Baseline,
}

/// The rules of a direction.
#[tactic(auto, unfolding(crate::specs::AdminPolicies::admin_rules))]
pub(crate) fn admin_rules(
    alloc: Global,
    tier: AdminKind,
    direction: Direction,
    spec: &Value,
) -> Result<Seq<AdminRule>, ShapeFault>
    ensures { Gives result (shapes.admin_rules tier direction (view spec.now)) }
{
    let shape = AdminRuleShape { tier, direction };
    listed(alloc, spec, rules_member(direction), &shape)
}

// The shape of an entry of `ingress` or `egress` (network-policy-api reference, AdminNetworkPolicyIngressRule and
// AdminNetworkPolicyEgressRule): `action`, which is required, `from` or `to`, and `ports`.
#[derive(Drop)]
struct AdminRuleShape {
    tier: AdminKind,
    direction: Direction,
}

impl Shape for AdminRuleShape {
    type Output = AdminRule;

    ghost reads = { λ shape. shapes.admin_rule shape.tier shape.direction };

    #[tactic(auto, unfolding(crate::specs::AdminPolicies::admin_rule))]
    fn read(&self, alloc: Global, value: &Value) -> Result<AdminRule, ShapeFault> {
        must_be_object(alloc, value)?;
        let action = required(alloc, value, "action", &ActionName { tier: self.tier })?;
        let peers = admin_peers(alloc, self.direction, value)?;
        let ports = listed(alloc, value, "ports", &AdminPortShape)?;
        Ok(AdminRule {
            action,
            peers,
            ports,
        })
    }
}

// A text that names an action of such a policy. Another text is `BadAction`.
#[derive(Drop)]
struct ActionName {
    tier: AdminKind,
}

impl Shape for ActionName {
    type Output = Action;

    ghost reads = { λ shape. shapes.action shape.tier };

    #[tactic(auto, unfolding(crate::specs::AdminPolicies::action))]
    fn read(&self, alloc: Global, value: &Value) -> Result<Action, ShapeFault> {
        let text = of_type(alloc, value.as_str())?;
        or_refuse(alloc, action_named(self.tier, text), FaultKind::BadAction)
    }
}

fn action_named(tier: AdminKind, text: &str) -> Option<Action>
    ensures { result ≡ shapes.action_named tier text.now }
{
    match tier {
        AdminKind::Admin => admin_action(text),
        AdminKind::Baseline => baseline_action(text),
    }
}

// The action of that name of an admin policy.
fn admin_action(text: &str) -> Option<Action>
    ensures { result ≡ shapes.action_named tiers.Admin text.now }
{
    match text {
        "Allow" => Some(Action::Allow),
        "Deny" => Some(Action::Deny),
        "Pass" => Some(Action::Pass),
        _ => None,
    }
}

// The action of that name of a baseline, which passes nothing on.
fn baseline_action(text: &str) -> Option<Action>
    ensures { result ≡ shapes.action_named tiers.Baseline text.now }
{
    match text {
        "Allow" => Some(Action::Allow),
        "Deny" => Some(Action::Deny),
        _ => None,
    }
}
