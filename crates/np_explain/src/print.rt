//! The text of what decides.
ghost use Rattle.std.specs.Prelude.{◌≡◌, IfOk, codes, string_bytes};
ghost use Rattle.np_explain.specs.DeciderText as spec;
ghost use Rattle.std.specs.List.{join_by};

use np_base::{NoMemory, Text};
use np_model::Direction;
use np_rules::{Decider, RuleName, direction_text, verdict_text};
use std::alloc::Global;

/// What decides packets at an end, as it is printed, with `ingress` or `egress` for `d`, and the rule's place from 0 for `n`:
/// `Allow since no pod is at this side`; `Allow by AdminNetworkPolicy name d[n]`; `Allow by NetworkPolicy namespace/name d[n]`;
/// `Deny since isolated by NetworkPolicy` and the policies' `namespace/name`, joined by `, `; `Allow by
/// BaselineAdminNetworkPolicy default d[n]`; `Allow by default`. An admin rule and one of the baseline may say `Deny` in place
/// of `Allow`. Where a rule with Pass was met, ` after Pass by AdminNetworkPolicy name d[n]` follows.
#[tactic(auto, unfolding(crate::specs::DeciderText::decider_text))]
pub fn print_decider(
    alloc: Global,
    direction: Direction,
    decider: &Decider,
) -> Result<Text, NoMemory>
    ensures { IfOk result (λ text. text ≡ spec.decider_text direction decider.now) }
{
    let text = match decider {
        Decider::NoSide => String::from_str(alloc, "Allow since no pod is at this side")?,
        Decider::Admin { rule, allow } => {
            let verdict = verdict_text(*allow);
            let rule = rule_text(alloc, direction, rule)?;
            format!(in alloc; "{verdict} by AdminNetworkPolicy {rule}")?
        }
        Decider::Net { pass, rule } => {
            let rule = rule_text(alloc, direction, rule)?;
            let pass = pass_text(alloc, direction, pass)?;
            format!(in alloc; "Allow by NetworkPolicy {rule}{pass}")?
        }
        Decider::Isolated { pass, policies } => {
            let policies = names_text(alloc, policies.names())?;
            let pass = pass_text(alloc, direction, pass)?;
            format!(in alloc; "Deny since isolated by NetworkPolicy {policies}{pass}")?
        }
        Decider::Base { pass, rule, allow } => {
            let verdict = verdict_text(*allow);
            let rule = rule_text(alloc, direction, rule)?;
            let pass = pass_text(alloc, direction, pass)?;
            format!(in alloc; "{verdict} by BaselineAdminNetworkPolicy {rule}{pass}")?
        }
        Decider::Free { pass } => {
            let pass = pass_text(alloc, direction, pass)?;
            format!(in alloc; "Allow by default{pass}")?
        }
    };
    Ok(Text::from_string(text))
}

// A rule: `name ingress[n]`.
fn rule_text(alloc: Global, direction: Direction, rule: &RuleName) -> Result<String, NoMemory>
    ensures { IfOk result (λ text. string_bytes text ≡ spec.rule_text direction rule.now) }
{
    let RuleName { policy, place } = rule;
    let direction = direction_text(direction);
    Ok(format!(in alloc; "{policy} {direction}[{place}]")?)
}

// The rule with Pass that was met first, if one was.
fn pass_text(
    alloc: Global,
    direction: Direction,
    pass: &Option<RuleName>,
) -> Result<String, NoMemory>
    ensures { IfOk result (λ text. string_bytes text ≡ spec.pass_text direction pass.now) }
{
    match pass {
        Some(rule) => {
            let rule = rule_text(alloc, direction, rule)?;
            Ok(format!(in alloc; " after Pass by AdminNetworkPolicy {rule}")?)
        }
        None => Ok(String::new(alloc)),
    }
}

// Names of policies, joined by `, `.
fn names_text(alloc: Global, names: &[Text]) -> Result<String, NoMemory>
    ensures { IfOk result (λ text. string_bytes text ≡ join_by (λ name. name) (codes ", ") names.now) }
{
    let mut text = String::new(alloc);
    let Some((first, others)) = names.split_first() else {
        return Ok(text);
    };
    text.push_str(first.as_str())?;
    for name in others {
        text.push_str(", ")?;
        text.push_str(name.as_str())?;
    }
    Ok(text)
}
