//! Whether explanations are alike.
ghost use Rattle.std.specs.Prelude.{◌≡◌, ◌↔◌, IsTrue};
ghost use Rattle.std.specs.Option.{option_eq};
ghost use Rattle.np_explain.specs.Explanations as spec;
ghost use Rattle.np_explain.specs.Prelude.{same_decider, same_rule};

use crate::explanation::Explanation;
use crate::part::Part;
use np_base::Cells;
use np_rules::{Decider, RuleName};

/// Whether two explanations have the same parts at both sides of their ends: the same that decide, in the same order, with
/// the same protocols and ports.
pub fn same_sides(one: &Explanation, other: &Explanation) -> bool
    ensures same { result ≡ spec.same_sides one.now other.now }
    ensures equal { IsTrue result ↔ ((one.now.egress ≡ other.now.egress) × (one.now.ingress ≡ other.now.ingress)) }
{
    same_parts(one.egress.items(), other.egress.items())
        && same_parts(one.ingress.items(), other.ingress.items())
}

// Whether two lists of parts are equal.
#[tactic(auto, unfolding(crate::specs::Explanations::same_parts))]
fn same_parts(these: &[Part], those: &[Part]) -> bool
    ensures { result ≡ spec.same_parts these.now those.now }
{
    let mut left = these;
    let mut right = those;
    while let Some((first, left_rest)) = left.split_first() {
        let Some((second, right_rest)) = right.split_first() else {
            return false;
        };
        if !same_part(first, second) {
            return false;
        }
        left = left_rest;
        right = right_rest;
    }
    right.is_empty()
}

#[tactic(auto, using(crate::proofs::ExplanationLemmas::same_conns_answer))]
fn same_part(one: &Part, other: &Part) -> bool
    ensures { result ≡ spec.same_part one.now other.now }
{
    same_decider(&one.decider, &other.decider) && one.conns.same(&other.conns)
}

#[tactic(auto, unfolding(crate::specs::RightParts::same_decider))]
fn same_decider(one: &Decider, other: &Decider) -> bool
    ensures { result ≡ same_decider one.now other.now }
{
    match (one, other) {
        (Decider::NoSide, Decider::NoSide) => true,
        (
            Decider::Admin { rule, allow },
            Decider::Admin {
                rule: second,
                allow: allows,
            },
        ) => same_rule(rule, second) && allow == allows,
        (
            Decider::Net { pass, rule },
            Decider::Net {
                pass: passed,
                rule: second,
            },
        ) => same_pass(pass, passed) && same_rule(rule, second),
        (
            Decider::Isolated { pass, policies },
            Decider::Isolated {
                pass: passed,
                policies: others,
            },
        ) => same_pass(pass, passed) && policies.names() == others.names(),
        (
            Decider::Base { pass, rule, allow },
            Decider::Base {
                pass: passed,
                rule: second,
                allow: allows,
            },
        ) => same_pass(pass, passed) && same_rule(rule, second) && allow == allows,
        (Decider::Free { pass }, Decider::Free { pass: passed }) => same_pass(pass, passed),
        _ => false,
    }
}

// Whether the same rule with Pass was met first, or none was.
fn same_pass(one: &Option<RuleName>, other: &Option<RuleName>) -> bool
    ensures { result ≡ option_eq same_rule one.now other.now }
{
    match (one, other) {
        (Some(rule), Some(second)) => same_rule(rule, second),
        (None, None) => true,
        _ => false,
    }
}

fn same_rule(one: &RuleName, other: &RuleName) -> bool
    ensures { result ≡ same_rule one.now other.now }
{
    one.policy.as_str() == other.policy.as_str() && one.place == other.place
}
