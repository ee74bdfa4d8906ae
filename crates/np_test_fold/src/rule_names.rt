//! The rules of a side, one after another, and those behind the places of a layer, by name.
ghost use Rattle.np_model.specs.Prelude.{IsFew};

use np_model::{NetPort, NetRule};
use np_rules::{LayerRules, PodRules, RuleId, SideRules};
use std::alloc::Global;
use std::process::Abort;

/// Stops the test unless the rules that speak at the side have their names, tier by tier, and the NetworkPolicy isolates the pod.
pub fn expect_names(rt: &impl Abort, alloc: Global, rules: &PodRules<'_>)
    requires { IsFew rules.now.lists }
{
    let names = rules.names(alloc).expect(rt, "names");
    assert!(rt; are_names(&names), "names of rules");
    let all = rules.rules(alloc).expect(rt, "rules");
    assert!(rt; are_rules(&all), "rules");
}

// The NetworkPolicy's rules are as written, that of TCP 80 and then that of TCP 81, and each of the others has one.
fn are_rules(all: &SideRules<'_>) -> bool {
    let [first, second] = all.net.as_slice() else {
        return false;
    };
    all.isolated
        && all.admin.len() == 1
        && all.base.len() == 1
        && is_for_port(first, 80)
        && is_for_port(second, 81)
}

// Whether the rule has one port entry, which begins at this port.
fn is_for_port(rule: &NetRule, port: u16) -> bool {
    match rule.ports.items() {
        [NetPort::Span { lo, .. }] => lo.get() == port,
        _ => false,
    }
}

// The NetworkPolicy has two rules, and each of the others one.
fn are_names(names: &LayerRules) -> bool {
    let first = RuleId {
        policy: 0,
        place: 0,
    };
    let second = RuleId {
        policy: 0,
        place: 1,
    };
    names.admin.items() == [first].as_slice()
        && names.net.items() == [first, second].as_slice()
        && names.base.items() == [first].as_slice()
        && names.isolating.items() == [0].as_slice()
}
