//! The rules that decide nothing.
ghost use Rattle.std.specs.Prelude.{All};
ghost use Rattle.np_unused.specs.Prelude.{IsRuleOf};

use crate::asked::{Question, expect_answer};
use np_base::NoMemory;
use np_fold::Folded;
use np_model::Estate;
use np_unused::{RuleRef, print_rule, unused_rules};
use std::alloc::Global;

/// A line for each rule that decides nothing.
pub fn unused_text(alloc: Global, folded: &Folded) -> Result<String, NoMemory> {
    let rules = unused_rules(alloc, folded)?;
    rules_text(alloc, folded.estate(), rules.items())
}

// A line for each of some rules.
fn rules_text(alloc: Global, estate: &Estate, rules: &[RuleRef]) -> Result<String, NoMemory>
    requires { All (IsRuleOf estate.now) rules.now }
{
    let mut text = String::new(alloc);
    for rule in rules {
        let printed = print_rule(alloc, estate, rule)?;
        writeln!(text, "{printed}")?;
    }
    Ok(text)
}

// Of two policies with the same rule the one of the lesser name decides.
#[test]
fn example_unused_rules(rt: HostRuntime) {
    static LIST: &str = concat!(
        r#"{"apiVersion":"v1","kind":"List","items":["#,
        r#"{"apiVersion":"v1","kind":"Pod","metadata":{"name":"a","labels":{"app":"a"}},"spec":{}},"#,
        r#"{"apiVersion":"v1","kind":"Pod","metadata":{"name":"b","labels":{"app":"b"}},"spec":{}},"#,
        r#"{"apiVersion":"networking.k8s.io/v1","kind":"NetworkPolicy","metadata":{"name":"q"},"spec":{"podSelector":{"matchLabels":{"app":"b"}},"ingress":[{"from":[{"podSelector":{"matchLabels":{"app":"a"}}}],"ports":[{"protocol":"TCP","port":80}]}]}},"#,
        r#"{"apiVersion":"networking.k8s.io/v1","kind":"NetworkPolicy","metadata":{"name":"p"},"spec":{"podSelector":{"matchLabels":{"app":"b"}},"ingress":[{"from":[{"podSelector":{"matchLabels":{"app":"a"}}}],"ports":[{"protocol":"TCP","port":80}]}]}}"#,
        "]}",
    );
    expect_answer(
        &rt,
        rt.alloc(),
        LIST,
        Question::Unused,
        "NetworkPolicy default/q ingress[0]\n",
    );
}
