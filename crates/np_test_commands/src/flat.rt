//! NetworkPolicies that alone give the verdicts of all policies, as JSON.

use crate::asked::{Question, expect_answer};
use np_base::NoMemory;
use np_flatten::{Flat, flatten};
use np_fold::Folded;
use np_manifests::print_policy;
use std::alloc::Global;
use std::str::from_utf8;

/// A line for each of the policies, or why there are none.
pub fn flat_text(alloc: Global, folded: &Folded) -> Result<String, NoMemory> {
    match flatten(alloc, folded) {
        Ok(mut flat) => policies_text(alloc, &mut flat),
        Err(fault) => Ok(format!(in alloc; "{fault}")?),
    }
}

fn policies_text(alloc: Global, flat: &mut Flat<'_>) -> Result<String, NoMemory> {
    let mut text = String::new(alloc);
    for group in 0..flat.count() {
        let policy = flat.policy(group)?;
        let printed = print_policy(alloc, &policy)?;
        text.push_str(from_utf8(&printed).unwrap_or("no text"))?;
        text.push_str("\n")?;
    }
    Ok(text)
}

// Two groups of one workload each.
#[test]
fn example_flatten(rt: HostRuntime) {
    static LIST: &str = concat!(
        r#"{"apiVersion":"v1","kind":"List","items":["#,
        r#"{"apiVersion":"v1","kind":"Pod","metadata":{"name":"a","labels":{"app":"a"}},"spec":{}},"#,
        r#"{"apiVersion":"v1","kind":"Pod","metadata":{"name":"b","labels":{"app":"b"}},"spec":{}},"#,
        r#"{"apiVersion":"networking.k8s.io/v1","kind":"NetworkPolicy","metadata":{"name":"p"},"spec":{"podSelector":{"matchLabels":{"app":"b"}},"ingress":[{"from":[{"podSelector":{"matchLabels":{"app":"a"}}}],"ports":[{"protocol":"TCP","port":80}]}]}}"#,
        "]}",
    );
    expect_answer(
        &rt,
        rt.alloc(),
        LIST,
        Question::Flat,
        concat!(
            r#"{"apiVersion":"networking.k8s.io/v1","kind":"NetworkPolicy","metadata":{"name":"flat-0","namespace":"default"},"spec":{"egress":[{"to":[{"namespaceSelector":{}}]},{"to":[{"ipBlock":{"cidr":"0.0.0.0/0"}}]},{"to":[{"ipBlock":{"cidr":"::/0"}}]}],"ingress":[{"from":[{"namespaceSelector":{"matchExpressions":[{"key":"kubernetes.io/metadata.name","operator":"In","values":["default"]}]},"podSelector":{"matchExpressions":[{"key":"app","operator":"In","values":["b"]}]}}]},{"from":[{"ipBlock":{"cidr":"0.0.0.0/0"}}]},{"from":[{"ipBlock":{"cidr":"::/0"}}]}],"podSelector":{"matchExpressions":[{"key":"app","operator":"In","values":["a"]}]},"policyTypes":["Ingress","Egress"]}}"#,
            "\n",
            r#"{"apiVersion":"networking.k8s.io/v1","kind":"NetworkPolicy","metadata":{"name":"flat-1","namespace":"default"},"spec":{"egress":[{"to":[{"namespaceSelector":{}}]},{"to":[{"ipBlock":{"cidr":"0.0.0.0/0"}}]},{"to":[{"ipBlock":{"cidr":"::/0"}}]}],"ingress":[{"from":[{"namespaceSelector":{"matchExpressions":[{"key":"kubernetes.io/metadata.name","operator":"In","values":["default"]}]},"podSelector":{"matchExpressions":[{"key":"app","operator":"In","values":["a"]}]}}],"ports":[{"port":80,"protocol":"TCP"}]}],"podSelector":{"matchExpressions":[{"key":"app","operator":"In","values":["b"]}]},"policyTypes":["Ingress","Egress"]}}"#,
            "\n",
        ),
    );
}
