//! Which rule decides between two pods.

use crate::asked::{Question, expect_answer};
use np_addr::Family;
use np_base::{NoMemory, Seq, Text};
use np_conns::print_conns;
use np_explain::{Flow, Part, explain, print_decider};
use np_fold::Folded;
use np_model::Direction;
use np_rules::{Decider, End, PolicyNames};
use std::alloc::Global;
use std::process::Abort;

/// What decides between two pods at a side.
pub fn explained_text(
    alloc: Global,
    folded: &Folded,
    source: u32,
    destination: u32,
    direction: Direction,
) -> Result<String, NoMemory> {
    let estate = folded.estate();
    let count = estate.pods().len();
    if source as usize >= count || destination as usize >= count || source == destination {
        return Ok(String::from_str(alloc, "no two pods")?);
    }
    let flow = Flow {
        source: End::Pod(source),
        destination: End::Pod(destination),
        family: Family::Four,
    };
    let parts = explain(alloc, estate, &flow, direction)?;
    parts_text(alloc, direction, parts.items())
}

// A line for each part.
fn parts_text(alloc: Global, direction: Direction, parts: &[Part]) -> Result<String, NoMemory> {
    let mut text = String::new(alloc);
    for part in parts {
        put_part(alloc, &mut text, direction, part)?;
    }
    Ok(text)
}

fn put_part(
    alloc: Global,
    text: &mut String,
    direction: Direction,
    part: &Part,
) -> Result<(), NoMemory> {
    let conns = print_conns(alloc, &part.conns)?;
    let decider = print_decider(alloc, direction, &part.decider)?;
    Ok(writeln!(text, "{conns} : {decider}")?)
}

// A rule of the baseline, and none, after a Pass.
#[test]
fn example_explain(rt: HostRuntime) {
    static LIST: &str = concat!(
        r#"{"apiVersion":"v1","kind":"List","items":["#,
        r#"{"apiVersion":"v1","kind":"Pod","metadata":{"name":"a"},"spec":{},"status":{"podIP":"10.0.0.1"}},"#,
        r#"{"apiVersion":"v1","kind":"Pod","metadata":{"name":"b"},"spec":{},"status":{"podIP":"10.0.0.2"}},"#,
        r#"{"apiVersion":"policy.networking.k8s.io/v1alpha1","kind":"AdminNetworkPolicy","metadata":{"name":"five"},"spec":{"priority":5,"subject":{"namespaces":{}},"egress":[{"action":"Pass","to":[{"namespaces":{}}]}]}},"#,
        r#"{"apiVersion":"policy.networking.k8s.io/v1alpha1","kind":"AdminNetworkPolicy","metadata":{"name":"six"},"spec":{"priority":6,"subject":{"namespaces":{}},"egress":[{"action":"Deny","to":[{"networks":["0.0.0.0/0"]}]}]}},"#,
        r#"{"apiVersion":"policy.networking.k8s.io/v1alpha1","kind":"BaselineAdminNetworkPolicy","metadata":{"name":"default"},"spec":{"subject":{"namespaces":{}},"egress":[{"action":"Deny","to":[{"namespaces":{}}],"ports":[{"portNumber":{"protocol":"TCP","port":23}}]}]}}"#,
        "]}",
    );
    expect_answer(
        &rt,
        rt.alloc(),
        LIST,
        Question::Explained(0, 1, Direction::Egress),
        concat!(
            "TCP 1-22,24-65535; UDP 1-65535; SCTP 1-65535 : Allow by default after Pass by AdminNetworkPolicy five egress[0]\n",
            "TCP 23 : Deny by BaselineAdminNetworkPolicy default egress[0] after Pass by AdminNetworkPolicy five egress[0]\n",
        ),
    );
    expect_answer(
        &rt,
        rt.alloc(),
        LIST,
        Question::Explained(0, 1, Direction::Ingress),
        "All Connections : Allow by default\n",
    );
}

// The names of two policies.
fn two_names(rt: &impl Abort, alloc: Global) -> PolicyNames {
    let mut names = Seq::new(alloc);
    names
        .push(Text::of(alloc, "shop/open").expect(rt, "a name"))
        .expect(rt, "a list");
    names
        .push(Text::of(alloc, "shop/shut").expect(rt, "a name"))
        .expect(rt, "a list");
    PolicyNames::of(alloc, names).expect(rt, "names")
}

// Stops the test unless that is the text of a decider.
fn expect_decider(rt: &impl Abort, alloc: Global, decider: &Decider, wanted: &str) {
    let text = print_decider(alloc, Direction::Ingress, decider).expect(rt, "a text");
    assert!(rt; text.as_str() == wanted, "{text}");
}

// A decider that holds a list of names of which another one is held.
#[test]
fn names_are_shared(rt: HostRuntime) {
    let names = two_names(&rt, rt.alloc());
    let policies = names.share().expect(&rt, "shared names");
    assert!(rt; policies.names() == names.names());
    let pass = None;
    let decider = Decider::Isolated { pass, policies };
    let wanted = "Deny since isolated by NetworkPolicy shop/open, shop/shut";
    expect_decider(&rt, rt.alloc(), &decider, wanted);
}
