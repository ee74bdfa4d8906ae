//! What comes to workloads through Ingresses.

use crate::asked::{Question, expect_answer};
use np_base::{NoMemory, Steps};
use np_conns::{ConnSet, print_conns};
use np_fold::Folded;
use np_model::Estate;
use np_routes::{ingress_set, route_notes};
use std::alloc::Global;
use std::sync::ledger::Ledger;

/// The ports of a workload that are reached.
pub fn reached_text<L: Ledger>(
    alloc: Global,
    folded: &Folded,
    controller: Option<u32>,
    workload: u32,
    steps: &mut Steps<L>,
) -> Result<String, NoMemory> {
    let count = folded.workloads().count();
    if workload >= count || controller.unwrap_or(0) >= count {
        return Ok(String::from_str(alloc, "no such workload")?);
    }
    let set = ingress_set(alloc, folded, controller, workload, steps)?;
    conns_text(alloc, &set)
}

fn conns_text(alloc: Global, conns: &ConnSet) -> Result<String, NoMemory> {
    let text = print_conns(alloc, conns)?;
    Ok(String::from_str(alloc, text.as_str())?)
}

/// The backends that have a flaw.
pub fn flaws_text(alloc: Global, estate: &Estate) -> Result<String, NoMemory> {
    let mut text = String::new(alloc);
    for note in route_notes(alloc, estate)?.items() {
        writeln!(text, "{note}")?;
    }
    Ok(text)
}

// A named port that one pod of two has, and a policy that opens it; a backend that names no Service.
#[test]
fn example_ingress_set(rt: HostRuntime) {
    static LIST: &str = concat!(
        r#"{"apiVersion":"v1","kind":"List","items":["#,
        r#"{"apiVersion":"v1","kind":"Pod","metadata":{"name":"x","labels":{"app":"web"}},"spec":{"containers":[{"ports":[{"name":"http","containerPort":8080}]}]}},"#,
        r#"{"apiVersion":"v1","kind":"Pod","metadata":{"name":"y","labels":{"app":"web"}},"spec":{}},"#,
        r#"{"apiVersion":"v1","kind":"Service","metadata":{"name":"web"},"spec":{"selector":{"app":"web"},"ports":[{"name":"web","port":80,"targetPort":"http"}]}},"#,
        r#"{"apiVersion":"networking.k8s.io/v1","kind":"Ingress","metadata":{"name":"i"},"spec":{"defaultBackend":{"service":{"name":"web","port":{"name":"web"}}},"rules":[{"http":{"paths":[{"backend":{"service":{"name":"gone","port":{"number":80}}}}]}}]}},"#,
        r#"{"apiVersion":"networking.k8s.io/v1","kind":"NetworkPolicy","metadata":{"name":"p"},"spec":{"podSelector":{},"ingress":[{"ports":[{"port":8080}]}]}}"#,
        "]}",
    );
    expect_answer(
        &rt,
        rt.alloc(),
        LIST,
        Question::Reached(None, 0),
        "TCP 8080",
    );
    expect_answer(
        &rt,
        rt.alloc(),
        LIST,
        Question::Reached(None, 1),
        "No Connections",
    );
    expect_answer(
        &rt,
        rt.alloc(),
        LIST,
        Question::Reached(Some(1), 0),
        "TCP 8080",
    );
    expect_answer(
        &rt,
        rt.alloc(),
        LIST,
        Question::Reached(Some(0), 0),
        "No Connections",
    );
    expect_answer(
        &rt,
        rt.alloc(),
        LIST,
        Question::Flaws,
        "item 4: backend 2: NoService\n",
    );
}
