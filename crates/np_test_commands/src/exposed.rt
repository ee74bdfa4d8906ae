//! What pods that nobody has written yet could reach, and be reached by.

use crate::asked::{Question, expect_answer};
use np_base::NoMemory;
use np_conns::print_conns;
use np_exposure::{ExposureFault, ExposureRow, exposure, print_peer, weight};
use np_model::{Direction, Estate};
use std::alloc::Global;

/// The rows of the exposure of a pod, or why there are none.
pub fn exposed_text(
    alloc: Global,
    estate: &Estate,
    pod: u32,
    direction: Direction,
) -> Result<String, NoMemory> {
    if pod as usize >= estate.pods().len() {
        return Ok(String::from_str(alloc, "no such pod")?);
    }
    match exposure(alloc, estate, pod, direction) {
        Ok(rows) => rows_text(alloc, rows.items()),
        Err(ExposureFault::TooManyPatterns { weight }) => {
            Ok(format!(in alloc; "TooManyPatterns {weight}")?)
        }
        Err(ExposureFault::NoMemory) => Err(NoMemory),
    }
}

// Rows of an exposure.
fn rows_text(alloc: Global, rows: &[ExposureRow]) -> Result<String, NoMemory> {
    let mut text = String::new(alloc);
    for row in rows {
        put_row(alloc, &mut text, row)?;
    }
    Ok(text)
}

fn put_row(alloc: Global, text: &mut String, row: &ExposureRow) -> Result<(), NoMemory> {
    let peer = print_peer(alloc, row)?;
    let conns = print_conns(alloc, &row.conns)?;
    Ok(writeln!(text, "{peer} : {conns}")?)
}

/// How many patterns there may be.
pub fn weight_text(
    alloc: Global,
    estate: &Estate,
    pod: u32,
    direction: Direction,
) -> Result<String, NoMemory> {
    if pod as usize >= estate.pods().len() {
        return Ok(String::from_str(alloc, "no such pod")?);
    }
    let weight = weight(alloc, estate, pod, direction)?;
    Ok(format!(in alloc; "{weight}")?)
}

// A peer of two selectors, and one of the policy's own namespace.
#[test]
fn example_exposure(rt: HostRuntime) {
    static LIST: &str = concat!(
        r#"{"apiVersion":"v1","kind":"List","items":["#,
        r#"{"apiVersion":"v1","kind":"Pod","metadata":{"name":"web","namespace":"shop"},"spec":{}},"#,
        r#"{"apiVersion":"networking.k8s.io/v1","kind":"NetworkPolicy","metadata":{"name":"p","namespace":"shop"},"spec":{"podSelector":{},"ingress":[{"from":[{"namespaceSelector":{"matchLabels":{"kubernetes.io/metadata.name":"monitoring"}},"podSelector":{"matchLabels":{"app":"prom"}}}],"ports":[{"port":9090}]},{"from":[{"podSelector":{}}]}]}}"#,
        "]}",
    );
    expect_answer(
        &rt,
        rt.alloc(),
        LIST,
        Question::Exposed(0, Direction::Ingress),
        concat!(
            "{namespace kubernetes.io/metadata.name In (monitoring) and pod app In (prom)} : TCP 9090\n",
            "{namespace kubernetes.io/metadata.name In (monitoring)} : No Connections\n",
            "{namespace kubernetes.io/metadata.name In (shop)} : All Connections\n",
            "{any pod} : No Connections\n",
        ),
    );
    expect_answer(
        &rt,
        rt.alloc(),
        LIST,
        Question::Exposed(0, Direction::Egress),
        "{any pod} : All Connections\n",
    );
    expect_answer(
        &rt,
        rt.alloc(),
        LIST,
        Question::Weight(0, Direction::Ingress),
        "12",
    );
}
