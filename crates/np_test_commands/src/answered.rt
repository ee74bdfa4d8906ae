//! What the program answers on files in memory.

use np_base::{Seq, Text};
use np_cli::{Status, answer};
use np_io::Held;

// A policy lets `a` alone reach `b`, and that at one port.
static LIST: &str = concat!(
    r#"{"apiVersion":"v1","kind":"List","items":["#,
    r#"{"apiVersion":"v1","kind":"Pod","metadata":{"name":"a","labels":{"app":"a"}},"spec":{}},"#,
    r#"{"apiVersion":"v1","kind":"Pod","metadata":{"name":"b","labels":{"app":"b"}},"spec":{}},"#,
    r#"{"apiVersion":"networking.k8s.io/v1","kind":"NetworkPolicy","metadata":{"name":"p"},"spec":{"podSelector":{"matchLabels":{"app":"b"}},"ingress":[{"from":[{"podSelector":{"matchLabels":{"app":"a"}}}],"ports":[{"protocol":"TCP","port":80}]}]}}"#,
    "]}",
);

// The rows, by reading the policy: no address and no pod but `a` reaches `b`, and nothing else is shut.
static ROWS: &str = concat!(
    "default/a[Pod] => default/b[Pod] : TCP 80\n",
    "default/b[Pod] => default/a[Pod] : All Connections\n",
    "0.0.0.0/0 => default/a[Pod] : All Connections\n",
    "::/0 => default/a[Pod] : All Connections\n",
    "default/a[Pod] => 0.0.0.0/0 : All Connections\n",
    "default/a[Pod] => ::/0 : All Connections\n",
    "0.0.0.0/0 => default/b[Pod] : No Connections\n",
    "::/0 => default/b[Pod] : No Connections\n",
    "default/b[Pod] => 0.0.0.0/0 : All Connections\n",
    "default/b[Pod] => ::/0 : All Connections\n",
);

#[test]
fn example_answer(rt: HostRuntime) {
    let alloc = rt.alloc();
    let words = [
        String::from_str(alloc, "list").expect(&rt, "a word"),
        String::from_str(alloc, "cluster.json").expect(&rt, "a word"),
    ];
    let files = [Held {
        name: Text::of(alloc, "cluster.json").expect(&rt, "a name"),
        bytes: Seq::from_vec(Vec::from_slice(alloc, LIST.as_bytes()).expect(&rt, "bytes")),
    }];
    let answered = answer(alloc, &words, &files).expect(&rt, "an answer");
    assert!(rt; answered.report.items() == ROWS.as_bytes());
    assert!(rt; answered.said.items().is_empty());
    assert!(rt; answered.status == Status::Done);
}
