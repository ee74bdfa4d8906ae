//! Statements about a cluster, and how they are broken.
ghost use Rattle.std.specs.Prelude.{All};
ghost use Rattle.np_statements.specs.Prelude.{HasPlaces, IsWellLine};

use crate::asked::{Question, expect_answer};
use np_base::{NoMemory, Seq};
use np_check::Wanted;
use np_conns::print_conns;
use np_fold::Folded;
use np_statements::{
    Broken, EndForm, StatementLine, first_broken, print_broken, read_statement, read_statements,
};
use std::alloc::Global;

/// How the first line of a file that does not hold is broken, or that all hold, or why the file is refused.
pub fn broken_text(alloc: Global, folded: &Folded, file: &str) -> Result<String, NoMemory> {
    match read_statements(alloc, file.as_bytes()) {
        Ok(lines) => first_text(alloc, folded, lines),
        Err(fault) => Ok(format!(in alloc; "{fault}")?),
    }
}

// How the first of these lines that does not hold is broken, or that all hold, or which end is not known.
fn first_text(alloc: Global, folded: &Folded, lines: Seq<StatementLine>) -> Result<String, NoMemory>
    requires { All IsWellLine lines }
{
    match first_broken(alloc, folded, lines) {
        Ok(Some(broken)) => line_text(alloc, folded, &broken),
        Ok(None) => Ok(String::from_str(alloc, "all hold")?),
        Err(fault) => Ok(format!(in alloc; "{fault}")?),
    }
}

fn line_text(alloc: Global, folded: &Folded, broken: &Broken) -> Result<String, NoMemory>
    requires { HasPlaces folded.now broken.now }
{
    let printed = print_broken(alloc, folded, broken)?;
    Ok(String::from_str(alloc, printed.as_str())?)
}

#[test]
fn example_first_broken(rt: HostRuntime) {
    static LIST: &str = concat!(
        r#"{"apiVersion":"v1","kind":"List","items":["#,
        r#"{"apiVersion":"v1","kind":"Pod","metadata":{"name":"a","labels":{"app":"a"}},"spec":{}},"#,
        r#"{"apiVersion":"v1","kind":"Pod","metadata":{"name":"b","labels":{"app":"b"}},"spec":{}},"#,
        r#"{"apiVersion":"networking.k8s.io/v1","kind":"NetworkPolicy","metadata":{"name":"p"},"spec":{"podSelector":{"matchLabels":{"app":"b"}},"ingress":[{"from":[{"podSelector":{"matchLabels":{"app":"a"}}}],"ports":[{"protocol":"TCP","port":80}]}]}}"#,
        "]}",
    );
    expect_answer(
        &rt,
        rt.alloc(),
        LIST,
        Question::Broken(concat!(
            "deny any address => workload default/b[Pod] : All Connections\n",
            "allow workload default/a[Pod] => workload default/b[Pod] : TCP 80\n",
        )),
        "all hold",
    );
    expect_answer(
        &rt,
        rt.alloc(),
        LIST,
        Question::Broken(concat!(
            "deny any address => workload default/b[Pod] : All Connections\n",
            "allow workload default/a[Pod] => workload default/b[Pod] : TCP 80-81\n",
        )),
        "line 2: default/a[Pod] => default/b[Pod] : TCP 81 : Deny",
    );
    expect_answer(
        &rt,
        rt.alloc(),
        LIST,
        Question::Broken("allow any pod => workload default/q[Pod] : TCP 1"),
        "no workload is named default/q[Pod]",
    );
    expect_answer(
        &rt,
        rt.alloc(),
        LIST,
        Question::Broken("\nallow"),
        "line 2 is no statement",
    );
}

#[test]
fn example_read_statement(rt: HostRuntime) {
    let line = "deny any pod => any address : TCP 80";
    let Ok(statement) = read_statement(rt.alloc(), line) else {
        panic!(rt; "the line is a statement")
    };
    assert!(rt; matches!(statement.wanted, Wanted::Deny));
    assert!(rt; matches!(statement.source, EndForm::Pods));
    assert!(rt; matches!(statement.destination, EndForm::Addresses));
    let text = print_conns(rt.alloc(), &statement.conns).expect(&rt, "a text");
    assert!(rt; text.as_str() == "TCP 80");
}
