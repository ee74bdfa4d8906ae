//! Reports of the rows of a table in their three forms.

use np_base::Text;
use np_io::MemSink;
use np_report::{CsvReport, Form, FormReport, JsonReport, RowText, TextReport};
use std::alloc::Global;
use std::process::Abort;

// A row from a workload, whose other end and connections have commas.
fn row(rt: &impl Abort, alloc: Global) -> RowText {
    RowText {
        source: Text::of(alloc, "default/a[Pod]").expect(rt, "a source"),
        destination: Text::of(alloc, "0.0.0.0/5,8.0.0.0/7").expect(rt, "a destination"),
        connections: Text::of(alloc, "TCP 80-90,92").expect(rt, "connections"),
    }
}

// Stops the test unless a report of that row writes this, to a sink that takes a few bytes at a time.
fn expect_report<F: Form>(rt: &impl Abort, alloc: Global, mut report: FormReport<F>, wanted: &str) {
    let row = row(rt, alloc);
    let mut out = MemSink::new(alloc, 512, 7).expect(rt, "a sink");
    report.row(&mut out, &row).expect(rt, "a row");
    report.finish(&mut out).expect(rt, "an end");
    assert!(rt; out.taken() == wanted.as_bytes());
}

#[test]
fn example_text_report(rt: HostRuntime) {
    let wanted = "default/a[Pod] => 0.0.0.0/5,8.0.0.0/7 : TCP 80-90,92\n";
    expect_report(&rt, rt.alloc(), TextReport::new(rt.alloc()), wanted);
}

#[test]
fn example_csv_report(rt: HostRuntime) {
    let wanted = concat!(
        "source,destination,connections\n",
        "default/a[Pod],\"0.0.0.0/5,8.0.0.0/7\",\"TCP 80-90,92\"\n",
    );
    expect_report(&rt, rt.alloc(), CsvReport::new(rt.alloc()), wanted);
}

#[test]
fn example_json_report(rt: HostRuntime) {
    let wanted = concat!(
        r#"[{"connections":"TCP 80-90,92","destination":"0.0.0.0/5,8.0.0.0/7","source":"default/a[Pod]"}]"#,
        "\n",
    );
    expect_report(&rt, rt.alloc(), JsonReport::new(rt.alloc()), wanted);
}
