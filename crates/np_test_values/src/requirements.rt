//! Requirements on labels, selectors, and what is possible, by example. More selectors stand in transcripts/selectors.txt.

use np_base::{Seq, Text};
use np_labels::{Labels, Op, Pair, Requirement, Selector, possible};
use std::alloc::Global;
use std::process::Abort;

// A text.
fn text(rt: &impl Abort, alloc: Global, text: &str) -> Text {
    Text::of(alloc, text).expect(rt, "a text")
}

// These values, apart by spaces.
fn values(rt: &impl Abort, alloc: Global, values: &str) -> Seq<Text> {
    let mut listed = Seq::new(alloc);
    for value in values.split_whitespace() {
        listed.push(text(rt, alloc, value)).expect(rt, "a value");
    }
    listed
}

// The requirement of a key with these values, apart by spaces.
fn requirement(rt: &impl Abort, alloc: Global, key: &str, op: Op, listed: &str) -> Requirement {
    let values = values(rt, alloc, listed);
    Requirement::of(alloc, text(rt, alloc, key), op, values).expect(rt, "a requirement")
}

// The one label `app` of this value.
fn app(rt: &impl Abort, alloc: Global, value: &str) -> Labels {
    let key = text(rt, alloc, "app");
    let value = text(rt, alloc, value);
    let mut pairs = Seq::new(alloc);
    pairs.push(Pair { key, value }).expect(rt, "a pair");
    Labels::of(alloc, pairs).expect(rt, "labels")
}

// A key, what is asked of it, and values.
type Asked = (&'static str, Op, &'static str);

// Stops the test unless labels meet a requirement, and not its opposite, or the other way round.
fn expect_met(rt: &impl Abort, alloc: Global, labels: &Labels, asked: &Asked, wanted: bool) {
    let requirement = requirement(rt, alloc, asked.0, asked.1, asked.2);
    let opposite = requirement.negated().expect(rt, "its opposite");
    assert!(rt; requirement.meets(labels) == wanted && opposite.meets(labels) != wanted);
}

// Kubernetes API reference, "Resources that support set-based requirements": `NotIn` is met where the key is absent. A manifest
// with a requirement of no values is refused, so that no transcript shows one.
#[test]
fn requirements_by_example(rt: HostRuntime) {
    let alloc = rt.alloc();
    let labels = app(&rt, alloc, "c");
    expect_met(&rt, alloc, &labels, &("app", Op::OneOf, "d b a c b"), true);
    expect_met(&rt, alloc, &labels, &("app", Op::OneOf, "b cc d"), false);
    expect_met(&rt, alloc, &labels, &("app", Op::OneOf, ""), false);
    expect_met(&rt, alloc, &labels, &("app", Op::NoneOf, ""), true);
    expect_met(&rt, alloc, &labels, &("tier", Op::NoneOf, "c"), true);
}

// A copy of a requirement has its values in their order, each once.
#[test]
fn values_in_order(rt: HostRuntime) {
    let copied = requirement(&rt, rt.alloc(), "app", Op::OneOf, "b a b").copy();
    let copied = copied.expect(&rt, "a copy");
    assert!(rt; are_in_order(copied.values.items()));
}

fn are_in_order(values: &[Text]) -> bool {
    match values {
        [first, second] => first.as_str() == "a" && second.as_str() == "b",
        _ => false,
    }
}

// A copy of the selector of the label `app` of the value `a`.
fn selector(rt: &impl Abort, alloc: Global) -> Selector {
    let mut labels = Seq::new(alloc);
    labels
        .push((text(rt, alloc, "app"), text(rt, alloc, "a")))
        .expect(rt, "a label");
    let selector = Selector::of_labels(alloc, labels).expect(rt, "a selector");
    selector.copy().expect(rt, "a copy")
}

// Whether the label `app` of this value meets a selector.
fn is_selected(rt: &impl Abort, alloc: Global, selector: &Selector, value: &str) -> bool {
    selector.meets(&app(rt, alloc, value))
}

#[test]
fn selector_of_a_label(rt: HostRuntime) {
    let selector = selector(&rt, rt.alloc());
    assert!(rt; is_selected(&rt, rt.alloc(), &selector, "a"), "the value");
    assert!(rt;
        !is_selected(&rt, rt.alloc(), &selector, "b"),
        "another value"
    );
}

// Stops the test unless labels that meet two requirements, each a key, what it asks and its values, have this value at `k`, or there
// are none.
fn expect_possible(
    rt: &impl Abort,
    alloc: Global,
    first: &Asked,
    second: &Asked,
    wanted: Option<&str>,
) {
    let requirements = [
        requirement(rt, alloc, first.0, first.1, first.2),
        requirement(rt, alloc, second.0, second.1, second.2),
    ];
    expect_value(rt, alloc, &requirements, wanted);
}

// The same of these requirements.
fn expect_value(rt: &impl Abort, alloc: Global, asked: &[Requirement], wanted: Option<&str>) {
    match possible(alloc, asked).expect(rt, "an answer") {
        Some(labels) => assert!(rt; labels.get("k") == wanted),
        None => assert!(rt; wanted.is_none()),
    }
}

const AMONG: &Asked = &("k", Op::OneOf, "a b");

const THERE: &Asked = &("k", Op::Present, "");

// One listed value is left, none is, an unlisted value is there, a key that is there is not absent, and each key is decided apart.
#[test]
fn what_is_possible(rt: HostRuntime) {
    let alloc = rt.alloc();
    expect_possible(&rt, alloc, AMONG, &("k", Op::NoneOf, "a"), Some("b"));
    expect_possible(&rt, alloc, AMONG, &("k", Op::NoneOf, "a b"), None);
    expect_possible(&rt, alloc, THERE, &("k", Op::NoneOf, "a aa"), Some("aaa"));
    expect_possible(&rt, alloc, THERE, &("k", Op::Absent, ""), None);
    expect_possible(
        &rt,
        alloc,
        &("k", Op::OneOf, "x y"),
        &("l", Op::NoneOf, "x"),
        Some("x"),
    );
}
