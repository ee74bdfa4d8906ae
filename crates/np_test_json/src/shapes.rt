//! Shapes of single values, each as what an item of a list is read as.

use crate::fields::is_pair;
use np_base::Text;
use np_json::{
    Field, Flag, LabelMap, NamespacedNameShape, Port, TypeMetaShape, list_field, read_item,
};
use serde_json::Value;
use std::alloc::Global;
use std::process::Abort;

static VALUES: &str =
    r#"{"items": [true, 65535, {"app": "", "a/b": "c"}, {"apiVersion": "v1", "kind": "Pod"}, {"name": "a", "namespace": ""}]}"#;

fn are_labels(labels: &[(Text, Text)]) -> bool {
    match labels {
        [first, second] => is_pair(first, "a/b", "c") && is_pair(second, "app", ""),
        _ => false,
    }
}

fn expect_labels(rt: &impl Abort, alloc: Global, value: &Value) {
    let labels = read_item(alloc, 3, value, &LabelMap).expect(rt, "labels");
    assert!(rt; are_labels(labels.items()), "the labels");
}

fn expect_type_of_pods(rt: &impl Abort, alloc: Global, value: &Value) {
    let meta = read_item(alloc, 4, value, &TypeMetaShape).expect(rt, "a type");
    assert!(rt;
        meta.api_version.as_str() == "v1" && meta.kind.as_str() == "Pod",
        "the type"
    );
}

fn expect_name_in_default(rt: &impl Abort, alloc: Global, value: &Value) {
    let own = read_item(alloc, 5, value, &NamespacedNameShape).expect(rt, "a name");
    assert!(rt;
        own.name.as_str() == "a" && own.namespace.as_str() == "default",
        "the name"
    );
}

fn expect_items(rt: &impl Abort, alloc: Global, list: &Value) {
    let Field::Given([flag, port, labels, meta, own]) = list_field(list, "items") else {
        panic!(rt; "five values");
    };
    let flag = read_item(alloc, 1, flag, &Flag).expect(rt, "a flag");
    assert!(rt; flag, "the flag");
    let port = read_item(alloc, 2, port, &Port).expect(rt, "a port");
    assert!(rt; port.get() == 65535, "the port");
    expect_labels(rt, alloc, labels);
    expect_type_of_pods(rt, alloc, meta);
    expect_name_in_default(rt, alloc, own);
}

#[test]
fn example_read_item(rt: HostRuntime) {
    let list = Value::from_str(rt.alloc(), VALUES).expect(&rt, "values");
    expect_items(&rt, rt.alloc(), &list);
}
