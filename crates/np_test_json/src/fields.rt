//! Members of an object, by the type that they are to have.

use np_base::Text;
use np_json::{
    Field, NumberOrText, either_field, flag_field, list_field, object_field, pairs_field,
    text_field, whole_field,
};
use serde_json::Value;
use std::alloc::Global;
use std::process::Abort;

static MEMBERS: &str =
    r#"{"nothing": null, "text": "a", "whole": 7, "part": 1.0, "flag": false, "list": [1, 2],
    "object": {"b": "2", "": "0", "a": "9", "B": "3", "a": "1"}}"#;

// Whether each reader takes its own type.
fn are_given(object: &Value) -> bool {
    matches!(text_field(object, "text"), Field::Given("a"))
        && matches!(whole_field(object, "whole"), Field::Given(7))
        && matches!(flag_field(object, "flag"), Field::Given(false))
        && matches!(list_field(object, "list"), Field::Given([_, _]))
        && matches!(object_field(object, "object"), Field::Given(_))
        && matches!(
            either_field(object, "whole"),
            Field::Given(NumberOrText::Number(7))
        )
        && matches!(
            either_field(object, "text"),
            Field::Given(NumberOrText::Text("a"))
        )
}

// Whether each reader refuses another type.
fn are_wrong(object: &Value) -> bool {
    matches!(text_field(object, "whole"), Field::Wrong)
        && matches!(whole_field(object, "part"), Field::Wrong)
        && matches!(flag_field(object, "text"), Field::Wrong)
        && matches!(list_field(object, "object"), Field::Wrong)
        && matches!(object_field(object, "list"), Field::Wrong)
        && matches!(either_field(object, "flag"), Field::Wrong)
}

// Whether each reader takes null for none.
fn are_missing(object: &Value) -> bool {
    matches!(text_field(object, "nothing"), Field::Missing)
        && matches!(whole_field(object, "nothing"), Field::Missing)
        && matches!(flag_field(object, "nothing"), Field::Missing)
        && matches!(list_field(object, "nothing"), Field::Missing)
        && matches!(object_field(object, "nothing"), Field::Missing)
        && matches!(either_field(object, "nothing"), Field::Missing)
}

/// Whether a pair is that key and that value.
pub fn is_pair(pair: &(Text, Text), key: &str, value: &str) -> bool {
    pair.0.as_str() == key && pair.1.as_str() == value
}

// Pairs stand in the order of their keys, the last of each.
fn are_in_order(pairs: &[(Text, Text)]) -> bool {
    match pairs {
        [empty, capital, first, second] => {
            is_pair(empty, "", "0")
                && is_pair(capital, "B", "3")
                && is_pair(first, "a", "1")
                && is_pair(second, "b", "2")
        }
        _ => false,
    }
}

// Stops the test unless the pairs of a member stand so.
fn expect_pairs(rt: &impl Abort, alloc: Global, object: &Value) {
    let pairs = pairs_field(alloc, object, "object").expect(rt, "pairs");
    assert!(rt; matches!(&pairs, Field::Given(pairs) if are_in_order(pairs.items())));
}

#[test]
fn each_reader_takes_its_own_type(rt: HostRuntime) {
    let object = Value::from_str(rt.alloc(), MEMBERS).expect(&rt, "an object");
    assert!(rt; are_given(&object), "given");
    assert!(rt; are_wrong(&object), "wrong");
    assert!(rt; are_missing(&object), "missing");
    expect_pairs(&rt, rt.alloc(), &object);
}
