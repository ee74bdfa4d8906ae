//! The lines of shapes: members that must be there, that may be missing and that are lists, and rules on a value.

use np_base::Text;
use np_json::{
    FaultKind, Name, ShapeFault, Step, Whole, Word, has_one_of, listed, must_be_object, optional,
    refuse_if, refuse_member_if, required,
};
use serde_json::Value;
use std::alloc::Global;
use std::process::Abort;

fn are_tags(tags: &[Text]) -> bool {
    match tags {
        [first, second] => first.as_str() == "x" && second.as_str() == "",
        _ => false,
    }
}

// Stops the test unless the tags of an object are those.
fn expect_tags(rt: &impl Abort, alloc: Global, object: &Value) {
    let tags = listed(alloc, object, "tags", &Word).expect(rt, "tags");
    assert!(rt; are_tags(tags.items()), "the tags");
}

// Stops the test unless the name and the weight of an object are those.
fn expect_name_and_weight(rt: &impl Abort, alloc: Global, object: &Value) {
    let name = required(alloc, object, "name", &Name).expect(rt, "a name");
    assert!(rt; name.as_str() == "a", "the name");
    let weight = optional(alloc, object, "weight", &Whole).expect(rt, "a weight");
    assert!(rt; weight == Some(3), "the weight");
}

#[test]
fn members(rt: HostRuntime) {
    let text = r#"{"name": "a", "weight": 3, "tags": ["x", ""]}"#;
    let object = Value::from_str(rt.alloc(), text).expect(&rt, "an object");
    expect_name_and_weight(&rt, rt.alloc(), &object);
    expect_tags(&rt, rt.alloc(), &object);
}

#[test]
fn rules_that_hold(rt: HostRuntime) {
    let text = r#"{"sender": 1, "shop": null}"#;
    let object = Value::from_str(rt.alloc(), text).expect(&rt, "an object");
    must_be_object(rt.alloc(), &object).expect(&rt, "an object");
    assert!(rt; has_one_of(&object, &["shop", "sender"]), "one of two");
}

#[test]
fn rules_that_refuse_nothing(rt: HostRuntime) {
    let alloc = rt.alloc();
    refuse_if(alloc, false, FaultKind::PeerShape).expect(&rt, "a rule on the value");
    let of_member = refuse_member_if(alloc, "tags", false, FaultKind::EmptyPeers);
    of_member.expect(&rt, "a rule on a member");
}

// Whether a value is refused whole.
fn is_refused(read: &Result<(), ShapeFault>, kind: FaultKind) -> bool {
    match read {
        Err(ShapeFault::Bad(flaw)) => flaw.kind == kind && flaw.path.steps.items().is_empty(),
        _ => false,
    }
}

// Whether a value is refused at the member `tags`.
fn has_refused_tags(read: &Result<(), ShapeFault>, kind: FaultKind) -> bool {
    match read {
        Err(ShapeFault::Bad(flaw)) => flaw.kind == kind && is_path_of_tags(flaw.path.steps.items()),
        _ => false,
    }
}

fn is_path_of_tags(steps: &[Step]) -> bool {
    match steps {
        [Step::Field(name)] => name.as_str() == "tags",
        _ => false,
    }
}

#[test]
fn refused_list(rt: HostRuntime) {
    let list = Value::from_str(rt.alloc(), "[]").expect(&rt, "a list");
    let of_list = must_be_object(rt.alloc(), &list);
    assert!(rt; is_refused(&of_list, FaultKind::BadField), "no object");
}

#[test]
fn rules_that_refuse(rt: HostRuntime) {
    let of_value = refuse_if(rt.alloc(), true, FaultKind::PeerShape);
    assert!(rt;
        is_refused(&of_value, FaultKind::PeerShape),
        "a rule on the value"
    );
    let of_member = refuse_member_if(rt.alloc(), "tags", true, FaultKind::EmptyPeers);
    assert!(rt;
        has_refused_tags(&of_member, FaultKind::EmptyPeers),
        "a rule on a member"
    );
}
