//! The items of lists.

use np_base::Seq;
use np_items::{Item, ItemsFault, read_items};
use np_objects::Object;
use std::alloc::Global;
use std::process::Abort;

// What the items of a list are read as.
fn read_list(rt: &impl Abort, alloc: Global, list: &str) -> Result<Seq<Item>, ItemsFault> {
    let inputs = [Vec::from_slice(alloc, list.as_bytes()).expect(rt, "an input")];
    read_items(alloc, &inputs)
}

static LIST: &str = r#"{"apiVersion":"v1","kind":"List","items":[
    {"apiVersion":"networking.k8s.io/v1","kind":"NetworkPolicy","metadata":{"name":"p"},"spec":{}},
    {"apiVersion":"v1","kind":"Pod","metadata":{"name":"a"},"spec":{}},
    {"apiVersion":"v1","kind":"ConfigMap","metadata":{"name":"c"}}]}"#;

fn are_those_of_the_list(items: &[Item]) -> bool {
    matches!(
        items,
        [
            Item::Policy(_),
            Item::Object(Object::Pod(_)),
            Item::Object(Object::Other)
        ]
    )
}

#[test]
fn example_read_items(rt: HostRuntime) {
    let items = read_list(&rt, rt.alloc(), LIST).expect(&rt, "items");
    assert!(rt; are_those_of_the_list(items.items()));
}

#[test]
fn list_of_one_kind(rt: HostRuntime) {
    let read = read_list(&rt, rt.alloc(), r#"{"apiVersion":"v1","kind":"PodList"}"#);
    assert!(rt; matches!(&read, Err(ItemsFault::NotAList { input: 1 })));
}
