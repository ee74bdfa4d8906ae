//! Paths as texts.

use np_base::NoMemory;
use np_json::Path;
use std::alloc::Global;

// A member and then an item of it.
fn item_of_a_member(alloc: Global) -> Result<Path, NoMemory> {
    Path::empty(alloc).field("ingress")?.item(120)
}

// A member of an item.
fn member_of_an_item(alloc: Global) -> Result<Path, NoMemory> {
    Path::empty(alloc).under_field("from")?.under_item(0)
}

#[test]
fn path_from_the_whole(rt: HostRuntime) {
    let path = item_of_a_member(rt.alloc()).expect(&rt, "a path");
    let text = path.text().expect(&rt, "a text");
    assert!(rt; text.as_str() == "ingress[120]");
}

#[test]
fn path_from_within(rt: HostRuntime) {
    let path = member_of_an_item(rt.alloc()).expect(&rt, "a path");
    let text = path.text().expect(&rt, "a text");
    assert!(rt; text.as_str() == "[0].from");
}
