//! The classes of a list of numbers, and names for things of which several wish for one name.

use np_base::Text;
use np_classes::{Classes, groups};
use np_names::{Named, all_by_name};
use std::alloc::Global;
use std::process::Abort;

#[test]
fn example_classes(rt: HostRuntime) {
    let keys: [u64; 4] = [7, u64::MAX, 7, 0];
    let keys = Vec::from_array(rt.alloc(), keys).expect(&rt, "keys");
    let classes = Classes::of(rt.alloc(), keys).expect(&rt, "classes");
    assert!(rt; classes.firsts.items() == [0, 1, 3].as_slice());
    assert!(rt; classes.numbers.items() == [0, 1, 0, 2].as_slice());
}

#[test]
fn example_groups(rt: HostRuntime) {
    let made = groups(rt.alloc(), &[1, 0, 1], 3).expect(&rt, "groups");
    assert_eq!(rt; made.items().len(), 3);
    assert!(rt; made.items()[0].items() == [1].as_slice());
    assert!(rt; made.items()[1].items() == [0, 2].as_slice());
    assert!(rt; made.items()[2].items().is_empty());
}

// The byte of `#` stands between those of `!` and `$`.
#[test]
fn example_names(rt: HostRuntime) {
    let wishes = [
        wish(&rt, rt.alloc(), "b$"),
        wish(&rt, rt.alloc(), "b"),
        wish(&rt, rt.alloc(), "b!"),
        wish(&rt, rt.alloc(), "b"),
    ];
    let made = all_by_name(rt.alloc(), &wishes).expect(&rt, "names");
    assert!(rt; are_in_order(made.items()));
}

// A wish for this name.
fn wish(rt: &impl Abort, alloc: Global, name: &str) -> Text {
    Text::of(alloc, name).expect(rt, "a wish")
}

// The second of those that wish for `b` has the greater number.
fn are_in_order(made: &[Named]) -> bool {
    let [first, second, third, last] = made else {
        return false;
    };
    is_named(first, "b!", 2)
        && is_named(second, "b#1", 1)
        && is_named(third, "b#2", 3)
        && is_named(last, "b$", 0)
}

fn is_named(one: &Named, name: &str, place: u32) -> bool {
    one.name.as_str() == name && one.place == place
}
