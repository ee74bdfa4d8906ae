//! References to items of lists, by example.

use np_base::push_references;

fn are_in_order(references: &[&u64]) -> bool {
    match references {
        [first, second, third] => **first == 7 && **second == 9 && **third == 8,
        _ => false,
    }
}

// References stand behind those that are there, in the order of the items.
#[test]
fn references_behind_others(rt: HostRuntime) {
    let first: [u64; 1] = [7];
    let others: [u64; 2] = [9, 8];
    let mut references = Vec::new(rt.alloc());
    push_references(&mut references, &first).expect(&rt, "room for one");
    push_references(&mut references, &others).expect(&rt, "room for the others");
    assert!(rt; are_in_order(&references));
}
