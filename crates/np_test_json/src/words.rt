//! Words and names.

use np_model::{is_name, is_word};

#[test]
fn words(rt: HostRuntime) {
    assert!(rt; is_word("") && is_word("aZ-_09.:") && is_word("app.kubernetes.io/name"));
    assert!(rt;
        !is_word("a b") && !is_word("é"),
        "a space, and beyond ASCII"
    );
    assert!(rt; !is_word("@") && !is_word("["), "beside the capitals");
    assert!(rt; !is_word("`") && !is_word("{"), "beside the small letters");
    assert!(rt; !is_word(";"), "above the digits");
}

#[test]
fn names(rt: HostRuntime) {
    assert!(rt; is_name("aZ-_09.:"), "the characters of names");
    assert!(rt; !is_name("") && !is_name("a b"), "nothing, and a space");
    assert!(rt; !is_name("app.kubernetes.io/name"), "a prefix");
}
