//! What a selector that was read asks for.

use np_labels::{Op, Requirement, Selector};

/// Whether a requirement asks that of a key, with at most one value.
pub fn is_asked(requirement: &Requirement, key: &str, op: Op, value: &str) -> bool {
    let values = requirement.values.items();
    let is_value = match values {
        [] => value.is_empty(),
        [only] => only.as_str() == value,
        _ => false,
    };
    requirement.key.as_str() == key && requirement.op == op && is_value
}

/// Whether a selector asks for that label alone.
pub fn asks_for(selector: &Selector, key: &str, value: &str) -> bool {
    match selector.requirements.items() {
        [only] => is_asked(only, key, Op::OneOf, value),
        _ => false,
    }
}

/// Whether a selector asks for nothing.
pub fn asks_for_nothing(selector: &Selector) -> bool {
    selector.requirements.items().is_empty()
}
