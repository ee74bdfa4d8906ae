//! A list of policies.

/// What stands before the first policy of a `v1` List.
pub const LIST_FRONT: &str = "{\"apiVersion\":\"v1\",\"items\":[";

/// What stands between two policies of a list.
pub const LIST_SEPARATOR: &str = ",";

/// What stands behind the last policy of a `v1` List.
pub const LIST_END: &str = "],\"kind\":\"List\"}";
