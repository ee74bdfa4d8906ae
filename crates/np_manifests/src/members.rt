//! Members of JSON objects that may be left out.
ghost use Rattle.std.specs.Prelude.{◌≡◌, OnOk, map, option_map};
ghost use Rattle.serde_json.specs.View.{members_view, view};
ghost use Rattle.np_manifests.specs.Members.{if_given, if_some, with_entries};

use np_base::NoMemory;
use serde_json::{Map, Value, put};
use std::alloc::Global;

/// Puts a member in, where there is a value for it.
pub(crate) fn put_given(
    alloc: Global,
    members: &mut Map<String, Value>,
    name: &str,
    value: Option<Value>,
) -> Result<(), NoMemory>
    ensures { OnOk result (members_view members.new.entries
        ≡ with_entries (members_view members.old.entries) (if_given name.now (option_map view value))) }
{
    if let Some(value) = value {
        put(members, alloc, name, value)?;
    }
    Ok(())
}

/// Puts in a member that lists values, where there are some.
pub(crate) fn put_some(
    alloc: Global,
    members: &mut Map<String, Value>,
    name: &str,
    values: Vec<Value>,
) -> Result<(), NoMemory>
    ensures { OnOk result (members_view members.new.entries
        ≡ with_entries (members_view members.old.entries) (if_some name.now (map view values.items))) }
{
    if !values.is_empty() {
        put(members, alloc, name, Value::Array(values))?;
    }
    Ok(())
}
