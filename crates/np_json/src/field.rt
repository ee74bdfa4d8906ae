//! What stands at a member of an object, by the type that it is to have.
ghost use Rattle.std.specs.Prelude.{◌≡◌, option_map};
ghost use Rattle.serde_json.specs.View.{view, items_view};
ghost use Rattle.np_json.specs.Members.{member_of, field_map, as_field, as_scalar, plain, text_of, whole_of, flag_of, list_of, object_of, scalar_of};

use serde_json::Value;

/// How a member of an object stands that is to have one type.
#[derive(PartialEq, Eq, Drop)]
pub enum Field<T> {
    /// There is no such member, or it is null.
    Missing,
    /// It has another type.
    Wrong,
    /// Its value.
    Given(T),
}

/// A member that may be a whole number or a text.
#[derive(Clone, Copy, PartialEq, Eq)]
pub enum NumberOrText<'a> {
    Number(i64),
    Text(&'a str),
}

/// The member of that name. `None` where there is none, or where it is null, which counts as missing. A value
/// that is no object has no members.
pub fn member<'a>(object: &'a Value, name: &str) -> Option<&'a Value>
    ensures { option_map (λ value. view value.now) result ≡ member_of name.now (view object.now) }
{
    let value = object.get(name)?;
    if value.is_null() { None } else { Some(value) }
}

/// A member that is to be a text. A value that is no object has no members.
pub fn text_field<'a>(object: &'a Value, name: &str) -> Field<&'a str>
    ensures { field_map (λ text. text.now) result ≡ text_of name.now (view object.now) }
{
    match member(object, name) {
        None => Field::Missing,
        Some(value) => as_field(value.as_str()),
    }
}

/// A member that is to be a whole number: a number written without a fraction and an exponent, from -2^63 to
/// 2^63 - 1. The number `-0` is none, since it is read as a float. A value that is no object has no members.
pub fn whole_field(object: &Value, name: &str) -> Field<i64>
    ensures { result ≡ whole_of name.now (view object.now) }
{
    match member(object, name) {
        None => Field::Missing,
        Some(value) => as_field(value.as_i64()),
    }
}

/// A member that is to be true or false. A value that is no object has no members.
pub fn flag_field(object: &Value, name: &str) -> Field<bool>
    ensures { result ≡ flag_of name.now (view object.now) }
{
    match member(object, name) {
        None => Field::Missing,
        Some(value) => as_field(value.as_bool()),
    }
}

/// A member that is to be a list: its items. A value that is no object has no members.
pub fn list_field<'a>(object: &'a Value, name: &str) -> Field<&'a [Value]>
    ensures { field_map (λ items. items_view items.now) result ≡ list_of name.now (view object.now) }
{
    match member(object, name) {
        None => Field::Missing,
        Some(value) => match value.as_array() {
            None => Field::Wrong,
            Some(items) => Field::Given(items),
        },
    }
}

/// A member that is to be an object: that object. A value that is no object has no members.
pub fn object_field<'a>(object: &'a Value, name: &str) -> Field<&'a Value>
    ensures { field_map (λ value. view value.now) result ≡ object_of name.now (view object.now) }
{
    match member(object, name) {
        None => Field::Missing,
        Some(value) if value.is_object() => Field::Given(value),
        Some(_) => Field::Wrong,
    }
}

/// A member that is to be a whole number, as for [`whole_field`], or a text. A value that is no object has no
/// members.
pub fn either_field<'a>(object: &'a Value, name: &str) -> Field<NumberOrText<'a>>
    ensures { field_map plain result ≡ scalar_of name.now (view object.now) }
{
    match member(object, name) {
        None => Field::Missing,
        Some(value) => number_or_text(value),
    }
}

// A whole number or a text.
fn number_or_text(value: &Value) -> Field<NumberOrText<'_>>
    ensures { field_map plain result ≡ as_field (as_scalar (view value.now)) }
{
    match (value.as_i64(), value.as_str()) {
        (Some(number), _) => Field::Given(NumberOrText::Number(number)),
        (None, Some(text)) => Field::Given(NumberOrText::Text(text)),
        (None, None) => Field::Wrong,
    }
}

// The value, if it could be read as the type that it is to have.
pub(crate) fn as_field<T>(read: Option<T>) -> Field<T>
    ensures { result ≡ as_field read }
{
    match read {
        Some(value) => Field::Given(value),
        None => Field::Wrong,
    }
}
