//! Members of JSON objects, or the place of the one that isn't as it should be.

ghost use Rattle.std.specs.Prelude.{◌≡◌, option_map};
ghost use Rattle.serde_json.specs.View.{view, items_view};
ghost use Rattle.apx_json.specs.Shape.{Gives, object_at, list_at, text_at, number_of, attribute_at};

use crate::name::Name;
use crate::place::Place;
use crate::refusal::JsonRefusal;
use apx_decimal::integer;
use serde_json::Value;
use std::alloc::Global;

/// What was found, where it is an object.
#[tactic(auto, unfolding(crate::specs::Shape::object_at))]
pub(crate) fn object<'v>(
    alloc: Global,
    place: Place,
    found: Option<&'v Value>,
) -> Result<&'v Value, JsonRefusal>
    ensures { Gives (λ v. view v.now) result
        (object_at place (option_map (λ v. view v.now) found.entry)) }
{
    match found {
        Some(value) if value.is_object() => Ok(value),
        _ => Err(JsonRefusal::Shape {
            place: place.path(alloc)?,
        }),
    }
}

/// The text under a name of the object there.
#[tactic(auto, unfolding(crate::specs::Shape::text_at))]
pub(crate) fn text(
    alloc: Global,
    place: Place,
    object: &Value,
    name: &str,
) -> Result<Name, JsonRefusal>
    ensures { Gives (λ text. text) result (text_at place name.now (view object.now)) }
{
    match object.get(name).and_then(Value::as_str) {
        Some(text) => Ok(Name::of(alloc, text)?),
        None => Err(JsonRefusal::Shape {
            place: place.member(alloc, name)?,
        }),
    }
}

/// The list under a name of the object there.
#[tactic(auto, unfolding(crate::specs::Shape::list_at))]
pub(crate) fn list<'v>(
    alloc: Global,
    place: Place,
    object: &'v Value,
    name: &str,
) -> Result<&'v Vec<Value>, JsonRefusal>
    ensures { Gives (λ list. items_view list.now.items) result
        (list_at place name.now (view object.now)) }
{
    match object.get(name).and_then(Value::as_array) {
        Some(list) => Ok(list),
        None => Err(JsonRefusal::Shape {
            place: place.member(alloc, name)?,
        }),
    }
}

/// The integer that a JSON number or a text is.
fn number(value: &Value) -> Option<i64>
    ensures { result ≡ number_of (view value.now) }
{
    match value {
        Value::Number(number) => number.as_i64(),
        Value::String(text) => integer(text.as_bytes()),
        _ => None,
    }
}

/// An attribute, 1 where it is absent.
#[tactic(auto, unfolding(crate::specs::Shape::attribute_at))]
pub(crate) fn attribute(
    alloc: Global,
    place: Place,
    attributes: &Value,
    name: &str,
) -> Result<i64, JsonRefusal>
    ensures { Gives (λ n. n) result (attribute_at place name.now (view attributes.now)) }
{
    let Some(value) = attributes.get(name) else {
        return Ok(1);
    };
    match number(value) {
        Some(number) => Ok(number),
        None => Err(JsonRefusal::Shape {
            place: place.member(alloc, name)?,
        }),
    }
}
