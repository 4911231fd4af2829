//! The shape of operators.

ghost use Rattle.std.specs.Prelude.{◌≡◌, IfOk, option_map};
ghost use Rattle.serde_json.specs.View.{view, items_view, members_view};
ghost use Rattle.apx_json.specs.Shape.{Gives, property_value_of, properties_of, properties_at, attributes_at, operator_at, each_at};

use crate::member::{attribute, object, text};
use crate::name::Name;
use crate::place::Place;
use crate::refusal::JsonRefusal;
use crate::text::{OperatorText, Property, PropertyValue};
use serde_json::{Map, Value};
use std::alloc::{AllocError, Global};

fn property_value(alloc: Global, value: &Value) -> Result<PropertyValue, AllocError>
    ensures { IfOk result (λ found. found ≡ property_value_of (view value.now)) }
{
    Ok(match value {
        Value::Number(number) => match number.as_i64() {
            Some(n) => PropertyValue::Number(n),
            None => PropertyValue::Other,
        },
        Value::String(text) => PropertyValue::Text(Name::of(alloc, text.as_str())?),
        _ => PropertyValue::Other,
    })
}

fn properties_in(alloc: Global, members: &Map<String, Value>) -> Result<Vec<Property>, AllocError>
    ensures { IfOk result (λ list. list.items ≡ properties_of (members_view members.now.entries)) }
{
    let mut properties = Vec::new(alloc);
    for (name, value) in members {
        properties.push(Property {
            name: Name::of(alloc, name.as_str())?,
            value: property_value(alloc, value)?,
        })?;
    }
    Ok(properties)
}

/// The properties of operator `i`, none where they are absent.
#[tactic(auto, unfolding(crate::specs::Shape::properties_at))]
fn properties(alloc: Global, i: usize, found: Option<&Value>) -> Result<Vec<Property>, JsonRefusal>
    ensures { Gives (λ list. list.items) result
        (properties_at i (option_map (λ v. view v.now) found.entry)) }
{
    let Some(value) = found else {
        return Ok(Vec::new(alloc));
    };
    match value.as_object() {
        Some(members) => Ok(properties_in(alloc, members)?),
        None => Err(JsonRefusal::Shape {
            place: Place::Operator(i).member(alloc, "properties")?,
        }),
    }
}

/// `PARTITIONS` and `APPLICATION_WINDOW_COUNT` of operator `i`.
#[tactic(auto, unfolding(crate::specs::Shape::attributes_at))]
fn attributes(alloc: Global, i: usize, found: Option<&Value>) -> Result<(i64, i64), JsonRefusal>
    ensures { Gives (λ pair. pair) result (attributes_at i (option_map (λ v. view v.now) found.entry)) }
{
    if found.is_none() {
        return Ok((1, 1));
    }
    let place = Place::Attributes(i);
    let attributes = object(alloc, place, found)?;
    let partitions = attribute(alloc, place, attributes, "PARTITIONS")?;
    let app_windows = attribute(alloc, place, attributes, "APPLICATION_WINDOW_COUNT")?;
    Ok((partitions, app_windows))
}

/// Operator `i` of the file.
#[tactic(auto, unfolding(crate::specs::Shape::operator_at))]
fn operator(alloc: Global, i: usize, value: &Value) -> Result<OperatorText, JsonRefusal>
    ensures { Gives (λ o. o) result (operator_at i (view value.now)) }
{
    let place = Place::Operator(i);
    let members = object(alloc, place, Some(value))?;
    let name = text(alloc, place, members, "name")?;
    let class = text(alloc, place, members, "class")?;
    let properties = properties(alloc, i, members.get("properties"))?;
    let (partitions, app_windows) = attributes(alloc, i, members.get("attributes"))?;
    Ok(OperatorText {
        name,
        class,
        properties,
        partitions,
        app_windows,
    })
}

/// The operators of a list.
pub(crate) fn operators(alloc: Global, list: &Vec<Value>) -> Result<Vec<OperatorText>, JsonRefusal>
    ensures { Gives (λ found. found.items) result
        (each_at operator_at 0 (items_view list.now.items)) }
{
    let mut operators = Vec::new(alloc);
    for (i, value) in list.iter().enumerate() {
        operators.push(operator(alloc, i, value)?)?;
    }
    Ok(operators)
}
