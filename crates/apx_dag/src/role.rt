//! What an operator does, from its class and its properties.

ghost use Rattle.std.specs.Prelude.{◌≡◌, ◌≤◌, option_map, option_and_then, IfOk, IfSome};
ghost use Rattle.std.specs.List.{list_all};
ghost use Rattle.apx_json.specs.Integers.{integer_in};
ghost use Rattle.apx_dag.specs.Role.{within, natural_in, is_file, takes, value_named, integer_named, natural_named, role_view, input_of, kind_of, built, role_of};

use crate::class::Class;
use apx_json::{Name, Property, PropertyValue, is_file_name};
use apx_tuple::{InputKind, Kind};
use std::alloc::{AllocError, Global};

/// What an operator does.
#[derive(Debug, Drop)]
pub enum Role {
    /// Reads the lines of a file, `per_window` (1 to 1,000,000) to a window.
    Input {
        kind: InputKind,
        file: Name,
        per_window: u32,
    },
    /// Steps over the tuples of its sources.
    Inner(Kind),
    /// Stores the tuples of its source.
    Sink,
}

impl Role {
    /// The same role.
    pub(crate) fn copy(&self) -> Result<Role, AllocError>
        ensures { IfOk result (λ role. role_view role ≡ role_view self.now) }
    {
        match self {
            Role::Input {
                kind,
                file,
                per_window,
            } => Ok(Role::Input {
                kind: *kind,
                file: file.copy()?,
                per_window: *per_window,
            }),
            Role::Inner(kind) => Ok(Role::Inner(*kind)),
            Role::Sink => Ok(Role::Sink),
        }
    }
}

/// An integer as a whole number from `low` to `high`.
pub(crate) fn whole(n: i64, low: u32, high: u32) -> Option<u32>
    ensures value { result ≡ within low high n }
    ensures low { IfSome result (λ n. low ≤ n) }
    ensures high { IfSome result (λ n. n ≤ high) }
{
    let number = u32::try_from(n).ok()?;
    if low <= number && number <= high {
        Some(number)
    } else {
        None
    }
}

/// A value as a whole number from `low` to `high`.
fn natural(value: &PropertyValue, low: u32, high: u32) -> Option<u32>
    ensures value { result ≡ natural_in low high value.now }
    ensures low { IfSome result (λ n. low ≤ n) }
    ensures high { IfSome result (λ n. n ≤ high) }
{
    whole(value.integer()?, low, high)
}

/// Whether it gives the name of a file.
fn is_file(value: &PropertyValue) -> bool
    ensures { result ≡ is_file value.now }
{
    match value {
        PropertyValue::Text(name) => is_file_name(name.text()),
        _ => false,
    }
}

/// Whether a class has a property of this name, and the value is in its range.
fn takes(class: Class, property: &Property) -> bool
    ensures { result ≡ takes class property.now }
{
    let name = property.name.text();
    let value = &property.value;
    match class {
        Class::Lines | Class::Pairs => {
            name == "file" && is_file(value)
                || name == "perWindow" && natural(value, 1, 1_000_000).is_some()
        }
        Class::Keep => (name == "min" || name == "max") && value.integer().is_some(),
        Class::Scale => name == "factor" && value.integer().is_some(),
        Class::Prefix => name == "len" && natural(value, 0, 1024).is_some(),
        Class::Tumble => name == "every" && natural(value, 1, 20_000).is_some(),
        Class::Top => name == "k" && natural(value, 1, 1000).is_some(),
        _ => false,
    }
}

/// The value that the last property with a name gives.
fn value_named<'a>(properties: &'a [Property], name: &str) -> Option<&'a PropertyValue>
    ensures { option_map (λ v. v.now) result ≡ value_named name.now properties.now }
{
    properties
        .iter()
        .rev()
        .find(|property| property.name.text() == name)
        .map(|property| &property.value)
}

fn integer_named(properties: &[Property], name: &str) -> Option<i64>
    ensures { result ≡ integer_named name.now properties.now }
{
    value_named(properties, name)?.integer()
}

/// A whole number from `low` to `high` that the last property with a name gives.
fn natural_named(properties: &[Property], name: &str, low: u32, high: u32) -> Option<u32>
    ensures value { result ≡ natural_named low high name.now properties.now }
    ensures low { IfSome result (λ n. low ≤ n) }
    ensures high { IfSome result (λ n. n ≤ high) }
{
    natural(value_named(properties, name)?, low, high)
}

/// The role of an input, where its file and its lines per window are there.
fn input(
    alloc: Global,
    kind: InputKind,
    properties: &[Property],
) -> Result<Option<Role>, AllocError>
    ensures { IfOk result (λ role. option_map role_view role ≡ input_of kind properties.now) }
{
    let Some(PropertyValue::Text(file)) = value_named(properties, "file") else {
        return Ok(None);
    };
    let Some(per_window) = natural_named(properties, "perWindow", 1, 1_000_000) else {
        return Ok(None);
    };
    Ok(Some(Role::Input {
        kind,
        file: file.copy()?,
        per_window,
    }))
}

/// The kind of an inner operator, where the properties that it needs are there.
fn kind(class: Class, properties: &[Property]) -> Option<Kind>
    ensures { result ≡ kind_of class properties.now }
{
    match class {
        Class::Keep => Some(Kind::Keep {
            min: integer_named(properties, "min").unwrap_or(i64::MIN),
            max: integer_named(properties, "max").unwrap_or(i64::MAX),
        }),
        Class::Scale => Some(Kind::Scale {
            factor: integer_named(properties, "factor")?,
        }),
        Class::Words => Some(Kind::Words),
        Class::Count => Some(Kind::Count),
        Class::Sum => Some(Kind::Sum),
        Class::Peak => Some(Kind::Peak),
        Class::First => Some(Kind::First),
        Class::Prefix => Some(Kind::Prefix {
            len: natural_named(properties, "len", 0, 1024)? as u16,
        }),
        Class::Tumble => Some(Kind::Tumble {
            every: natural_named(properties, "every", 1, 20_000)?,
        }),
        Class::Top => Some(Kind::Top {
            k: natural_named(properties, "k", 1, 1000)?,
        }),
        Class::Match => Some(Kind::Match),
        Class::Enrich => Some(Kind::Enrich),
        Class::Lines | Class::Pairs | Class::Store => None,
    }
}

fn takes_all(class: Class, properties: &[Property]) -> bool
    ensures { result ≡ list_all (takes class) properties.now }
{
    properties.iter().all(|property| takes(class, property))
}

/// The role of a class, where the properties that it needs are there.
fn built(alloc: Global, class: Class, properties: &[Property]) -> Result<Option<Role>, AllocError>
    ensures { IfOk result (λ role. option_map role_view role ≡ built class properties.now) }
{
    match class {
        Class::Lines => input(alloc, InputKind::Lines, properties),
        Class::Pairs => input(alloc, InputKind::Pairs, properties),
        Class::Store => Ok(Some(Role::Sink)),
        _ => Ok(kind(class, properties).map(Role::Inner)),
    }
}

/// The role of an operator of this class with these properties; `None` where a
/// property isn't one of the class, a needed one is absent, or a value is
/// outside its range.
pub(crate) fn role_of(
    alloc: Global,
    class: Class,
    properties: &[Property],
) -> Result<Option<Role>, AllocError>
    ensures { IfOk result (λ role. option_map role_view role ≡ role_of class properties.now) }
{
    if takes_all(class, properties) {
        built(alloc, class, properties)
    } else {
        Ok(None)
    }
}
