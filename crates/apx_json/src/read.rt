//! From bytes to an application.

ghost use Rattle.std.specs.Prelude.{◌≡◌};
ghost use Rattle.serde_json.specs.View.{view};
ghost use Rattle.apx_json.specs.Shape.{Gives, application_of};
ghost use Rattle.apx_json.specs.Reading.{Reads};

use crate::member::{list, object};
use crate::operator::operators;
use crate::place::Place;
use crate::refusal::JsonRefusal;
use crate::stream::streams;
use crate::text::AppText;
use serde_json::Value;
use std::alloc::Global;

#[tactic(auto, unfolding(crate::specs::Shape::application_of))]
fn application(alloc: Global, value: &Value) -> Result<AppText, JsonRefusal>
    ensures { Gives (λ app. app) result (application_of (view value.now)) }
{
    let members = object(alloc, Place::Application, Some(value))?;
    let operators = operators(
        alloc,
        list(alloc, Place::Application, members, "operators")?,
    )?;
    let streams = streams(alloc, list(alloc, Place::Application, members, "streams")?)?;
    Ok(AppText { operators, streams })
}

/// The application that a JSON text is, read by `serde_json`.
///
/// - `Syntax` where that crate takes the bytes for no JSON.
/// - `Shape` at the first member, in the order of the file's form, that is
///   missing or of another shape, with its path, as `operators[2].class`; the
///   whole value has the place `application`.
/// - `Memory` where memory ran out.
///
/// Members that an application doesn't have are passed over, except within
/// `properties`. Where a member stands twice, the last one counts.
pub fn read_app(alloc: Global, bytes: &[u8]) -> Result<AppText, JsonRefusal>
    ensures { Reads bytes.now result }
{
    match Value::from_slice(alloc, bytes) {
        Ok(value) => application(alloc, &value),
        Err(error) if error.is_memory() => Err(JsonRefusal::Memory),
        Err(_) => Err(JsonRefusal::Syntax),
    }
}
